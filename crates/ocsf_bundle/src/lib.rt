//! The files of a bundle, the edits on them, and what can be asked of them when they are compiled:
//! the cells.
#![tactic(auto)]

mod active;
mod bundle;
mod cells;
mod draft;
mod edit;
mod edit_laws;
mod faults;
mod groups;
mod index;
mod key_faults;
mod keys;
mod laws;
mod listing;
mod look;
mod named_map;
mod numbers;
mod own_fault;
mod patch_fault;
mod shows;
mod stored;
mod type_fault;

pub use bundle::Bundle;
pub use cells::{Cell, Part};
pub use edit::{Change, Edit, edit_of};
pub use edit_laws::{
    a_tree_says_one_edit_or_has_one_fault, an_edit_leads_to_one_bundle_or_has_one_fault,
    edits_read_one_way,
};
pub use faults::lesser_of;
pub use laws::{cells_are_ordered, keys_are_those_of_items};
pub use shows::Shows;
pub use stored::StoredFile;
