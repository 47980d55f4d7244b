//! The values that every crate above passes on, and JSON: trees, places, keys and faults, read and
//! printed exactly.
#![tactic(auto)]

mod attribute;
mod equality;
mod fault;
mod first_inexact;
mod key;
mod laws;
mod place;
mod printer;
mod reader;
mod text;
mod text_order;
mod tree;

pub use attribute::{EnumMember, Requirement, Span};
pub use equality::is_same;
pub use fault::{Code, Fault, lesser_fault};
pub use key::{Key, Side};
pub use laws::{
    every_text_reads, keys_go_by_their_texts, least_faults_are_least, places_are_ordered,
    prints_join, prints_tell_trees_apart, reads_one_way,
};
pub use ocsf_lists::{Named, Row, Shared, TryClone, find_by_name, first_of_each};
pub use place::{Place, Step, place_order, pointer};
pub use printer::{print, quote};
pub use reader::{TreeError, read};
pub use text::{Text, both_copied};
pub use tree::{Member, Tree};
