//! What the layers of an item say of its attributes, folded layer by layer.
#![tactic(auto)]

mod fields;
mod laws;
mod members;
mod row;
mod spoken;
mod table;

pub use fields::{both_later, later};
pub use laws::{rows_are_those_present, rows_stand_by_name};
pub use members::members_over;
pub use spoken::Spoken;
pub use table::Table;
