//! Lists that contracts see as the list of their items, shared values, and lists in order by name: what the outside
//! (`ocsf_edge`) and the values (`ocsf_tree`) have in common.
#![tactic(auto)]

mod by_name;
mod row;
mod shared;
mod try_clone;

pub use by_name::{Named, find_by_name, first_of_each};
pub use row::Row;
pub use shared::Shared;
pub use try_clone::TryClone;
