//! One item, compiled: the item that a full key stands for, the cells that it reads, and its least
//! fault.
#![tactic(auto)]

mod assemble;
mod attribute;
mod build;
mod build_error;
mod categories;
mod class;
mod compile;
mod dictionary;
mod faults;
mod join;
mod leads;
mod order;
mod own;
mod parts;
mod site;

pub use build::{Built, build_item};
pub use build_error::BuildError;
