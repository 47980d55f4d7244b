//! What is wrong with an event, by a compiled schema.
#![tactic(auto)]

mod answer;
mod members;
mod notes;
mod order;
mod reporting;
mod simple;
mod violation;
mod violation_order;
mod walk;
mod whole;

pub use answer::report_tree;
pub use reporting::report;
pub use violation::{Violation, Wrong};
