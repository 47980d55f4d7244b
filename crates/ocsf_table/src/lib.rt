//! A table that a program reads: a row a line, with its fields, the marks that stand for other text, and the text
//! that is given for the rows below it.
#![tactic(auto)]

mod fields;
mod marks;
mod rows;

pub use fields::{field, halves, nth_line, number};
pub use marks::{bytes_of, expanded};
pub use rows::{end_line, next_row, push_bytes};
