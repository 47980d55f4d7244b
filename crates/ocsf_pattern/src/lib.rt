//! Patterns of texts, by `regex`, with the last used ones kept built.
#![tactic(auto)]

mod built;
mod finder;
mod patterns;

pub use patterns::{PatternError, Patterns};
