//! The way from an item to what it is made of: names resolved, the chain and its faults, the files that speak along it
//! and what they give, their layers, what a type leads to, and the enumerations that are computed.
#![tactic(auto)]

mod blame;
mod chain;
mod chain_faults;
mod enumerations;
mod given;
mod names;
mod speakers;
mod targets;
mod walk;

pub use blame::with_fault;
pub use chain::{Chain, chain_of, own_file};
pub use chain_faults::chain_fault;
pub use enumerations::{computed, numbered_by, small_number};
pub use given::{Given, give, given_by, is_class, written_by};
pub use names::{category_cells, ext_of, is_shown, profile_cells, resolve};
pub use speakers::{Patch, Speaker, push_speakers_of, speakers_along};
pub use targets::{TypeLent, target_named, type_of};
pub use walk::{Walk, hear_files};
