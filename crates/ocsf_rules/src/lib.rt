//! What it means to be compiled, over what cells show: names, chains and layers, the attributes and the item of a full
//! key, its faults and the cells that it reads, the printed schema and its faults, the compilation, the verdict on a
//! bundle and the judgement of an edit. The definitions stand in `specs/`; here are the records that they speak of.
#![tactic(auto)]

mod category;
mod numbered;
mod said;

pub use category::{Category, Written};
pub use numbered::Numbered;
pub use said::{DictSaid, TypeSaid};
