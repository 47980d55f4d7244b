//! Data types: what they lead to, the values that they take, and the numbers of classes and events.
#![tactic(auto)]

mod accepted;
mod kinds;
mod laws;
mod numbers;

pub use accepted::{Which, breaks, fits_base};
pub use kinds::{KindError, kind_of};
pub use laws::cycles_have_no_end;
pub use numbers::{category_uid, class_uid, type_uid};
