//! The compiled schema: its records, the printed fragment of an item, and the printed schema.
#![tactic(auto)]

mod fields;
mod fragment;
mod lookup;
mod parts;
mod piece;
mod printing;
mod records;
mod rope;
mod schema;
mod steps;

pub use fields::{enumeration_field, flag_field, put_field, put_word, put_words, texts_field};
pub use parts::SchemaParts;
pub use piece::Piece;
pub use records::{Attr, Base, Item, Kind, Limit, Target};
pub use schema::Schema;
pub use steps::Steps;
