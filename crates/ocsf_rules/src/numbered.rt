// What the enumerations of a class are computed from.
use crate::Category;
use ocsf_tree::{EnumMember, Row, Text};

/// What the enumerations of a class are computed from.
#[derive(Debug)]
pub struct Numbered {
    /// The number of the class.
    pub number: u64,
    /// The caption of the class, or its key where it has none.
    pub caption: Text,
    pub category: Category,
    /// The members of the enumeration of `activity_id`.
    pub activities: Row<EnumMember>,
}

impl Drop for Numbered {
    fn drop(self) {
        let Numbered {
            number: _,
            caption: _,
            category: _,
            activities: _,
        } = self;
    }
}
