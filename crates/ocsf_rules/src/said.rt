// What the dictionaries say of an attribute.
use ocsf_tree::{EnumMember, Row, Text};

/// A type as it is written, and the extension whose layer or dictionary gives it, empty for core.
#[derive(Debug)]
pub struct TypeSaid {
    pub name: Text,
    pub from: Text,
}

impl Drop for TypeSaid {
    fn drop(self) {
        let TypeSaid { name: _, from: _ } = self;
    }
}

/// What the dictionaries say of an attribute, each field as the last layer gives it that gives it.
#[derive(Debug)]
pub struct DictSaid {
    pub caption: Option<Text>,
    pub description: Option<Text>,
    pub type_said: Option<TypeSaid>,
    pub is_array: Option<bool>,
    pub sibling: Option<Text>,
    /// The members of all layers, those of the last layer first.
    pub members: Row<EnumMember>,
}

impl Drop for DictSaid {
    fn drop(self) {
        let DictSaid {
            caption: _,
            description: _,
            type_said: _,
            is_array: _,
            sibling: _,
            members: _,
        } = self;
    }
}
