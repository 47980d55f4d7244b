// What a schema is made of.
use crate::{Kind, Piece};
use ocsf_tree::{Row, Shared, Text, Tree};

/// What a schema is made of.
pub struct SchemaParts {
    /// The items, strictly by full key.
    pub pieces: Row<Shared<Piece>>,
    /// The data types, strictly by name.
    pub kinds: Row<Kind>,
    /// The categories by key, as printed.
    pub categories: Tree,
    /// The merged dictionary entries by attribute, as printed.
    pub dictionary: Tree,
    /// The enabled extensions by name, as printed.
    pub extensions: Tree,
    /// The profiles by key, as printed.
    pub profiles: Tree,
    /// The listed types by name, as printed.
    pub types: Tree,
    pub version: Text,
}

impl Drop for SchemaParts {
    fn drop(self) {
        let SchemaParts {
            pieces: _,
            kinds: _,
            categories: _,
            dictionary: _,
            extensions: _,
            profiles: _,
            types: _,
            version: _,
        } = self;
    }
}
