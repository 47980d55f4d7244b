// A category, as it is written and as it is.
use ocsf_tree::{Text, TryClone};
use std::alloc::AllocError;

/// A category as it is written, and the extension of the file that writes it, empty for core.
#[derive(Debug)]
pub struct Written {
    pub name: Text,
    pub ext: Text,
}

impl Drop for Written {
    fn drop(self) {
        let Written { name: _, ext: _ } = self;
    }
}

/// A category.
#[derive(Debug, Drop)]
pub struct Category {
    pub key: Text,
    /// The uid of its extension, 0 for core.
    pub ext_uid: u32,
    /// The uid that is written for it.
    pub uid: u32,
    pub caption: Option<Text>,
}

impl TryClone for Category {
    fn try_clone(&self) -> Result<Category, AllocError> {
        Ok(Category {
            key: self.key.copy()?,
            ext_uid: self.ext_uid,
            uid: self.uid,
            caption: self.caption.try_clone()?,
        })
    }
}
