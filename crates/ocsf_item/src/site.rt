// Where an item is built.
use ocsf_tree::Key;
use std::alloc::Global;

/// What an item stands on.
#[derive(Drop)]
pub(crate) struct Site<'a, B> {
    pub alloc: Global,
    pub bundle: &'a B,
    /// The key of the item.
    pub key: &'a Key,
}
