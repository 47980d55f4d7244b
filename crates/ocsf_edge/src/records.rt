// What a keeper stores, and the changes of it.
use crate::{Bytes, Seq};

/// A stored file.
#[derive(Debug, Drop)]
pub struct KeptFile {
    pub path: Bytes,
    pub body: Bytes,
}

/// The stored tables.
#[derive(Debug, Drop)]
pub struct Kept {
    pub files: Seq<KeptFile>,
    /// The names of the enabled extensions.
    pub enabled: Seq<Bytes>,
    pub revision: u32,
}

/// One change of the stored tables.
#[derive(Debug, Drop)]
pub enum Move {
    /// Adds the file, in place of one at its path.
    Put(KeptFile),
    /// Takes away the file at the path. Without one it changes nothing.
    Remove(Bytes),
    /// Enables the extension. Where it is enabled it changes nothing.
    Enable(Bytes),
    /// Disables the extension. Where it isn't enabled it changes nothing.
    Disable(Bytes),
}
