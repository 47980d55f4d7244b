// A file as it is stored, and as it counts.
ghost use Rattle.std.specs.Prelude.{IfOk};
ghost use Rattle.ocsf_tree.specs.Valid.{IsValid};
ghost use Rattle.ocsf_bundle.specs.Stored.{stored_path, IsStoredSound};
ghost use Rattle.ocsf_bundle.specs.After.{IsStoredAs};

use ocsf_raw::{RawError, RawFile, shape};
use ocsf_tree::{Named, Row, Shared, Text, Tree, print};
use std::alloc::Global;

/// A file of a bundle: its path, its compact text, and what the text says.
#[derive(Debug)]
pub struct StoredFile {
    pub path: Text,
    pub text: Row<u8>,
    pub raw: RawFile,
}

impl Drop for StoredFile {
    fn drop(self) {
        let StoredFile {
            path: _,
            text: _,
            raw: _,
        } = self;
    }
}

impl StoredFile {
    /// The file that the tree makes at the path. The fault is that of [`shape`].
    ///
    /// [`shape`]: ocsf_raw::shape
    pub fn of(alloc: Global, path: &Text, tree: &Tree) -> Result<StoredFile, RawError>
        requires valid { IsValid tree.now }
        ensures file { IsStoredAs path.now tree.now result }
        ensures sound { IfOk result IsStoredSound }
    {
        // What it says comes last, so that no call fails while it is held.
        let text = print(alloc, tree)?;
        let copied = path.copy()?;
        let raw = shape(alloc, path.as_str(), tree)?;
        Ok(StoredFile {
            path: copied,
            text,
            raw,
        })
    }
}

impl Named for StoredFile {
    ghost name_of = { stored_path };

    fn name(&self) -> &str {
        self.path.as_str()
    }
}

/// A file that counts: of core, or of an enabled extension, whose file it comes with.
#[derive(Debug)]
pub struct ActiveFile {
    pub file: Shared<StoredFile>,
    pub ext: Option<Shared<StoredFile>>,
}

impl Drop for ActiveFile {
    fn drop(self) {
        let ActiveFile { file: _, ext: _ } = self;
    }
}
