// A folder in memory, of which some calls fail.
ghost use Rattle.std.specs.Prelude.{◌≡◌, Some};
ghost use Rattle.ocsf_edge.specs.Folder.{HasNoRepeatedPath};

use crate::{Bytes, Fail, Folder, KeptFile, Seq, SureFolder};

/// Files in memory, where some calls fail, and each that reads at a path without a file.
#[derive(Drop)]
pub struct MemoryFolder {
    inner: SureFolder,
    failing: Seq<u64>,
    calls: u64,
    faults: u64,
}

impl MemoryFolder {
    /// The calls of the failing numbers fail, those of both methods counted together from 1. The others
    /// answer as those of a `SureFolder` do, where there is such a file.
    pub fn new(files: Seq<KeptFile>, failing: Seq<u64>) -> MemoryFolder
        requires { HasNoRepeatedPath files }
        ensures files { ⟦<MemoryFolder as Folder>⟧.files result ≡ Some files }
        ensures faults { ⟦<MemoryFolder as Folder>⟧.folder_faults result ≡ 0 }
    {
        MemoryFolder {
            inner: SureFolder::new(files),
            failing,
            calls: 0,
            faults: 0,
        }
    }
}

impl Folder for MemoryFolder {
    ghost files = { λ f. ⟦<SureFolder as Folder>⟧.files f.inner };

    ghost folder_faults = { λ f. f.faults };

    fn list(&mut self, base: &str) -> Result<Seq<Bytes>, Fail> {
        self.calls = self.calls.saturating_add(1);
        if self.failing.as_slice().contains(&self.calls) {
            self.faults = self.faults.saturating_add(1);
            return Err(Fail::Failed);
        }
        self.inner.list(base)
    }

    fn read_file(&mut self, base: &str, path: &[u8], most: usize) -> Result<Bytes, Fail> {
        self.calls = self.calls.saturating_add(1);
        if self.failing.as_slice().contains(&self.calls) || !self.inner.has_file(base, path) {
            self.faults = self.faults.saturating_add(1);
            return Err(Fail::Failed);
        }
        self.inner.read_file(base, path, most)
    }
}
