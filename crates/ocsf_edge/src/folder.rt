// Where files are read.
ghost use Rattle.std.specs.Prelude.{◌≡◌, ℕ, List, IfOk, IfSome, IsSorted, take};
ghost use Rattle.std.specs.Cmp.Lexicographic.{slice_cmp};
ghost use Rattle.std.specs.Ordering.{nat_cmp};
ghost use Rattle.std.specs.declared.option.Option.{Option};
ghost use Rattle.ocsf_edge.specs.Faults.{HasCauseOrMemory};
ghost use Rattle.ocsf_edge.specs.Folder.{IsListing, body_at};
ghost use Rattle.ocsf_edge.specs.declared.records.KeptFile.{KeptFile};

use crate::{Bytes, Fail, Seq};

/// Where files are read. The path of a file is its base, a slash, and its path below the base.
pub trait Folder {
    /// The files, where the folder tells them.
    ghost files: { Self → Option (List KeptFile) };

    /// How often a call has failed.
    ghost folder_faults: { Self → ℕ };

    /// The paths below the base, in byte order.
    fn list(&mut self, base: &str) -> Result<Seq<Bytes>, Fail>
        ensures paths { IfOk result (λ paths. IfSome (files self.old) (λ told.
            IsListing base.now told paths)) }
        ensures sorted { IfOk result (IsSorted (slice_cmp nat_cmp)) }
        ensures same { files self.new ≡ files self.old }
        ensures cause { HasCauseOrMemory (folder_faults self.old) (folder_faults self.new) result };

    /// The first bytes of the file at the path below the base, at most so many. At a path without
    /// a file a folder may fail; else there are none.
    fn read_file(&mut self, base: &str, path: &[u8], most: usize) -> Result<Bytes, Fail>
        ensures bytes { IfOk result (λ bytes. IfSome (files self.old) (λ told.
            bytes ≡ take most (body_at base.now path.now told))) }
        ensures same { files self.new ≡ files self.old }
        ensures cause { HasCauseOrMemory (folder_faults self.old) (folder_faults self.new) result };
}
