// Where bytes come from.
ghost use Rattle.std.specs.Prelude.{◌≡◌, ℕ, List, Bool, length};
ghost use Rattle.std.specs.declared.option.Option.{Option};
ghost use Rattle.std.specs.Io.{ReadsAtMost};
ghost use Rattle.std.specs.Io.KnownBytes.{ReadConsumes};
ghost use Rattle.ocsf_edge.specs.Faults.{HasCause};
ghost use Rattle.ocsf_edge.specs.Source.{ended_after};

use crate::Failed;

/// Where bytes come from.
pub trait Source {
    /// The bytes that are left, where the source tells them.
    ghost left: { Self → Option (List ℕ) };

    /// How often a read has failed.
    ghost read_faults: { Self → ℕ };

    /// Whether a read into a buffer with room has answered 0.
    ghost has_ended: { Self → Bool };

    /// The type of the rest of the object.
    ghost SourceRest: { Type 0 };

    /// The rest of the object, such as the other side of a connection, which a read leaves as it is.
    ghost source_rest: { Self → SourceRest };

    /// Moves the first bytes that are left into the buffer, and answers how many. A buffer with
    /// room gets none only where none is left. A failed read takes nothing.
    fn read(&mut self, into: &mut [u8]) -> Result<usize, Failed>
        ensures fits { ReadsAtMost result into.new }
        ensures bytes { ReadConsumes (left self.old) (left self.new) result into.new }
        ensures end { has_ended self.new ≡ ended_after (has_ended self.old) (length into.new) result }
        ensures cause { HasCause (read_faults self.old) (read_faults self.new) result }
        ensures rest { source_rest self.new ≡ source_rest self.old };
}
