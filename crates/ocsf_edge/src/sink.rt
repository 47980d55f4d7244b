// Where bytes go.
ghost use Rattle.std.specs.Prelude.{◌≡◌, ◌<◌, ℕ, List, length, IfOk};
ghost use Rattle.std.specs.declared.option.Option.{Option};
ghost use Rattle.std.specs.Io.{WritesAtMost};
ghost use Rattle.std.specs.Io.KnownBytes.{WriteAppends};
ghost use Rattle.ocsf_edge.specs.Faults.{HasCause};

use crate::Failed;

/// Where bytes go.
pub trait Sink {
    /// The bytes that were written, where the sink tells them.
    ghost written: { Self → Option (List ℕ) };

    /// How often a write has failed.
    ghost write_faults: { Self → ℕ };

    /// The type of the rest of the object.
    ghost SinkRest: { Type 0 };

    /// The rest of the object, such as the other side of a connection, which a write leaves as it is.
    ghost sink_rest: { Self → SinkRest };

    /// Appends the first bytes of the piece, and answers how many: at least one where there is one.
    /// A failed write appends nothing.
    fn write(&mut self, piece: &[u8]) -> Result<usize, Failed>
        ensures fits { WritesAtMost result piece.now }
        ensures progress { IfOk result (λ count. 0 < length piece.now → 0 < count) }
        ensures bytes { WriteAppends (written self.old) (written self.new) result piece.now }
        ensures cause { HasCause (write_faults self.old) (write_faults self.new) result }
        ensures rest { sink_rest self.new ≡ sink_rest self.old };
}
