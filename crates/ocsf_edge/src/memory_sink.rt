// Sinks in memory.
ghost use Rattle.std.specs.Prelude.{◌≡◌, [], Some, None};

use crate::{Failed, Seq, Sink};
use std::alloc::Global;

/// A sink that takes all, keeps nothing and tells nothing. It never fails.
#[derive(Default, Drop)]
pub struct SureSink {}

impl SureSink {
    pub fn new() -> SureSink
        ensures written { ⟦<SureSink as Sink>⟧.written result ≡ None }
        ensures faults { ⟦<SureSink as Sink>⟧.write_faults result ≡ 0 }
    {
        SureSink {}
    }
}

impl Sink for SureSink {
    ghost written = { λ s. None };

    ghost write_faults = { λ s. 0 };

    ghost SinkRest = { Unit {0} };

    ghost sink_rest = { λ s. tt };

    fn write(&mut self, piece: &[u8]) -> Result<usize, Failed> {
        Ok(piece.len())
    }
}

/// A sink that keeps what is written, where some calls fail.
#[derive(Drop)]
pub struct MemorySink {
    bytes: Vec<u8>,
    failing: Seq<u64>,
    calls: u64,
    faults: u64,
}

impl MemorySink {
    /// The calls of the failing numbers fail, counted from 1. A call that finds no memory fails too.
    pub fn new(alloc: Global, failing: Seq<u64>) -> MemorySink
        ensures written { ⟦<MemorySink as Sink>⟧.written result ≡ Some [] }
        ensures faults { ⟦<MemorySink as Sink>⟧.write_faults result ≡ 0 }
    {
        MemorySink {
            bytes: Vec::new(alloc),
            failing,
            calls: 0,
            faults: 0,
        }
    }

    pub fn written(&self) -> &[u8]
        ensures { Some result.now ≡ ⟦<MemorySink as Sink>⟧.written self.now }
    {
        self.bytes.as_slice()
    }
}

impl Sink for MemorySink {
    ghost written = { λ s. Some s.bytes.items };

    ghost write_faults = { λ s. s.faults };

    ghost SinkRest = { Unit {0} };

    ghost sink_rest = { λ s. tt };

    fn write(&mut self, piece: &[u8]) -> Result<usize, Failed> {
        self.calls = self.calls.saturating_add(1);
        if self.failing.as_slice().contains(&self.calls)
            || self.bytes.extend_from_slice(piece).is_err()
        {
            self.faults = self.faults.saturating_add(1);
            return Err(Failed);
        }
        Ok(piece.len())
    }
}
