// A sink that takes little at a time.
ghost use Rattle.std.specs.Prelude.{None};

use ocsf_edge::{Failed, Sink};
use std::alloc::Global;

/// A sink that keeps what is written, and takes at most so many bytes at each call, where 0 counts as 1.
#[derive(Drop)]
pub struct SmallSink {
    bytes: Vec<u8>,
    most: usize,
    faults: u64,
}

impl SmallSink {
    pub fn new(alloc: Global, most: usize) -> SmallSink {
        SmallSink {
            bytes: Vec::new(alloc),
            most,
            faults: 0,
        }
    }

    pub fn written(&self) -> &[u8] {
        self.bytes.as_slice()
    }
}

impl Sink for SmallSink {
    ghost written = { λ s. None };

    ghost write_faults = { λ s. s.faults };

    ghost SinkRest = { Unit {0} };

    ghost sink_rest = { λ s. tt };

    fn write(&mut self, piece: &[u8]) -> Result<usize, Failed> {
        let count = piece.len().min(self.most.max(1));
        if self.bytes.extend_from_slice(&piece[..count]).is_err() {
            self.faults = self.faults.saturating_add(1);
            return Err(Failed);
        }
        Ok(count)
    }
}
