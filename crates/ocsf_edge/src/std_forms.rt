// Any reader or writer of std, with a count of its errors.
ghost use Rattle.std.specs.Prelude.{◌≡◌, None, false};

use crate::{Failed, Sink, Source};
use std::io::{Read, Write};

/// A reader of std. It tells nothing of its bytes, and counts each error as a fault.
#[derive(Drop)]
pub struct StdSource<T> {
    reader: T,
    faults: u64,
    ended: bool,
}

impl<T: Read> StdSource<T> {
    pub fn new(reader: T) -> StdSource<T>
        ensures left { ⟦<StdSource<T> as Source>⟧.left result ≡ None }
        ensures faults { ⟦<StdSource<T> as Source>⟧.read_faults result ≡ 0 }
        ensures open { ⟦<StdSource<T> as Source>⟧.has_ended result ≡ false }
    {
        StdSource {
            reader,
            faults: 0,
            ended: false,
        }
    }
}

impl<T: Read> Source for StdSource<T> {
    ghost left = { λ s. None };

    ghost read_faults = { λ s. s.faults };

    ghost has_ended = { λ s. s.ended };

    ghost SourceRest = { Unit {0} };

    ghost source_rest = { λ s. tt };

    fn read(&mut self, into: &mut [u8]) -> Result<usize, Failed> {
        match self.reader.read(into) {
            Ok(count) => {
                if count == 0 && !into.is_empty() {
                    self.ended = true;
                }
                Ok(count)
            }
            Err(_) => {
                self.faults = self.faults.saturating_add(1);
                Err(Failed)
            }
        }
    }
}

/// A writer of std. It tells nothing of its bytes, and counts each error as a fault, and each call
/// that takes nothing of a piece with a byte.
#[derive(Drop)]
pub struct StdSink<T> {
    writer: T,
    faults: u64,
}

impl<T: Write> StdSink<T> {
    pub fn new(writer: T) -> StdSink<T>
        ensures written { ⟦<StdSink<T> as Sink>⟧.written result ≡ None }
        ensures faults { ⟦<StdSink<T> as Sink>⟧.write_faults result ≡ 0 }
    {
        StdSink { writer, faults: 0 }
    }
}

impl<T: Write> Sink for StdSink<T> {
    ghost written = { λ s. None };

    ghost write_faults = { λ s. s.faults };

    ghost SinkRest = { Unit {0} };

    ghost sink_rest = { λ s. tt };

    fn write(&mut self, piece: &[u8]) -> Result<usize, Failed> {
        match self.writer.write(piece) {
            Ok(count) if count > 0 || piece.is_empty() => Ok(count),
            _ => {
                self.faults = self.faults.saturating_add(1);
                Err(Failed)
            }
        }
    }
}
