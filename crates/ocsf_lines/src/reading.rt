// A source is read to its end in pieces, and its lines are answered as they come.
ghost use Rattle.std.specs.Prelude.{◌≡◌, ◌<◌, ◌^◌, length, true, false, IfSome};
ghost use Rattle.std.specs.Io.KnownBytes.{IsAtEnd};
ghost use Rattle.ocsf_edge.specs.Faults.{Rose};
ghost use Rattle.ocsf_lines.specs.Ends.{IfEnded, IsEndedOrMemory, IsLimitOrMemory, ReadsCause, WritesCause};
ghost use Rattle.ocsf_lines.specs.Reading.{LinesRan};

use crate::closing::finish;
use crate::feeding::feed;
use crate::{LineMachine, LinesEnd};
use ocsf_edge::{Sink, Source};
use std::alloc::Global;

/// The most bytes that a run takes from its source.
const LIMIT: u64 = 1 << 40;

/// The most bytes that one read asks for.
const PIECE: usize = 1 << 16;

/// Answers each line of the source, and prints the last state at its end.
pub fn run_lines<M: LineMachine, S: Source, K: Sink>(
    alloc: Global,
    machine: &mut M,
    source: &mut S,
    sink: &mut K,
) -> LinesEnd
    // What was written over the bytes taken: at the end of the source the whole output, at a read fault and at the
    // limit just the replies to the lines that a LF ended, at a write fault and at want of memory a front of an output.
    ensures ran { LinesRan M.Step M.print (M.state machine.old)
        (S.left source.old) (S.left source.new) (K.written sink.old) (K.written sink.new) result }

    // At its end the source has told so, and nothing of it is left; at the limit it hasn't.
    ensures has_ended { IfEnded result (λ flawed. S.has_ended source.new ≡ true) }
    ensures nothing_left { IfEnded result (λ flawed. IsAtEnd (S.left source.new)) }
    ensures open { result ≡ LinesEnd.Limit → S.has_ended source.new ≡ S.has_ended source.old }

    // A fault is the object's own, and at no other end has that object failed.
    ensures reads { ReadsCause (S.read_faults source.old) (S.read_faults source.new) result }
    ensures writes { WritesCause (K.write_faults sink.old) (K.write_faults sink.new) result }

    // Where nothing failed, the run stops before the end of the source at the limit alone.
    ensures limit_due { ¬ Rose (S.read_faults source.old) (S.read_faults source.new)
        → ¬ Rose (K.write_faults sink.old) (K.write_faults sink.new)
        → S.has_ended source.new ≡ false → IsLimitOrMemory result }
    ensures complete { ¬ Rose (S.read_faults source.old) (S.read_faults source.new)
        → ¬ Rose (K.write_faults sink.old) (K.write_faults sink.new)
        → IfSome (S.left source.old) (λ bytes. length bytes < 2 ^ 40 → IsEndedOrMemory result) }
{
    let Ok(mut buffer) = vec![in alloc; 0u8; PIECE] else {
        return LinesEnd::Memory;
    };
    read_lines(alloc, machine, source, sink, &mut buffer)
}

// Reads the source through the buffer, and answers its lines.
fn read_lines<M: LineMachine, S: Source, K: Sink>(
    alloc: Global,
    machine: &mut M,
    source: &mut S,
    sink: &mut K,
    buffer: &mut [u8],
) -> LinesEnd
    requires { 0 < length buffer.old }
    ensures ran { LinesRan M.Step M.print (M.state machine.old)
        (S.left source.old) (S.left source.new) (K.written sink.old) (K.written sink.new) result }
    ensures has_ended { IfEnded result (λ flawed. S.has_ended source.new ≡ true) }
    ensures nothing_left { IfEnded result (λ flawed. IsAtEnd (S.left source.new)) }
    ensures open { result ≡ LinesEnd.Limit → S.has_ended source.new ≡ S.has_ended source.old }
    ensures reads { ReadsCause (S.read_faults source.old) (S.read_faults source.new) result }
    ensures writes { WritesCause (K.write_faults sink.old) (K.write_faults sink.new) result }
{
    let mut held = Vec::new(alloc);
    let mut flawed = false;
    let mut taken = 0u64;
    while taken < LIMIT {
        let room = (LIMIT - taken).min(buffer.len() as u64) as usize;
        let Ok(count) = source.read(&mut buffer[..room]) else {
            return LinesEnd::ReadFault;
        };
        if count == 0 {
            return finish(machine, &held, flawed, sink);
        }
        if let Err(stop) = feed(machine, &mut held, &mut flawed, &buffer[..count], sink) {
            return LinesEnd::from(stop);
        }
        taken += count as u64;
    }
    LinesEnd::Limit
}
