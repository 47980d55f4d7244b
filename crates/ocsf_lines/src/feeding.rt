// The lines of one piece after another are answered, and the rest of the last one is held.
ghost use Rattle.std.specs.Prelude.{◌≡◌, ◌+◌, ◌-◌, ◌∷◌, ◌++◌, [], length, take, IfNone, IfSome, OnOk, OnErr};
ghost use Rattle.ocsf_lines.specs.Lines.{HasNoLf, lf};
ghost use Rattle.ocsf_lines.specs.Feeding.{Answered, AnswerCut, Feeds, FeedCut, StopCause};

use crate::LineMachine;
use crate::stop::Stop;
use memchr::memchr;
use ocsf_edge::{Sink, write_all};
use std::alloc::AllocError;

const LF: u8 = b'\n';

// The first line that a LF ends, and the bytes after that LF.
fn split_line(bytes: &[u8]) -> Option<(&[u8], &[u8])>
    ensures parts { IfSome result (λ parts. bytes.now ≡ parts.0.now ++ lf ∷ parts.1.now) }
    ensures first { IfSome result (λ parts. HasNoLf parts.0.now) }
    ensures none { IfNone result (HasNoLf bytes.now) }
{
    let end = memchr(LF, bytes)?;
    Some((&bytes[..end], &bytes[end + 1..]))
}

// Holds these bytes too, as long as no more than `most + 1` are held.
fn hold(held: &mut Vec<u8>, bytes: &[u8], most: usize) -> Result<(), AllocError>
    ensures { OnOk result (held.new.items
        ≡ held.old.items ++ take (most + 1 - length held.old.items) bytes.now) }
{
    if held.len() <= most {
        let room = (most - held.len()).saturating_add(1);
        held.extend_from_slice(&bytes[..room.min(bytes.len())])?;
    }
    Ok(())
}

/// Answers one line.
pub fn answer_line<M: LineMachine, K: Sink>(
    machine: &mut M,
    line: &[u8],
    flawed: &mut bool,
    sink: &mut K,
) -> Result<(), Stop>
    ensures ok { OnOk result (Answered M.Step (K.written sink.old) (K.written sink.new)
        (M.state machine.old) (M.state machine.new) line.now flawed.old flawed.new) }
    ensures err { OnErr result (AnswerCut M.Step (K.written sink.old) (K.written sink.new)
        (M.state machine.old) line.now) }
    ensures cause { StopCause (K.write_faults sink.old) (K.write_faults sink.new) result }
{
    let reply = machine.answer(line)?;
    *flawed = *flawed || reply.flawed;
    write_all(sink, reply.text.as_slice())?;
    Ok(())
}

// Answers the line that is held and goes on with these bytes. One that isn't held is answered in place.
fn end_line<M: LineMachine, K: Sink>(
    machine: &mut M,
    held: &mut Vec<u8>,
    flawed: &mut bool,
    line: &[u8],
    sink: &mut K,
) -> Result<(), Stop>
    requires { HasNoLf line.now }
    ensures ok { OnOk result (Feeds M.Step M.MOST (K.written sink.old) (K.written sink.new)
        (M.state machine.old) (M.state machine.new) (line.now ++ lf ∷ [])
        held.old.items held.new.items flawed.old flawed.new) }
    ensures err { OnErr result (FeedCut M.Step M.print M.MOST (K.written sink.old) (K.written sink.new)
        (M.state machine.old) (line.now ++ lf ∷ []) held.old.items flawed.old) }
    ensures cause { StopCause (K.write_faults sink.old) (K.write_faults sink.new) result }
{
    if held.is_empty() {
        answer_line(machine, line, flawed, sink)?;
        return Ok(());
    }
    hold(held, line, M::MOST)?;
    answer_line(machine, held, flawed, sink)?;
    held.clear();
    Ok(())
}

/// Takes a piece in.
pub fn feed<M: LineMachine, K: Sink>(
    machine: &mut M,
    held: &mut Vec<u8>,
    flawed: &mut bool,
    piece: &[u8],
    sink: &mut K,
) -> Result<(), Stop>
    ensures ok { OnOk result (Feeds M.Step M.MOST (K.written sink.old) (K.written sink.new)
        (M.state machine.old) (M.state machine.new) piece.now
        held.old.items held.new.items flawed.old flawed.new) }
    ensures err { OnErr result (FeedCut M.Step M.print M.MOST (K.written sink.old) (K.written sink.new)
        (M.state machine.old) piece.now held.old.items flawed.old) }
    ensures cause { StopCause (K.write_faults sink.old) (K.write_faults sink.new) result }
{
    let mut rest = piece;
    while let Some((line, after)) = split_line(rest) {
        end_line(machine, held, flawed, line, sink)?;
        rest = after;
    }
    hold(held, rest, M::MOST)?;
    Ok(())
}
