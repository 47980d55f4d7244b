// The end of a source: the rest is answered, and the last state printed.
ghost use Rattle.std.specs.Prelude.{◌≡◌, OnOk, OnErr};
ghost use Rattle.ocsf_lines.specs.Feeding.{StopCause};
ghost use Rattle.ocsf_lines.specs.Closing.{AnswersRest, Closes, CloseCut, ClosesBy};
ghost use Rattle.ocsf_lines.specs.Ends.{WritesCause};

use crate::feeding::answer_line;
use crate::stop::Stop;
use crate::{LineMachine, LinesEnd};
use ocsf_edge::Sink;

// Answers the rest, which is no line where it is empty.
fn answer_rest<M: LineMachine, K: Sink>(
    machine: &mut M,
    held: &[u8],
    flawed: &mut bool,
    sink: &mut K,
) -> Result<(), Stop>
    ensures ok { OnOk result (AnswersRest M.Step M.MOST (K.written sink.old) (K.written sink.new)
        (M.state machine.old) (M.state machine.new) held.now flawed.old flawed.new) }
    ensures err { OnErr result (CloseCut M.Step M.print M.MOST (K.written sink.old) (K.written sink.new)
        (M.state machine.old) held.now flawed.old) }
    ensures cause { StopCause (K.write_faults sink.old) (K.write_faults sink.new) result }
{
    if held.is_empty() {
        return Ok(());
    }
    answer_line(machine, held, flawed, sink)?;
    Ok(())
}

// Answers the rest and prints the last state.
fn close<M: LineMachine, K: Sink>(
    machine: &mut M,
    held: &[u8],
    flawed: &mut bool,
    sink: &mut K,
) -> Result<(), Stop>
    ensures ok { OnOk result (Closes M.Step M.print M.MOST (K.written sink.old) (K.written sink.new)
        (M.state machine.old) held.now flawed.old flawed.new) }
    ensures err { OnErr result (CloseCut M.Step M.print M.MOST (K.written sink.old) (K.written sink.new)
        (M.state machine.old) held.now flawed.old) }
    ensures cause { StopCause (K.write_faults sink.old) (K.write_faults sink.new) result }
{
    answer_rest(machine, held, flawed, sink)?;
    machine.write_print(sink)?;
    Ok(())
}

/// Ends a run whose source has ended.
pub fn finish<M: LineMachine, K: Sink>(
    machine: &mut M,
    held: &[u8],
    mut flawed: bool,
    sink: &mut K,
) -> LinesEnd
    ensures closes { ClosesBy M.Step M.print M.MOST (K.written sink.old) (K.written sink.new)
        (M.state machine.old) held.now flawed result }
    ensures cause { WritesCause (K.write_faults sink.old) (K.write_faults sink.new) result }
{
    if let Err(stop) = close(machine, held, &mut flawed, sink) {
        return LinesEnd::from(stop);
    }
    LinesEnd::Ended { flawed }
}
