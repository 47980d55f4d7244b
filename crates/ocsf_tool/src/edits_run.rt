// The command `edits`.
ghost use Rattle.std.specs.Prelude.{◌≡◌, true};
ghost use Rattle.ocsf_tool.specs.Commands.{Edits as EditsNamed, FailedOnlyAt, may_end};
ghost use Rattle.ocsf_tool.specs.Ends.{lines_status};
ghost use Rattle.ocsf_tool.specs.Outputs.{Ran, Told};

use crate::Status;
use crate::edits::Edits;
use ocsf_edge::{Sink, Source};
use ocsf_lines::{LinesEnd, run_lines};
use std::alloc::Global;

/// How a command over lines ends.
pub fn lines_status(end: LinesEnd) -> Status
    ensures { result ≡ lines_status end }
{
    match end {
        LinesEnd::Ended { flawed: false } => Status::Done,
        LinesEnd::Ended { flawed: true } => Status::Flawed,
        LinesEnd::ReadFault => Status::ReadFault,
        LinesEnd::WriteFault => Status::WriteFault,
        LinesEnd::Memory => Status::Memory,
        LinesEnd::Limit => Status::Limit,
    }
}

/// Answers each line of the source, and prints the schema of the accepted edits when it has ended.
pub fn run_edits<S: Source, K: Sink>(alloc: Global, source: &mut S, sink: &mut K) -> Status
    ensures ends { may_end EditsNamed result ≡ true }
    // Whatever the other objects tell.
    ensures ran { (told : Told)
        → Ran EditsNamed (record told { ended = S.has_ended source.new; left = S.left source.new })
        result (S.left source.old) (S.left source.new) (K.written sink.old) (K.written sink.new) }
    ensures limit_open { result ≡ Status.Limit → S.has_ended source.new ≡ S.has_ended source.old }
    ensures reads { FailedOnlyAt Status.ReadFault result (S.read_faults source.old) (S.read_faults source.new) }
    ensures writes { FailedOnlyAt Status.WriteFault result (K.write_faults sink.old) (K.write_faults sink.new) }
{
    let Ok(mut edits) = Edits::new(alloc) else {
        return Status::Memory;
    };
    let end = run_lines(alloc, &mut edits, source, sink);
    lines_status(end)
}
