// The command `validate`.
ghost use Rattle.std.specs.Prelude.{◌≡◌, ℕ, List, true, Ok, IfSome};
ghost use Rattle.ocsf_tool.specs.Commands.{FailedOnlyAt, Validate, may_end};
ghost use Rattle.ocsf_tool.specs.Folders.{IsCompiled};
ghost use Rattle.ocsf_tool.specs.Outputs.{Ran, Told};

use crate::Status;
use crate::edits_run::lines_status;
use crate::events::Events;
use crate::folder::compile_folder;
use crate::folder_error::FolderError;
use crate::folder_run::{refusal_status, write_refusal};
use ocsf_edge::{Folder, Sink, Source};
use ocsf_lines::run_lines;
use ocsf_schema::Schema;
use std::alloc::Global;

/// Answers each line of the source by the report of its event.
fn run_events<S: Source, K: Sink>(
    alloc: Global,
    schema: Schema,
    source: &mut S,
    sink: &mut K,
) -> Status
    ensures ends { (dir : List ℕ) → may_end (Validate dir) result ≡ true }
    // Whatever folder the schema is compiled of, and whatever the other objects tell.
    ensures ran { (dir : List ℕ) (told : Told) → IfSome told.files (λ lying. IsCompiled dir lying (Ok schema))
        → Ran (Validate dir) (record told { ended = S.has_ended source.new; left = S.left source.new })
        result (S.left source.old) (S.left source.new) (K.written sink.old) (K.written sink.new) }
    ensures no_folder { result ≡ Status.FolderFault → ⊥ }
    ensures limit_open { result ≡ Status.Limit → S.has_ended source.new ≡ S.has_ended source.old }
    ensures reads { FailedOnlyAt Status.ReadFault result (S.read_faults source.old) (S.read_faults source.new) }
    ensures writes { FailedOnlyAt Status.WriteFault result (K.write_faults sink.old) (K.write_faults sink.new) }
{
    let Ok(mut events) = Events::new(alloc, schema) else {
        return Status::Memory;
    };
    let end = run_lines(alloc, &mut events, source, sink);
    lines_status(end)
}

/// Compiles the folder, and answers each line of the source by the report of its event; or writes the line that refuses
/// the folder, and reads nothing.
pub fn run_validate<S: Source, K: Sink, F: Folder>(
    alloc: Global,
    dir: &str,
    source: &mut S,
    sink: &mut K,
    folder: &mut F,
) -> Status
    ensures ends { may_end (Validate dir.now) result ≡ true }
    // Whatever the other objects tell.
    ensures ran { (told : Told) → Ran (Validate dir.now)
        (record told { files = F.files folder.old; ended = S.has_ended source.new; left = S.left source.new })
        result (S.left source.old) (S.left source.new) (K.written sink.old) (K.written sink.new) }
    ensures silent { result ≡ Status.FolderFault → sink.new ≡ sink.old }
    ensures limit_open { result ≡ Status.Limit → S.has_ended source.new ≡ S.has_ended source.old }
    ensures reads { FailedOnlyAt Status.ReadFault result (S.read_faults source.old) (S.read_faults source.new) }
    ensures writes { FailedOnlyAt Status.WriteFault result (K.write_faults sink.old) (K.write_faults sink.new) }
    ensures listings { FailedOnlyAt Status.FolderFault result
        (F.folder_faults folder.old) (F.folder_faults folder.new) }
{
    match compile_folder(alloc, folder, dir) {
        Ok(schema) => run_events(alloc, schema, source, sink),
        Err(FolderError::Fault(fault)) => refusal_status(write_refusal(alloc, &fault, sink)),
        Err(FolderError::FolderFault) => Status::FolderFault,
        Err(FolderError::Memory) => Status::Memory,
    }
}
