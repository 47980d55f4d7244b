// The command `compile`.
ghost use Rattle.std.specs.Prelude.{◌≡◌, true, ◌++◌, ◌∷◌, [], OnOk, IsErrOf};
ghost use Rattle.std.specs.Io.KnownBytes.{Appends};
ghost use Rattle.ocsf_edge.specs.declared.fault.Fail.TheVariants as fail;
ghost use Rattle.ocsf_edge.specs.Faults.{HasCauseOrMemory};
ghost use Rattle.ocsf_edge.specs.Sink.{AppendsPrefix};
ghost use Rattle.ocsf_tree.specs.CompactText.{text};
ghost use Rattle.ocsf_tool.specs.Edits.{refused_tree};
ghost use Rattle.ocsf_tool.specs.Commands.{Compile, FailedOnlyAt, may_end};
ghost use Rattle.ocsf_tool.specs.Ends.{refusal_status};
ghost use Rattle.ocsf_tool.specs.Folders.{Written};
ghost use Rattle.ocsf_tool.specs.Outputs.{Told, Wrote, is_silent};

use crate::Status;
use crate::folder::compile_folder;
use crate::folder_error::FolderError;
use crate::replies::refused;
use ocsf_edge::{Fail, Folder, Sink, write_all};
use ocsf_tree::Fault;
use std::alloc::Global;

/// Writes the line that refuses a folder.
pub fn write_refusal<K: Sink>(alloc: Global, fault: &Fault, sink: &mut K) -> Result<(), Fail>
    ensures ok { OnOk result (Appends (K.written sink.old) (K.written sink.new)
        (text (refused_tree fault.now) ++ 10 ∷ [])) }
    ensures failed { IsErrOf result fail.Failed
        → AppendsPrefix (K.written sink.old) (K.written sink.new) (text (refused_tree fault.now) ++ 10 ∷ []) }
    ensures nothing { IsErrOf result fail.Memory → sink.new ≡ sink.old }
    ensures cause { HasCauseOrMemory (K.write_faults sink.old) (K.write_faults sink.new) result }
{
    let line = refused(alloc, fault)?;
    match write_all(sink, line.as_slice()) {
        Ok(()) => Ok(()),
        Err(_) => Err(Fail::Failed),
    }
}

/// How a run ends whose folder was refused.
pub fn refusal_status(written: Result<(), Fail>) -> Status
    ensures { result ≡ refusal_status written }
{
    match written {
        Ok(()) => Status::InputRefused,
        Err(Fail::Failed) => Status::WriteFault,
        Err(Fail::Memory) => Status::Memory,
    }
}

/// Compiles the folder and writes the printed schema, or the line that refuses the folder.
pub fn run_compile<K: Sink, F: Folder>(
    alloc: Global,
    dir: &str,
    sink: &mut K,
    folder: &mut F,
) -> Status
    ensures ends { may_end (Compile dir.now) result ≡ true }
    // Whatever the other objects tell; nothing is taken.
    ensures ran { (told : Told) → Written (K.written sink.old) (K.written sink.new)
        (λ out. Wrote (Compile dir.now) (record told { files = F.files folder.old }) result [] out) }
    ensures silent { is_silent (Compile dir.now) result ≡ true → sink.new ≡ sink.old }
    ensures listings { FailedOnlyAt Status.FolderFault result
        (F.folder_faults folder.old) (F.folder_faults folder.new) }
    ensures writes { FailedOnlyAt Status.WriteFault result (K.write_faults sink.old) (K.write_faults sink.new) }
{
    match compile_folder(alloc, folder, dir) {
        Ok(schema) => match schema.write_to(sink) {
            Ok(()) => Status::Done,
            Err(_) => Status::WriteFault,
        },
        Err(FolderError::Fault(fault)) => refusal_status(write_refusal(alloc, &fault, sink)),
        Err(FolderError::FolderFault) => Status::FolderFault,
        Err(FolderError::Memory) => Status::Memory,
    }
}
