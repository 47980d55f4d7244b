// The one call of the program.
ghost use Rattle.std.specs.Prelude.{◌≡◌, ◌↔◌, true, false, None, IfSome};
ghost use Rattle.ocsf_edge.specs.Faults.{Rose};
ghost use Rattle.ocsf_tool.specs.Commands.{
  FailedOnlyAt,
  calls,
  command_of,
  is_no_fault,
  may_end,
  reads_folder,
  reads_source,
  uses_keeper,
};
ghost use Rattle.ocsf_tool.specs.Outputs.{Ran, is_silent};

use crate::Status;
use crate::edits_run::run_edits;
use crate::events_run::run_validate;
use crate::folder_run::run_compile;
use crate::words::{Command, command_of};
use ocsf_edge::{Folder, Keeper, Sink, Source};
use ocsf_tree::Text;
use std::alloc::Global;

/// Runs the command that the words name. `edits` reads an edit a line, answers each line, and prints the schema of the
/// accepted edits when the source has ended. `compile DIR` prints the schema of the folder's files, or the line that
/// refuses them. `validate DIR` compiles the folder in this way, and then answers each line, an event, by its report.
pub fn run<S: Source, K: Sink, F: Folder, P: Keeper>(
    alloc: Global,
    words: &[Text],
    source: &mut S,
    sink: &mut K,
    folder: &mut F,
    _keeper: &mut P,
) -> Status
    // Other words are refused; a command ends as it may, and calls the objects that it needs alone.
    ensures usage { (result ≡ Status.Usage) ↔ (command_of words.now ≡ None) }
    ensures ends { IfSome (command_of words.now) (λ command. may_end command result ≡ true) }
    ensures source_unused { calls reads_source (command_of words.now) ≡ false → source.new ≡ source.old }
    ensures sink_unused { command_of words.now ≡ None → sink.new ≡ sink.old }
    ensures folder_unused { calls reads_folder (command_of words.now) ≡ false → folder.new ≡ folder.old }
    ensures keeper_unused { calls uses_keeper (command_of words.now) ≡ false → _keeper.new ≡ _keeper.old }

    // A fault is the object's own, and at no other end has that object failed.
    ensures reads { FailedOnlyAt Status.ReadFault result (S.read_faults source.old) (S.read_faults source.new) }
    ensures writes { FailedOnlyAt Status.WriteFault result (K.write_faults sink.old) (K.write_faults sink.new) }
    ensures listings { FailedOnlyAt Status.FolderFault result
        (F.folder_faults folder.old) (F.folder_faults folder.new) }
    ensures stores { FailedOnlyAt Status.KeeperFault result
        (P.keeper_faults _keeper.old) (P.keeper_faults _keeper.new) }

    // What was written stands to the bytes taken, the folder and the keeper as the command and the end say.
    ensures ran { IfSome (command_of words.now) (λ command. Ran command
        (record {
          files = F.files folder.old;
          tables = P.tables _keeper.old;
          tables_after = P.tables _keeper.new;
          ended = S.has_ended source.new;
          left = S.left source.new;
        })
        result (S.left source.old) (S.left source.new) (K.written sink.old) (K.written sink.new)) }
    ensures limit_open { result ≡ Status.Limit → S.has_ended source.new ≡ S.has_ended source.old }
    ensures silent { IfSome (command_of words.now) (λ command. is_silent command result ≡ true → sink.new ≡ sink.old) }

    // It doesn't give up: where none of the objects that it calls failed, no fault is told.
    ensures complete { IfSome (command_of words.now) (λ command.
        (reads_source command ≡ true → ¬ Rose (S.read_faults source.old) (S.read_faults source.new))
        → ¬ Rose (K.write_faults sink.old) (K.write_faults sink.new)
        → (reads_folder command ≡ true → ¬ Rose (F.folder_faults folder.old) (F.folder_faults folder.new))
        → (uses_keeper command ≡ true → ¬ Rose (P.keeper_faults _keeper.old) (P.keeper_faults _keeper.new))
        → is_no_fault result ≡ true) }
{
    match command_of(words) {
        Some(Command::Edits) => run_edits(alloc, source, sink),
        Some(Command::Compile(dir)) => run_compile(alloc, dir, sink, folder),
        Some(Command::Validate(dir)) => run_validate(alloc, dir, source, sink, folder),
        None => Status::Usage,
    }
}
