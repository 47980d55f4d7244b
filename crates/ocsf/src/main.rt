//! Runs the command that the words name, over the standard streams and the file system.
#![tactic(auto)]

use ocsf_edge::{DirFolder, Kept, Seq, StdSink, StdSource, SureKeeper};
use ocsf_tool::{Status, run};
use ocsf_tree::{Row, Text};
use std::alloc::{AllocError, Global};
use std::process::ExitCode;
use std::{env, io};

const USAGE: &str =
    "usage: ocsf edits | session [STORE] | compile DIR | validate DIR | translate DIR | workload N";

/// The words behind the program's name; none where they are no text.
fn words(rt: &HostRuntime, alloc: Global) -> Result<Row<Text>, AllocError> {
    let mut words = Row::new(alloc);
    let Ok(args) = env::args(rt) else {
        return Ok(words);
    };
    for arg in args.skip(1) {
        words.push(Text::of(alloc, arg.as_str())?)?;
    }
    Ok(words)
}

/// A store that holds nothing, for the commands that keep nothing.
fn no_store(alloc: Global) -> SureKeeper {
    SureKeeper::new(Kept {
        files: Seq::new(alloc),
        enabled: Seq::new(alloc),
        revision: 0,
    })
}

/// Runs the words over the standard streams and the file system.
fn run_words(rt: &HostRuntime) -> Status {
    let alloc = rt.alloc();
    let Ok(words) = words(rt, alloc) else {
        return Status::Memory;
    };
    let mut source = StdSource::new(rt.reader());
    let mut sink = StdSink::new(io::writer(rt));
    let mut folder = DirFolder::new(rt);
    let mut keeper = no_store(alloc);
    run(
        alloc,
        words.as_slice(),
        &mut source,
        &mut sink,
        &mut folder,
        &mut keeper,
    )
}

/// What standard error is told of a run that ended so: which object failed, unless the answer says all.
fn notice(status: Status) -> Option<&'static str> {
    match status {
        Status::Done | Status::Flawed | Status::InputRefused => None,
        Status::Usage => Some(USAGE),
        Status::ReadFault => Some("ocsf: the input could not be read"),
        Status::WriteFault => Some("ocsf: the output could not be written"),
        Status::Memory => Some("ocsf: out of memory"),
        Status::KeeperFault => Some("ocsf: the store could not be read or written"),
        Status::FolderFault => Some("ocsf: the folder could not be read"),
        Status::Limit => Some("ocsf: the input has 2^40 bytes or more"),
        Status::AcceptFault => Some("ocsf: no connection could be accepted"),
    }
}

fn main(rt: HostRuntime) -> ExitCode {
    let status = run_words(&rt);
    if let Some(notice) = notice(status) {
        let _ = eprintln!(rt; "{notice}");
    }
    ExitCode::from(status.code())
}
