// What edits say, and the files that they leave.
ghost use Rattle.std.specs.Prelude.{All};
ghost use Rattle.ocsf_tree.specs.Valid.{IsValid};
ghost use Rattle.ocsf_bundle.specs.Edits.{IsValidChange};

use crate::shapes::push_refused;
use ocsf_bundle::{Bundle, Change, Edit, StoredFile, edit_of};
use ocsf_raw::RawError;
use ocsf_table::push_bytes;
use ocsf_tree::{Tree, read};
use std::alloc::{AllocError, Global};

pub fn push_word(out: &mut String, word: &str) -> Result<(), AllocError> {
    out.push_str(word)?;
    out.push(';')
}

// ---- what an edit says

fn kind_of(change: &Change) -> &'static str {
    match change {
        Change::Put { .. } => "put ",
        Change::Remove { .. } => "remove ",
        Change::Enable { .. } => "enable ",
        Change::Disable { .. } => "disable ",
    }
}

fn name_of(change: &Change) -> &str {
    match change {
        Change::Put { path, .. } | Change::Remove { path } => path.as_str(),
        Change::Enable { name } | Change::Disable { name } => name.as_str(),
    }
}

fn push_changes(out: &mut String, changes: &[Change]) -> Result<(), AllocError> {
    out.push_str("ok;")?;
    for change in changes {
        out.push_str(kind_of(change))?;
        push_word(out, name_of(change))?;
    }
    Ok(())
}

fn push_said(out: &mut String, said: &Result<Edit, RawError>) -> Result<(), AllocError> {
    match said {
        Ok(edit) => push_changes(out, edit.changes.as_slice()),
        Err(error) => push_refused(out, error),
    }
}

/// Writes the changes of an edit, or what is wrong with it.
pub fn push_edit(alloc: Global, out: &mut String, text: &str) -> Result<(), AllocError> {
    match read(alloc, text.as_bytes()) {
        Ok(tree) => push_said(out, &edit_of(alloc, &tree)),
        Err(_) => out.push_str("? no tree"),
    }
}

// ---- what comes of it

fn keep(bundle: &mut Bundle, outcome: Result<Bundle, RawError>) -> Result<(), RawError> {
    match outcome {
        Ok(made) => {
            *bundle = made;
            Ok(())
        }
        Err(error) => Err(error),
    }
}

fn apply_edit(bundle: &mut Bundle, edit: &Edit) -> Result<(), RawError>
    requires { All IsValidChange edit.now.changes }
{
    let outcome = bundle.after(edit);
    keep(bundle, outcome)
}

fn apply_tree(alloc: Global, bundle: &mut Bundle, tree: &Tree) -> Result<(), RawError>
    requires { IsValid tree.now }
{
    match edit_of(alloc, tree) {
        Ok(edit) => apply_edit(bundle, &edit),
        Err(error) => Err(error),
    }
}

/// Applies the edit of this text to the files. A text that is no JSON counts as want of memory, which ends the program.
pub fn apply(alloc: Global, bundle: &mut Bundle, text: &str) -> Result<(), RawError> {
    match read(alloc, text.as_bytes()) {
        Ok(tree) => apply_tree(alloc, bundle, &tree),
        Err(_) => Err(RawError::Memory),
    }
}

fn push_file(out: &mut String, file: &StoredFile) -> Result<(), AllocError> {
    push_word(out, file.path.as_str())?;
    push_bytes(out, file.text.as_slice())?;
    out.push(';')
}

// The paths, texts and enabled names of a bundle.
fn push_bundle(out: &mut String, bundle: &Bundle) -> Result<(), AllocError> {
    out.push_str("files;")?;
    for file in bundle.files() {
        push_file(out, file.get())?;
    }
    for name in bundle.enabled() {
        push_word(out, name.as_str())?;
    }
    Ok(())
}

fn push_step(
    alloc: Global,
    out: &mut String,
    bundle: &mut Bundle,
    text: &str,
) -> Result<(), AllocError> {
    match apply(alloc, bundle, text) {
        Ok(()) => push_bundle(out, bundle),
        Err(error) => push_refused(out, &error),
    }
}

fn push_steps(
    alloc: Global,
    out: &mut String,
    bundle: &mut Bundle,
    rest: &str,
) -> Result<(), AllocError> {
    for text in rest.split(" | ") {
        push_step(alloc, out, bundle, text)?;
        out.push('\n')?;
    }
    Ok(())
}

/// Writes the files after each of the edits, or the fault of an edit, which leaves them as they were.
pub fn push_files(alloc: Global, out: &mut String, rest: &str) -> Result<(), AllocError> {
    let mut bundle = Bundle::empty(alloc);
    push_steps(alloc, out, &mut bundle, rest)
}
