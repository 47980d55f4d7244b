// The forms of paths and names, the shapes of files, and what is read of them.
ghost use Rattle.ocsf_tree.specs.Valid.{IsValid};

use ocsf_raw::{RawError, RawFile, has_form, is_name, is_path, is_reference, shape};
use ocsf_table::halves;
use ocsf_tree::{Fault, Tree, read};
use std::alloc::{AllocError, Global};

/// Writes the fault's code, subject and name.
pub fn push_fault(out: &mut String, fault: &Fault) -> Result<(), AllocError> {
    out.push_str(fault.code.as_str())?;
    out.push(';')?;
    out.push_str(fault.subject.as_str())?;
    out.push(';')?;
    out.push_str(fault.name.as_str())
}

pub fn push_refused(out: &mut String, error: &RawError) -> Result<(), AllocError> {
    match error {
        RawError::Fault(fault) => push_fault(out, fault),
        RawError::Memory => Err(AllocError),
    }
}

/// Writes whether a file may stand at the path.
pub fn push_form(out: &mut String, path: &str) -> Result<(), AllocError> {
    out.push_str(if has_form(path) { "a form" } else { "no form" })
}

/// Writes which of a name, a reference and a path the text is.
pub fn push_words(out: &mut String, text: &str) -> Result<(), AllocError> {
    out.push_str(if is_name(text) { "name" } else { "-" })?;
    out.push_str(if is_reference(text) {
        " reference"
    } else {
        " -"
    })?;
    out.push_str(if is_path(text) { " path" } else { " -" })
}

fn push_found(out: &mut String, found: &Result<RawFile, RawError>) -> Result<(), AllocError> {
    match found {
        Ok(_) => out.push_str("ok"),
        Err(error) => push_refused(out, error),
    }
}

fn push_shape_of(alloc: Global, out: &mut String, path: &str, tree: &Tree) -> Result<(), AllocError>
    requires { IsValid tree.now }
{
    push_found(out, &shape(alloc, path, tree))
}

/// Writes the least fault of the shape that the text of a file has at a path.
pub fn push_shape(alloc: Global, out: &mut String, rest: &str) -> Result<(), AllocError> {
    let (path, text) = halves(rest, " | ");
    match read(alloc, text.as_bytes()) {
        Ok(tree) => push_shape_of(alloc, out, path, &tree),
        Err(_) => out.push_str("? no tree"),
    }
}

fn push_told(
    alloc: Global,
    out: &mut String,
    found: &Result<RawFile, RawError>,
) -> Result<(), AllocError> {
    let told = format!(in alloc; "{found:?}")?;
    out.push_str(told.as_str())
}

fn push_fields_of(
    alloc: Global,
    out: &mut String,
    path: &str,
    tree: &Tree,
) -> Result<(), AllocError>
    requires { IsValid tree.now }
{
    push_told(alloc, out, &shape(alloc, path, tree))
}

/// Writes each field of what is read of the text of a file at a path.
pub fn push_fields(alloc: Global, out: &mut String, rest: &str) -> Result<(), AllocError> {
    let (path, text) = halves(rest, " | ");
    match read(alloc, text.as_bytes()) {
        Ok(tree) => push_fields_of(alloc, out, path, &tree),
        Err(_) => out.push_str("? no tree"),
    }
}
