// Bundles of an edit on no files, and how a fault is written.
ghost use Rattle.std.specs.Prelude.{All};
ghost use Rattle.ocsf_tree.specs.Valid.{IsValid};
ghost use Rattle.ocsf_bundle.specs.Edits.{IsValidChange};

use ocsf_bundle::{Bundle, Edit, edit_of};
use ocsf_raw::RawError;
use ocsf_tree::{Fault, Tree, read};
use std::alloc::{AllocError, Global};

/// Writes the fault's code, subject and name.
pub fn push_fault(out: &mut String, fault: &Fault) -> Result<(), AllocError> {
    out.push_str(fault.code.as_str())?;
    out.push(';')?;
    out.push_str(fault.subject.as_str())?;
    out.push(';')?;
    out.push_str(fault.name.as_str())
}

pub fn push_refused(out: &mut String, error: &RawError) -> Result<(), AllocError> {
    match error {
        RawError::Fault(fault) => push_fault(out, fault),
        RawError::Memory => Err(AllocError),
    }
}

fn bundle_of_edit(alloc: Global, edit: &Edit) -> Result<Bundle, RawError>
    requires { All IsValidChange edit.now.changes }
{
    Bundle::empty(alloc).after(edit)
}

fn bundle_of_tree(alloc: Global, tree: &Tree) -> Result<Bundle, RawError>
    requires { IsValid tree.now }
{
    match edit_of(alloc, tree) {
        Ok(edit) => bundle_of_edit(alloc, &edit),
        Err(error) => Err(error),
    }
}

/// The files that the edit of this text leaves. A text that is no JSON counts as want of memory, which ends the
/// program.
pub fn bundle_of(alloc: Global, text: &str) -> Result<Bundle, RawError> {
    match read(alloc, text.as_bytes()) {
        Ok(tree) => bundle_of_tree(alloc, &tree),
        Err(_) => Err(RawError::Memory),
    }
}
