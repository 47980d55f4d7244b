// Patches of nothing.
ghost use Rattle.std.specs.Prelude.{◌≡◌, IfOk};
ghost use Rattle.std.specs.List.{filter_map};
ghost use Rattle.ocsf_tree.specs.LeastFault.{least_fault};
ghost use Rattle.ocsf_bundle.specs.Parts.{AreGroupsByName};
ghost use Rattle.ocsf_bundle.specs.BundleFaults.{patch_at};
ghost use Rattle.ocsf_bundle.specs.OwnFaults.{given_in, fault_where, patch_fault};

use crate::faults::{fault, lesser_of};
use crate::groups::group_at;
use crate::index::Index;
use crate::keys::patched;
use crate::look::{groups_by_side, item_of};
use crate::stored::ActiveFile;
use ocsf_tree::{Code, Fault, Side, Text};
use std::alloc::{AllocError, Global};

fn is_given(index: &Index, side: Side, name: &Text) -> bool
    requires { AreGroupsByName index.now }
    ensures { result ≡ given_in index.now.items side name.now }
{
    !group_at(groups_by_side(&index.items, side), name.as_str()).is_empty()
}

fn patch_at(
    alloc: Global,
    index: &Index,
    active: &ActiveFile,
    side: Side,
    key: &Text,
) -> Result<Option<Fault>, AllocError>
    requires { AreGroupsByName index.now }
    ensures { IfOk result (λ made. made
        ≡ fault_where Code.PatchTarget (patch_at (given_in index.now.items) active.now side key.now)) }
{
    if is_given(index, side, key) {
        return Ok(None);
    }
    let path = active.file.get().path.copy()?;
    Ok(Some(fault(alloc, Code::PatchTarget, path, key.as_str())?))
}

fn patch_fault(
    alloc: Global,
    index: &Index,
    active: &ActiveFile,
) -> Result<Option<Fault>, AllocError>
    requires { AreGroupsByName index.now }
    ensures { IfOk result (λ made. made ≡ patch_fault (given_in index.now.items) active.now) }
{
    match item_of(active) {
        Some(file) => match patched(active, file) {
            Some(key) => patch_at(alloc, index, active, file.side, key),
            None => Ok(None),
        },
        None => Ok(None),
    }
}

/// The least fault of the patches of what isn't there.
pub fn patch_target(
    alloc: Global,
    index: &Index,
    active: &[ActiveFile],
) -> Result<Option<Fault>, AllocError>
    requires { AreGroupsByName index.now }
    ensures { IfOk result (λ made. made
        ≡ least_fault (filter_map (patch_fault (given_in index.now.items)) active.now)) }
{
    let mut least = None;
    for file in active {
        least = lesser_of(least, patch_fault(alloc, index, file)?);
    }
    Ok(least)
}
