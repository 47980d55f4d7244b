// The least fault of the files as a whole and of their types.
ghost use Rattle.std.specs.Prelude.{◌≡◌, IfOk, nat_lt, length};
ghost use Rattle.std.specs.List.{sum_by};
ghost use Rattle.ocsf_lists.specs.ByName.{IsByName};
ghost use Rattle.ocsf_tree.specs.LeastFault.{least_fault};
ghost use Rattle.ocsf_bundle.specs.Stored.{stored_path};
ghost use Rattle.ocsf_bundle.specs.Parts.{AreActiveSound, AreGroupsByName};
ghost use Rattle.ocsf_bundle.specs.OwnFaults.{lesser_of, limit_fault, limit_faults, file_fault_in, own_fault_in};

use crate::active::active_files;
use crate::faults::{fault, lesser_of};
use crate::index::Index;
use crate::key_faults::{extension_unknown, key_clash};
use crate::numbers::uid_taken;
use crate::patch_fault::patch_target;
use crate::stored::{ActiveFile, StoredFile};
use crate::type_fault::listed_type_fault;
use ocsf_tree::{Code, Fault, Shared, Text};
use std::alloc::{AllocError, Global};

const MAX_FILES: usize = 4096;

const MAX_BYTES: usize = 16777216;

const MAX_EXTENSIONS: usize = 64;

const MAX_ITEMS: usize = 4096;

/// Whether all texts together have more bytes than that.
fn is_longer(files: &[Shared<StoredFile>], limit: usize) -> bool
    ensures { result ≡ nat_lt limit (sum_by (λ file. length file.text) files.now) }
{
    let mut left = limit;
    for file in files {
        let bytes = file.get().text.len();
        if left < bytes {
            return true;
        }
        left -= bytes;
    }
    false
}

fn too_many(
    alloc: Global,
    least: Option<Fault>,
    what: &str,
    is_passed: bool,
) -> Result<Option<Fault>, AllocError>
    ensures { IfOk result (λ made. made
        ≡ lesser_of least (limit_fault what.now is_passed)) }
{
    if is_passed {
        let found = fault(alloc, Code::TooMany, Text::of(alloc, "bundle")?, what)?;
        Ok(lesser_of(least, Some(found)))
    } else {
        Ok(least)
    }
}

/// The least fault of the limits that the files pass.
fn limit_passed(
    alloc: Global,
    files: &[Shared<StoredFile>],
    enabled: &[Text],
    items: usize,
) -> Result<Option<Fault>, AllocError>
    ensures { IfOk result (λ made. made ≡ least_fault (limit_faults files.now enabled.now items)) }
{
    let least = too_many(alloc, None, "files", files.len() > MAX_FILES)?;
    let least = too_many(alloc, least, "bytes", is_longer(files, MAX_BYTES))?;
    let least = too_many(alloc, least, "extensions", enabled.len() > MAX_EXTENSIONS)?;
    let least = too_many(alloc, least, "items", items > MAX_ITEMS)?;
    Ok(least)
}

/// The least fault of the files where the limits are kept. Where there is one of a rank, those of later ranks
/// aren't looked for.
fn file_fault(
    alloc: Global,
    enabled: &[Text],
    active: &[ActiveFile],
    index: &Index,
) -> Result<Option<Fault>, AllocError>
    requires { AreGroupsByName index.now }
    ensures { IfOk result (λ made. made ≡ file_fault_in enabled.now active.now index.now) }
{
    if let Some(fault) = extension_unknown(alloc, enabled, index.extensions.as_slice())? {
        return Ok(Some(fault));
    }
    if let Some(fault) = key_clash(alloc, index)? {
        return Ok(Some(fault));
    }
    if let Some(fault) = uid_taken(alloc, active)? {
        return Ok(Some(fault));
    }
    let least = patch_target(alloc, index, active)?;
    Ok(least)
}

/// The least fault of the files as a whole, by the index of those that count.
pub fn own_fault(
    alloc: Global,
    files: &[Shared<StoredFile>],
    enabled: &[Text],
    index: &Index,
) -> Result<Option<Fault>, AllocError>
    requires by_path { IsByName stored_path files.now }
    requires by_name { IsByName (λ name. name) enabled.now }
    requires groups { AreGroupsByName index.now }
    requires ordered { AreActiveSound index.now.dictionaries }
    ensures { IfOk result (λ made. made ≡ own_fault_in files.now enabled.now index.now) }
{
    if let Some(fault) = limit_passed(alloc, files, enabled, index.keys.len())? {
        return Ok(Some(fault));
    }
    let active = active_files(alloc, files, enabled)?;
    if let Some(fault) = file_fault(alloc, enabled, active.as_slice(), index)? {
        return Ok(Some(fault));
    }
    let least = listed_type_fault(alloc, index.dictionaries.as_slice(), active.as_slice())?;
    Ok(least)
}
