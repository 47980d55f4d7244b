// Keys that are given twice.
ghost use Rattle.std.specs.Prelude.{◌≡◌, IfOk};
ghost use Rattle.std.specs.List.{filter_map};
ghost use Rattle.ocsf_lists.specs.ByName.{IsByName};
ghost use Rattle.ocsf_tree.specs.LeastFault.{least_from, least_fault};
ghost use Rattle.ocsf_bundle.specs.Groups.{group_name};
ghost use Rattle.ocsf_bundle.specs.OwnFaults.{unknown_in, clash_in, clashes_in, key_clashes_in};

use crate::faults::{fault, labelled, lesser_of};
use crate::groups::{Group, group_at};
use crate::index::Index;
use ocsf_tree::{Code, Fault, Text};
use std::alloc::{AllocError, Global};

fn unknown_in(alloc: Global, extensions: &[Group], name: &Text) -> Result<Option<Fault>, AllocError>
    requires { IsByName group_name extensions.now }
    ensures { IfOk result (λ made. made ≡ unknown_in extensions.now name.now) }
{
    if group_at(extensions, name.as_str()).is_empty() {
        Ok(Some(fault(alloc, Code::ExtensionUnknown, name.copy()?, "")?))
    } else {
        Ok(None)
    }
}

/// The least fault of the enabled names of which no file is that of an extension.
pub fn extension_unknown(
    alloc: Global,
    enabled: &[Text],
    extensions: &[Group],
) -> Result<Option<Fault>, AllocError>
    requires { IsByName group_name extensions.now }
    ensures { IfOk result (λ made. made ≡ least_fault (filter_map (unknown_in extensions.now) enabled.now)) }
{
    let mut least = None;
    for name in enabled {
        least = lesser_of(least, unknown_in(alloc, extensions, name)?);
    }
    Ok(least)
}

fn clash_in(alloc: Global, label: &str, group: &Group) -> Result<Option<Fault>, AllocError>
    ensures { IfOk result (λ made. made ≡ clash_in label.now group.now) }
{
    match group.files.as_slice() {
        [_, second, ..] => {
            let subject = labelled(alloc, label, group.name.as_str())?;
            let path = second.file.get().path.as_str();
            Ok(Some(fault(alloc, Code::KeyClash, subject, path)?))
        }
        _ => Ok(None),
    }
}

fn note_clashes(
    alloc: Global,
    label: &str,
    groups: &[Group],
    mut least: Option<Fault>,
) -> Result<Option<Fault>, AllocError>
    ensures { IfOk result (λ made. made ≡ least_from least (clashes_in label.now groups.now)) }
{
    for group in groups {
        least = lesser_of(least, clash_in(alloc, label, group)?);
    }
    Ok(least)
}

/// The least fault of the keys that two files give.
pub fn key_clash(alloc: Global, index: &Index) -> Result<Option<Fault>, AllocError>
    ensures { IfOk result (λ made. made ≡ least_fault (key_clashes_in index.now)) }
{
    let least = note_clashes(alloc, "class", index.items.classes.as_slice(), None)?;
    let least = note_clashes(alloc, "object", index.items.objects.as_slice(), least)?;
    let least = note_clashes(alloc, "profile", index.profiles.as_slice(), least)?;
    let least = note_clashes(alloc, "extension", index.extensions.as_slice(), least)?;
    Ok(least)
}
