// Types that lead nowhere.
ghost use Rattle.std.specs.Prelude.{◌≡◌, IfOk, [], map, Some, unwrap_or, is_some};
ghost use Rattle.std.specs.List.{filter_map};
ghost use Rattle.std.specs.Option.{option_copied, option_or};
ghost use Rattle.ocsf_tree.specs.LeastFault.{least_from, least_fault};
ghost use Rattle.ocsf_bundle.specs.Stored.{IsActiveSound};
ghost use Rattle.ocsf_bundle.specs.FilesLook.{kind_of, types_said};
ghost use Rattle.ocsf_bundle.specs.Looks.{is_there};
ghost use Rattle.ocsf_bundle.specs.Parts.{AreActiveSound};
ghost use Rattle.ocsf_bundle.specs.BundleFaults.{fault, last_parent, type_subject, type_fault, type_faults};
ghost use Rattle.ocsf_bundle.specs.OwnFaults.{parent_in, kinds_in};

use crate::faults::{fault, labelled, lesser_of};
use crate::stored::ActiveFile;
use ocsf_raw::{RawFile, TypeEntry};
use ocsf_schema::Base;
use ocsf_tree::{Code, Fault, find_by_name};
use std::alloc::{AllocError, Global};

/// The moves from type to type in which a base has to be reached.
const MOST_MOVES: u32 = 32;

fn types_said(file: &ActiveFile) -> &[TypeEntry]
    ensures { result.now ≡ types_said file.now.file.raw }
{
    match &file.file.get().raw {
        RawFile::Dictionary(dictionary) => dictionary.types.as_slice(),
        _ => &[],
    }
}

fn kind_of<'a>(name: &str, file: &'a ActiveFile) -> Option<&'a TypeEntry>
    requires { IsActiveSound file.now }
    ensures { option_copied result ≡ kind_of name.now file.now }
{
    find_by_name(types_said(file), name)
}

/// The entry that says which type is narrowed: the later one, unless the earlier one alone names a type.
fn later<'a>(earlier: Option<&'a TypeEntry>, entry: &'a TypeEntry) -> &'a TypeEntry
    ensures { result.now.parent ≡ option_or entry.now.parent (parent_in (option_copied earlier.entry)) }
{
    match (earlier, &entry.parent) {
        (Some(earlier), None) => earlier,
        _ => entry,
    }
}

/// The entry that says which type a listed one narrows. Nothing where no dictionary lists the type.
fn narrowing<'a>(dictionaries: &'a [ActiveFile], name: &str) -> Option<&'a TypeEntry>
    requires { AreActiveSound dictionaries.now }
    ensures listed { is_some result ≡ is_there (kinds_in dictionaries.now name.now) }
    ensures parent { parent_in (option_copied result) ≡ last_parent (kinds_in dictionaries.now name.now) }
{
    let mut found = None;
    for file in dictionaries {
        let Some(entry) = kind_of(name, file) else {
            continue;
        };
        found = Some(later(found, entry));
    }
    found
}

fn parent_of(entry: &TypeEntry) -> &str
    ensures { result.now ≡ unwrap_or entry.now.parent [] }
{
    match &entry.parent {
        Some(parent) => parent.as_str(),
        None => "",
    }
}

fn way_fault(alloc: Global, code: Code, name: &str, last: &str) -> Result<Option<Fault>, AllocError>
    ensures { IfOk result (λ made. made ≡ Some (fault code (type_subject name.now) last.now)) }
{
    let subject = labelled(alloc, "type", name)?;
    Ok(Some(fault(alloc, code, subject, last)?))
}

/// What is wrong with the way of a type. Each move is found by binary search in each dictionary.
fn type_fault(
    alloc: Global,
    dictionaries: &[ActiveFile],
    name: &str,
) -> Result<Option<Fault>, AllocError>
    requires { AreActiveSound dictionaries.now }
    ensures { IfOk result (λ made. made ≡ type_fault (kinds_in dictionaries.now) name.now) }
{
    let mut now = name;
    let mut left = MOST_MOVES;
    'way: loop {
        if Base::named(now).is_some() {
            return Ok(None);
        }
        let Some(entry) = narrowing(dictionaries, now) else {
            return Ok(way_fault(alloc, Code::TypeUnknown, name, now)?);
        };
        if left == 0 {
            return Ok(way_fault(alloc, Code::TypeCycle, name, "")?);
        }
        left -= 1;
        now = parent_of(entry);
    }
}

fn note_types(
    alloc: Global,
    dictionaries: &[ActiveFile],
    entries: &[TypeEntry],
    mut least: Option<Fault>,
) -> Result<Option<Fault>, AllocError>
    requires { AreActiveSound dictionaries.now }
    ensures { IfOk result (λ made. made
        ≡ least_from least (filter_map (type_fault (kinds_in dictionaries.now)) (map (λ entry.
        entry.name) entries.now))) }
{
    for entry in entries {
        least = lesser_of(least, type_fault(alloc, dictionaries, entry.name.as_str())?);
    }
    Ok(least)
}

/// The least fault of the types that the files list, by the dictionaries in layers.
pub fn listed_type_fault(
    alloc: Global,
    dictionaries: &[ActiveFile],
    active: &[ActiveFile],
) -> Result<Option<Fault>, AllocError>
    requires { AreActiveSound dictionaries.now }
    ensures { IfOk result (λ made. made ≡ least_fault (type_faults (kinds_in dictionaries.now) active.now)) }
{
    let mut least = None;
    for file in active {
        least = note_types(alloc, dictionaries, types_said(file), least)?;
    }
    Ok(least)
}
