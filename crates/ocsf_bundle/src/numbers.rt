// Numbers of extensions and categories that are given twice.
ghost use Rattle.std.specs.Prelude.{◌≡◌, ℕ, List, ◌++◌, ◌||◌, ◌+◌, ◌*◌, map, Some, None, IfOk, OnOk};
ghost use Rattle.std.specs.Prelude.{if◌then◌else◌};
ghost use Rattle.std.specs.Ordering.{nat_cmp};
ghost use Rattle.std.specs.List.{list_any};
ghost use Rattle.std.specs.BTreeMap.{get};
ghost use Rattle.ocsf_tree.specs.LeastFault.{least_from, least_fault};
ghost use Rattle.ocsf_bundle.specs.Active.{extension_uid};
ghost use Rattle.ocsf_bundle.specs.FilesLook.{categories_said};
ghost use Rattle.ocsf_tree.specs.FaultGroups.{fault_of};
ghost use Rattle.ocsf_bundle.specs.BundleFaults.{is_before, taken, extension_numbers};
ghost use Rattle.ocsf_bundle.specs.BundleFaults.{category_number, listed_categories, is_other, with_other};
ghost use Rattle.ocsf_bundle.specs.OwnFaults.{has_lesser, fault_where, number_faults, uid_faults};

use crate::active::extension_said;
use crate::faults::{fault, labelled, lesser_of};
use crate::keys::key_of;
use crate::stored::ActiveFile;
use ocsf_raw::{CategoryEntry, RawFile};
use ocsf_tree::{Code, Fault, Row, Text};
use std::alloc::{AllocError, Global};
use std::collections::BTreeMap;

/// Something of a name that has a number.
#[derive(Debug, Drop)]
pub struct Numbered {
    pub name: Text,
    pub number: u64,
}

/// Keeps the name, where it is the least so far of its number.
fn keep_least(least: &mut BTreeMap<u64, Text>, item: &Numbered) -> Result<(), AllocError>
    ensures { OnOk result ((number : ℕ) (name : List ℕ) → has_lesser (get nat_cmp least.new number) name
        ≡ (has_lesser (get nat_cmp least.old number) name || is_before number name item.now)) }
{
    if is_taken(least, item.number, &item.name) {
        return Ok(());
    }
    least.insert(item.number, item.name.copy()?)?;
    Ok(())
}

/// Whether the number has a lesser name.
fn is_taken(least: &BTreeMap<u64, Text>, number: u64, name: &Text) -> bool
    ensures { result ≡ has_lesser (get nat_cmp least.now number) name.now }
{
    match least.get(&number) {
        Some(other) => *other < *name,
        None => false,
    }
}

/// Of each number the least name that has it.
fn least_names(alloc: Global, items: &[Numbered]) -> Result<BTreeMap<u64, Text>, AllocError>
    ensures { IfOk result (λ least. (number : ℕ) (name : List ℕ) → has_lesser (get nat_cmp least number) name
        ≡ list_any (is_before number name) items.now) }
{
    let mut least = BTreeMap::new(alloc);
    for item in items {
        keep_least(&mut least, item)?;
    }
    Ok(least)
}

fn taken(alloc: Global, label: &str, item: &Numbered) -> Result<Fault, AllocError>
    ensures { IfOk result (λ made. made ≡ fault_of Code.UidTaken (taken label.now item.now)) }
{
    let subject = labelled(alloc, label, item.name.as_str())?;
    let number = format!(in alloc; "{}", item.number)?;
    fault(alloc, Code::UidTaken, subject, number.as_str())
}

fn number_taken(
    alloc: Global,
    label: &str,
    names: &BTreeMap<u64, Text>,
    item: &Numbered,
) -> Result<Option<Fault>, AllocError>
    ensures { IfOk result (λ made. made ≡ fault_where Code.UidTaken
        (if has_lesser (get nat_cmp names.now item.now.number) item.now.name
        then Some (taken label.now item.now) else None)) }
{
    if is_taken(names, item.number, &item.name) {
        Ok(Some(taken(alloc, label, item)?))
    } else {
        Ok(None)
    }
}

/// The least of the faults so far and those of the numbers. It costs as many steps as an ordering of them.
fn note_taken(
    alloc: Global,
    label: &str,
    items: &[Numbered],
    mut least: Option<Fault>,
) -> Result<Option<Fault>, AllocError>
    ensures { IfOk result (λ made. made ≡ least_from least (number_faults label.now items.now)) }
{
    let names = least_names(alloc, items)?;
    for item in items {
        least = lesser_of(least, number_taken(alloc, label, &names, item)?);
    }
    Ok(least)
}

fn extension_numbers(alloc: Global, active: &[ActiveFile]) -> Result<Row<Numbered>, AllocError>
    ensures { IfOk result (λ made. made ≡ extension_numbers active.now) }
{
    let mut made = Row::new(alloc);
    for file in active {
        let Some(ext) = extension_said(&file.file.get().raw) else {
            continue;
        };
        made.push(Numbered {
            name: ext.name.copy()?,
            number: u64::from(ext.uid),
        })?;
    }
    Ok(made)
}

fn category_uid(file: &ActiveFile, entry: &CategoryEntry) -> u64
    ensures { result ≡ extension_uid file.now * 100 + entry.now.uid }
{
    let uid = entry.uid;
    u64::from(file.extension_uid()) * 100 + u64::from(uid)
}

fn category_number(
    alloc: Global,
    file: &ActiveFile,
    entry: &CategoryEntry,
) -> Result<Numbered, AllocError>
    ensures { IfOk result (λ made. made ≡ category_number file.now entry.now) }
{
    Ok(Numbered {
        name: key_of(alloc, file, entry.name.as_str())?,
        number: category_uid(file, entry),
    })
}

fn categories_said(file: &ActiveFile) -> &[CategoryEntry]
    ensures { result.now ≡ categories_said file.now.file.raw }
{
    match &file.file.get().raw {
        RawFile::Categories(entries) => entries.as_slice(),
        _ => &[],
    }
}

fn push_categories(
    alloc: Global,
    file: &ActiveFile,
    entries: &[CategoryEntry],
    made: &mut Row<Numbered>,
) -> Result<(), AllocError>
    ensures { OnOk result (made.new ≡ made.old ++ map (category_number file.now) entries.now) }
{
    for entry in entries {
        made.push(category_number(alloc, file, entry)?)?;
    }
    Ok(())
}

fn listed_categories(alloc: Global, active: &[ActiveFile]) -> Result<Row<Numbered>, AllocError>
    ensures { IfOk result (λ made. made ≡ listed_categories active.now) }
{
    let mut made = Row::new(alloc);
    for file in active {
        push_categories(alloc, file, categories_said(file), &mut made)?;
    }
    Ok(made)
}

fn has_other(categories: &[Numbered]) -> bool
    ensures { result ≡ list_any is_other categories.now }
{
    categories
        .iter()
        .any(|category| category.name.as_str() == "other")
}

fn with_other(alloc: Global, categories: Row<Numbered>) -> Result<Row<Numbered>, AllocError>
    ensures { IfOk result (λ made. made ≡ with_other categories) }
{
    let mut made = categories;
    if has_other(made.as_slice()) {
        return Ok(made);
    }
    made.push(Numbered {
        name: Text::of(alloc, "other")?,
        number: 0,
    })?;
    Ok(made)
}

fn category_numbers(alloc: Global, active: &[ActiveFile]) -> Result<Row<Numbered>, AllocError>
    ensures { IfOk result (λ made. made ≡ with_other (listed_categories active.now)) }
{
    with_other(alloc, listed_categories(alloc, active)?)
}

/// The least fault of the numbers of extensions and categories.
pub fn uid_taken(alloc: Global, active: &[ActiveFile]) -> Result<Option<Fault>, AllocError>
    ensures { IfOk result (λ made. made ≡ least_fault (uid_faults active.now)) }
{
    let extensions = extension_numbers(alloc, active)?;
    let categories = category_numbers(alloc, active)?;
    let least = note_taken(alloc, "extension", extensions.as_slice(), None)?;
    let least = note_taken(alloc, "category", categories.as_slice(), least)?;
    Ok(least)
}
