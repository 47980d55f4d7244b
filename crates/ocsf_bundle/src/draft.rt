// The files and names that changes leave, one change after the other.
ghost use Rattle.std.specs.Prelude.{◌≡◌, ℕ, List, All, IfOk, OnOk, unwrap_or};
ghost use Rattle.std.specs.BTreeMap.{get};
ghost use Rattle.ocsf_lists.specs.ByName.{IsByName, text_cmp};
ghost use Rattle.ocsf_tree.specs.Valid.{IsValid};
ghost use Rattle.ocsf_bundle.specs.Stored.{stored_path, AreFilesSound, AreValuesSound};
ghost use Rattle.ocsf_bundle.specs.Edits.{IsValidChange};
ghost use Rattle.ocsf_bundle.specs.After.{said_of, file_said, name_said, enabled_after, IsChangeOutcome};
ghost use Rattle.ocsf_bundle.specs.After.{IsFilesOutcome};

use crate::edit::Change;
use crate::named_map::{map_of, put_item, take_item, values_in};
use crate::stored::StoredFile;
use ocsf_raw::RawError;
use ocsf_tree::{Code, Fault, Row, Shared, Text, Tree};
use std::alloc::{AllocError, Global};
use std::collections::BTreeMap;

fn put_file(
    alloc: Global,
    files: &mut BTreeMap<Text, Shared<StoredFile>>,
    path: &Text,
    tree: &Tree,
) -> Result<(), RawError>
    requires { IsValid tree.now }
    ensures outcome { IsChangeOutcome (get text_cmp files.old) (Change.Put path.now tree.now) result }
    ensures after { OnOk result ((q : List ℕ) → get text_cmp files.new q
        ≡ unwrap_or (said_of stored_path file_said q (Change.Put path.now tree.now)) (get text_cmp files.old q)) }
    ensures ordered { OnOk result (AreValuesSound files.old → AreValuesSound files.new) }
{
    let file = Shared::new(alloc, StoredFile::of(alloc, path, tree)?)?;
    put_item(files, path.copy()?, file)?;
    Ok(())
}

fn remove_file(
    alloc: Global,
    files: &mut BTreeMap<Text, Shared<StoredFile>>,
    path: &Text,
) -> Result<(), RawError>
    ensures outcome { IsChangeOutcome (get text_cmp files.old) (Change.Remove path.now) result }
    ensures after { OnOk result ((q : List ℕ) → get text_cmp files.new q
        ≡ unwrap_or (said_of stored_path file_said q (Change.Remove path.now)) (get text_cmp files.old q)) }
    ensures ordered { OnOk result (AreValuesSound files.old → AreValuesSound files.new) }
{
    if take_item(files, path) {
        return Ok(());
    }
    Err(RawError::Fault(Fault {
        code: Code::Absent,
        subject: path.copy()?,
        name: Text::of(alloc, "")?,
    }))
}

fn change_file(
    alloc: Global,
    files: &mut BTreeMap<Text, Shared<StoredFile>>,
    change: &Change,
) -> Result<(), RawError>
    requires { IsValidChange change.now }
    ensures outcome { IsChangeOutcome (get text_cmp files.old) change.now result }
    ensures after { OnOk result ((q : List ℕ) → get text_cmp files.new q
        ≡ unwrap_or (said_of stored_path file_said q change.now) (get text_cmp files.old q)) }
    ensures ordered { OnOk result (AreValuesSound files.old → AreValuesSound files.new) }
{
    match change {
        Change::Put { path, tree } => put_file(alloc, files, path, tree),
        Change::Remove { path } => remove_file(alloc, files, path),
        Change::Enable { .. } | Change::Disable { .. } => Ok(()),
    }
}

/// The files after the changes, or the fault of the first change that has one.
pub fn files_after(
    alloc: Global,
    old: &[Shared<StoredFile>],
    changes: &[Change],
) -> Result<Row<Shared<StoredFile>>, RawError>
    requires by_path { IsByName stored_path old.now }
    requires ordered { AreFilesSound old.now }
    requires trees { All IsValidChange changes.now }
    ensures outcome { IsFilesOutcome old.now changes.now result }
    ensures by_path { IfOk result (λ files. IsByName stored_path files) }
    ensures ordered { IfOk result (λ files. AreFilesSound files) }
{
    let mut files = map_of(alloc, old)?;
    for change in changes {
        change_file(alloc, &mut files, change)?;
    }
    let files = values_in(alloc, files)?;
    Ok(files)
}

fn change_enabled(enabled: &mut BTreeMap<Text, Text>, change: &Change) -> Result<(), AllocError>
    ensures { OnOk result ((q : List ℕ) → get text_cmp enabled.new q
        ≡ unwrap_or (said_of (λ name. name) name_said q change.now) (get text_cmp enabled.old q)) }
{
    match change {
        Change::Enable { name } => put_item(enabled, name.copy()?, name.copy()?),
        Change::Disable { name } => {
            take_item(enabled, name);
            Ok(())
        }
        Change::Put { .. } | Change::Remove { .. } => Ok(()),
    }
}

/// The names of the enabled extensions after the changes.
pub fn enabled_after(
    alloc: Global,
    old: &[Text],
    changes: &[Change],
) -> Result<Row<Text>, AllocError>
    requires { IsByName (λ (name : List ℕ). name) old.now }
    ensures after { IfOk result (λ enabled. enabled ≡ enabled_after old.now changes.now) }
    ensures by_name { IfOk result (λ enabled. IsByName (λ (name : List ℕ). name) enabled) }
{
    let mut enabled = map_of(alloc, old)?;
    for change in changes {
        change_enabled(&mut enabled, change)?;
    }
    let enabled = values_in(alloc, enabled)?;
    Ok(enabled)
}
