// What there is in a bundle: keys and names, each in byte order and once.
ghost use Rattle.std.specs.Prelude.{◌≡◌, ℕ, List, ◌∷◌, ◌++◌, IfOk, OnOk, map, flat_map, codes};
ghost use Rattle.std.specs.Option.{option_copied};
ghost use Rattle.ocsf_lists.specs.ByName.{put_by_name};
ghost use Rattle.ocsf_bundle.specs.FilesLook.{attributes_said, types_said, categories_said};
ghost use Rattle.ocsf_bundle.specs.Groups.{group_name};
ghost use Rattle.ocsf_bundle.specs.Listing.{attribute_names, type_names, category_keys, in_byte_order, version_said};

use crate::groups::Group;
use crate::keys::key_of;
use crate::stored::ActiveFile;
use ocsf_raw::{CategoryEntry, DictEntry, RawFile, TypeEntry};
use ocsf_tree::{Named, Row, Text};
use std::alloc::{AllocError, Global};
use std::collections::BTreeSet;

fn attributes_said(file: &ActiveFile) -> &[DictEntry]
    ensures { result.now ≡ attributes_said file.now.file.raw }
{
    match &file.file.get().raw {
        RawFile::Dictionary(dictionary) => dictionary.attributes.as_slice(),
        _ => &[],
    }
}

fn types_said(file: &ActiveFile) -> &[TypeEntry]
    ensures { result.now ≡ types_said file.now.file.raw }
{
    match &file.file.get().raw {
        RawFile::Dictionary(dictionary) => dictionary.types.as_slice(),
        _ => &[],
    }
}

fn categories_said(file: &ActiveFile) -> &[CategoryEntry]
    ensures { result.now ≡ categories_said file.now.file.raw }
{
    match &file.file.get().raw {
        RawFile::Categories(entries) => entries.as_slice(),
        _ => &[],
    }
}

pub fn version_said(raw: &RawFile) -> Option<&Text>
    ensures { option_copied result ≡ version_said raw.now }
{
    match raw {
        RawFile::Version(version) => Some(version),
        _ => None,
    }
}

fn put_name(names: &mut BTreeSet<Text>, name: Text) -> Result<(), AllocError>
    ensures { OnOk result (names.new.keys ≡ put_by_name (λ n. n) name names.old.keys) }
{
    names.insert(name)?;
    Ok(())
}

/// Puts the items' names among these.
fn put_names<T: Named>(
    alloc: Global,
    names: &mut BTreeSet<Text>,
    items: &[T],
) -> Result<(), AllocError>
    ensures { OnOk result ((before : List (List ℕ)) → names.old.keys ≡ in_byte_order before
        → names.new.keys ≡ in_byte_order (before ++ map T.name_of items.now)) }
{
    for item in items {
        put_name(names, Text::of(alloc, item.name())?)?;
    }
    Ok(())
}

/// Puts the keys of the file's categories among these.
fn put_category_keys(
    alloc: Global,
    keys: &mut BTreeSet<Text>,
    file: &ActiveFile,
) -> Result<(), AllocError>
    ensures { OnOk result ((before : List (List ℕ)) → keys.old.keys ≡ in_byte_order before
        → keys.new.keys ≡ in_byte_order (before ++ category_keys file.now)) }
{
    for entry in categories_said(file) {
        put_name(keys, key_of(alloc, file, entry.name.as_str())?)?;
    }
    Ok(())
}

fn names_in(alloc: Global, names: BTreeSet<Text>) -> Result<Row<Text>, AllocError>
    ensures { IfOk result (λ made. made ≡ names.keys) }
{
    let mut made = Row::with_capacity(alloc, names.len())?;
    for name in names {
        made.push(name)?;
    }
    Ok(made)
}

/// The attributes of these files, in byte order, each once.
pub fn attribute_names(alloc: Global, files: &[ActiveFile]) -> Result<Row<Text>, AllocError>
    ensures { IfOk result (λ made. made ≡ in_byte_order (flat_map attribute_names files.now)) }
{
    let mut names: BTreeSet<Text> = BTreeSet::new(alloc);
    for file in files {
        put_names(alloc, &mut names, attributes_said(file))?;
    }
    names_in(alloc, names)
}

/// The types of these files, in byte order, each once.
pub fn type_names(alloc: Global, files: &[ActiveFile]) -> Result<Row<Text>, AllocError>
    ensures { IfOk result (λ made. made ≡ in_byte_order (flat_map type_names files.now)) }
{
    let mut names: BTreeSet<Text> = BTreeSet::new(alloc);
    for file in files {
        put_names(alloc, &mut names, types_said(file))?;
    }
    names_in(alloc, names)
}

/// The keys of the categories of these files and of the built-in one, in byte order, each once.
pub fn category_keys(alloc: Global, files: &[ActiveFile]) -> Result<Row<Text>, AllocError>
    ensures { IfOk result (λ made. made ≡ in_byte_order (codes "other" ∷ flat_map category_keys files.now)) }
{
    let mut keys: BTreeSet<Text> = BTreeSet::new(alloc);
    put_name(&mut keys, Text::of(alloc, "other")?)?;
    for file in files {
        put_category_keys(alloc, &mut keys, file)?;
    }
    names_in(alloc, keys)
}

/// The names of the groups.
pub fn group_names(alloc: Global, groups: &[Group]) -> Result<Row<Text>, AllocError>
    ensures { IfOk result (λ made. made ≡ map group_name groups.now) }
{
    let mut made = Row::with_capacity(alloc, groups.len())?;
    for group in groups {
        made.push(group.name.copy()?)?;
    }
    Ok(made)
}
