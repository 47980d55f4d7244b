// What is kept of the files that count, by what is asked of them.
ghost use Rattle.std.specs.Prelude.{◌≡◌, ◌++◌, [], IfOk, OnOk};
ghost use Rattle.ocsf_bundle.specs.Active.{in_layers};
ghost use Rattle.ocsf_bundle.specs.Groups.{given_by, groups_of};
ghost use Rattle.ocsf_bundle.specs.Keys.{active_keys};
ghost use Rattle.ocsf_bundle.specs.Index.{is_dictionary, is_categories, dictionaries, category_files, group_keys};
ghost use Rattle.ocsf_bundle.specs.Index.{index_of, side_groups};

use crate::active::in_layers;
use crate::groups::{Group, groups_of};
use crate::keys::GroupBy;
use crate::stored::ActiveFile;
use ocsf_raw::RawFile;
use ocsf_tree::{Key, Row, Side, TryClone};
use std::alloc::{AllocError, Global};

/// The groups of classes and of objects.
#[derive(Debug)]
pub struct Sides {
    pub classes: Row<Group>,
    pub objects: Row<Group>,
}

impl Drop for Sides {
    fn drop(self) {
        let Sides {
            classes: _,
            objects: _,
        } = self;
    }
}

/// The files that count, by what is asked of them.
#[derive(Debug)]
pub struct Index {
    /// The item files by key.
    pub items: Sides,
    /// The patches by the item that they patch, in layers.
    pub patches: Sides,
    /// The profile files by key.
    pub profiles: Row<Group>,
    /// The include and profile files by their path below the folder of their extension.
    pub includes: Row<Group>,
    /// The extension files by name.
    pub extensions: Row<Group>,
    /// The dictionaries, in layers.
    pub dictionaries: Row<ActiveFile>,
    /// The files with categories, in layers.
    pub categories: Row<ActiveFile>,
    /// The full keys of the items, in order.
    pub keys: Row<Key>,
}

impl Drop for Index {
    fn drop(self) {
        let Index {
            items: _,
            patches: _,
            profiles: _,
            includes: _,
            extensions: _,
            dictionaries: _,
            categories: _,
            keys: _,
        } = self;
    }
}

fn is_dictionary(file: &ActiveFile) -> bool
    ensures { result ≡ is_dictionary file.now }
{
    matches!(&file.file.get().raw, RawFile::Dictionary(_))
}

fn is_categories(file: &ActiveFile) -> bool
    ensures { result ≡ is_categories file.now }
{
    matches!(&file.file.get().raw, RawFile::Categories(_))
}

fn dictionaries(alloc: Global, layered: &[ActiveFile]) -> Result<Row<ActiveFile>, AllocError>
    ensures { IfOk result (λ made. made ≡ dictionaries layered.now) }
{
    let mut made = Row::new(alloc);
    for file in layered {
        if !is_dictionary(file) {
            continue;
        }
        made.push(file.try_clone()?)?;
    }
    Ok(made)
}

fn category_files(alloc: Global, layered: &[ActiveFile]) -> Result<Row<ActiveFile>, AllocError>
    ensures { IfOk result (λ made. made ≡ category_files layered.now) }
{
    let mut made = Row::new(alloc);
    for file in layered {
        if !is_categories(file) {
            continue;
        }
        made.push(file.try_clone()?)?;
    }
    Ok(made)
}

fn push_keys(keys: &mut Row<Key>, side: Side, groups: &[Group]) -> Result<(), AllocError>
    ensures { OnOk result (keys.new ≡ keys.old ++ group_keys side groups.now) }
{
    for group in groups {
        keys.push(Key {
            side,
            name: group.name.copy()?,
        })?;
    }
    Ok(())
}

fn item_groups(alloc: Global, files: &[ActiveFile]) -> Result<Sides, AllocError>
    ensures { IfOk result (λ made. made ≡ side_groups (λ side. given_by (GroupBy.Item side)) files.now) }
{
    Ok(Sides {
        classes: groups_of(alloc, GroupBy::Item(Side::Class), files)?,
        objects: groups_of(alloc, GroupBy::Item(Side::Object), files)?,
    })
}

fn patch_groups(alloc: Global, layered: &[ActiveFile]) -> Result<Sides, AllocError>
    ensures { IfOk result (λ made. made ≡ side_groups (λ side. given_by (GroupBy.Patched side)) layered.now) }
{
    Ok(Sides {
        classes: groups_of(alloc, GroupBy::Patched(Side::Class), layered)?,
        objects: groups_of(alloc, GroupBy::Patched(Side::Object), layered)?,
    })
}

fn keys_of(alloc: Global, items: &Sides) -> Result<Row<Key>, AllocError>
    ensures { IfOk result (λ made. made ≡ group_keys Side.Class items.now.classes
        ++ group_keys Side.Object items.now.objects) }
{
    let mut keys = Row::new(alloc);
    push_keys(&mut keys, Side::Class, items.classes.as_slice())?;
    push_keys(&mut keys, Side::Object, items.objects.as_slice())?;
    Ok(keys)
}

/// The item files by key, and the keys.
fn items_and_keys(alloc: Global, files: &[ActiveFile]) -> Result<(Sides, Row<Key>), AllocError>
    ensures items { IfOk result (λ made. made.0 ≡ (index_of files.now).items) }
    ensures keys { IfOk result (λ made. made.1 ≡ (index_of files.now).keys) }
{
    let items = item_groups(alloc, files)?;
    let keys = keys_of(alloc, &items)?;
    Ok((items, keys))
}

/// The dictionaries and the files with categories, of files in layers.
fn listings(
    alloc: Global,
    layered: &[ActiveFile],
) -> Result<(Row<ActiveFile>, Row<ActiveFile>), AllocError>
    ensures dictionaries { IfOk result (λ made. made.0 ≡ dictionaries layered.now) }
    ensures categories { IfOk result (λ made. made.1 ≡ category_files layered.now) }
{
    let dictionaries = dictionaries(alloc, layered)?;
    let categories = category_files(alloc, layered)?;
    Ok((dictionaries, categories))
}

/// The groups of that kind and of the other.
fn two_groups(
    alloc: Global,
    by: GroupBy,
    other: GroupBy,
    files: &[ActiveFile],
) -> Result<(Row<Group>, Row<Group>), AllocError>
    ensures first { IfOk result (λ made. made.0 ≡ groups_of (given_by by) files.now) }
    ensures second { IfOk result (λ made. made.1 ≡ groups_of (given_by other) files.now) }
{
    let first = groups_of(alloc, by, files)?;
    let second = groups_of(alloc, other, files)?;
    Ok((first, second))
}

/// The files that count, by what is asked of them. It costs as many steps as an ordering of them.
pub fn index_of(alloc: Global, files: &[ActiveFile]) -> Result<Index, AllocError>
    ensures { IfOk result (λ index. index ≡ index_of files.now) }
{
    let layered = in_layers(alloc, files)?;
    let (dictionaries, categories) = listings(alloc, layered.as_slice())?;
    let patches = patch_groups(alloc, layered.as_slice())?;
    let (profiles, includes) = two_groups(alloc, GroupBy::Profile, GroupBy::Include, files)?;
    let extensions = groups_of(alloc, GroupBy::Extension, files)?;
    let (items, keys) = items_and_keys(alloc, files)?;
    Ok(Index {
        items,
        patches,
        profiles,
        includes,
        extensions,
        dictionaries,
        categories,
        keys,
    })
}

impl Index {
    /// The index of no files. It takes no memory.
    pub fn empty(alloc: Global) -> Index
        ensures { result ≡ index_of [] }
    {
        Index {
            items: Sides {
                classes: Row::new(alloc),
                objects: Row::new(alloc),
            },
            patches: Sides {
                classes: Row::new(alloc),
                objects: Row::new(alloc),
            },
            profiles: Row::new(alloc),
            includes: Row::new(alloc),
            extensions: Row::new(alloc),
            dictionaries: Row::new(alloc),
            categories: Row::new(alloc),
            keys: Row::new(alloc),
        }
    }
}
