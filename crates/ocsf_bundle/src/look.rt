// What a cell shows, part by part.
ghost use Rattle.std.specs.Prelude.{◌≡◌, ◌≤◌, slice_get, IfSome};
ghost use Rattle.std.specs.Option.{option_map, option_copied};
ghost use Rattle.ocsf_raw.specs.Ordered.{IsByKey, IsTypeValid};
ghost use Rattle.ocsf_bundle.specs.Stored.{IsActiveSound};
ghost use Rattle.ocsf_lists.specs.ByName.{IsByName, at_name};
ghost use Rattle.ocsf_bundle.specs.Looks.{show_patch, show_entry, show_category};
ghost use Rattle.ocsf_bundle.specs.Shown.{shown, IsShownOrdered, AreNumbersInRange, Kind, Other};
ghost use Rattle.ocsf_bundle.specs.FilesLook.{patch_of, include_of, dict_of, kind_of, name_in, local_name};
ghost use Rattle.ocsf_bundle.specs.FilesLook.{category_named, category_of, item_of, attributes_said, categories_said};
ghost use Rattle.ocsf_bundle.specs.Looks.{show_included};
ghost use Rattle.ocsf_bundle.specs.Parts.{part_in, parts_in, asked, or_other, found, AreActiveSound, AreGroupsByName};
ghost use Rattle.ocsf_bundle.specs.Index.{groups_by_side};
ghost use Rattle.ocsf_bundle.specs.Active.{extension_uid};

use crate::active::extension_said;
use crate::cells::{Cell, Part};
use crate::groups::{Group, group_at};
use crate::index::{Index, Sides};
use crate::stored::ActiveFile;
use ocsf_raw::{
    CategoryEntry, DictEntry, ExtFile, ItemFile, RawFile, TypeEntry, below, folder, has_slash,
};
use ocsf_tree::{Side, find_by_name};

pub fn item_of(file: &ActiveFile) -> Option<&ItemFile>
    ensures { option_copied result ≡ item_of file.now }
{
    match &file.file.get().raw {
        RawFile::Item(item) => Some(item),
        _ => None,
    }
}

fn patch_part(file: &ActiveFile) -> Option<Part<'_>>
    ensures { option_map shown result ≡ option_map show_patch (patch_of file.now) }
{
    match (item_of(file), file.extension()) {
        (Some(item), Some(ext)) => Some(Part::Patch(ext, item)),
        _ => None,
    }
}

fn include_part<'a>(from: &str, file: &'a ActiveFile) -> Option<Part<'a>>
    ensures { option_map shown result ≡ option_map show_included (include_of from.now file.now) }
{
    if file.extension_name() != from {
        return None;
    }
    match &file.file.get().raw {
        RawFile::Profile(profile) => Some(Part::Profile(profile)),
        RawFile::Include(entries) => Some(Part::Include(entries.as_slice())),
        _ => None,
    }
}

fn dict_entry<'a>(name: &str, file: &'a ActiveFile) -> Option<&'a DictEntry>
    requires { IsActiveSound file.now }
    ensures found { option_copied result ≡ at_name (λ entry. entry.name) name.now (attributes_said file.now.file.raw) }
    ensures ordered { IfSome result (λ entry. IsByKey entry.now.members) }
{
    match &file.file.get().raw {
        RawFile::Dictionary(dictionary) => find_by_name(dictionary.attributes.as_slice(), name),
        _ => None,
    }
}

fn dict_part<'a>(name: &str, file: &'a ActiveFile) -> Option<Part<'a>>
    requires { IsActiveSound file.now }
    ensures part { option_map shown result ≡ option_map show_entry (dict_of name.now file.now) }
    ensures ordered { IfSome result (λ part. IsShownOrdered (shown part)) }
{
    let entry = dict_entry(name, file)?;
    Some(Part::Dict(file.extension_name(), entry))
}

fn type_entry<'a>(name: &str, file: &'a ActiveFile) -> Option<&'a TypeEntry>
    requires { IsActiveSound file.now }
    ensures found { option_copied result ≡ kind_of name.now file.now }
    ensures valid { IfSome result (λ entry. IsTypeValid entry.now) }
{
    match &file.file.get().raw {
        RawFile::Dictionary(dictionary) => find_by_name(dictionary.types.as_slice(), name),
        _ => None,
    }
}

fn kind_part<'a>(name: &str, file: &'a ActiveFile) -> Option<Part<'a>>
    requires { IsActiveSound file.now }
    ensures part { option_map shown result ≡ option_map Kind (kind_of name.now file.now) }
    ensures ordered { IfSome result (λ part. IsShownOrdered (shown part)) }
{
    let entry = type_entry(name, file)?;
    Some(Part::Kind(entry))
}

/// The name that a key has within the extension.
fn name_in<'a>(ext: &ExtFile, key: &'a str) -> Option<&'a str>
    ensures { option_copied result ≡ name_in ext.now key.now }
{
    if has_slash(key) && folder(key) == ext.name.as_str() {
        Some(below(key))
    } else {
        None
    }
}

fn local_name<'a>(file: &ActiveFile, key: &'a str) -> Option<&'a str>
    ensures { option_copied result ≡ local_name file.now key.now }
{
    match file.extension() {
        Some(ext) => name_in(ext, key),
        None => Some(key),
    }
}

fn uid_of(file: &ActiveFile) -> u32
    requires { IsActiveSound file.now }
    ensures uid { result ≡ extension_uid file.now }
    ensures within { result ≤ 999 }
{
    match &file.ext {
        Some(ext) => match extension_said(&ext.get().raw) {
            Some(said) => said.uid,
            None => 0,
        },
        None => 0,
    }
}

fn category_entry<'a>(file: &'a ActiveFile, name: &str) -> Option<&'a CategoryEntry>
    requires { IsActiveSound file.now }
    ensures found { option_copied result ≡ at_name (λ entry. entry.name) name.now (categories_said file.now.file.raw) }
    ensures within { IfSome result (λ entry. entry.now.uid ≤ 99) }
{
    match &file.file.get().raw {
        RawFile::Categories(entries) => find_by_name(entries.as_slice(), name),
        _ => None,
    }
}

fn category_part<'a>(key: &str, file: &'a ActiveFile) -> Option<Part<'a>>
    requires { IsActiveSound file.now }
    ensures part { option_map shown result ≡ option_map show_category (category_of key.now file.now) }
    ensures numbers { IfSome result (λ part. AreNumbersInRange (shown part)) }
{
    let name = local_name(file, key)?;
    let entry = category_entry(file, name)?;
    Some(Part::Category(uid_of(file), entry))
}

/// What the file shows of the cell.
fn part_in<'a>(cell: &Cell, file: &'a ActiveFile) -> Option<Part<'a>>
    requires { IsActiveSound file.now }
    ensures part { option_map shown result ≡ part_in cell.now file.now }
    ensures ordered { IfSome result (λ part. IsShownOrdered (shown part)) }
    ensures numbers { IfSome result (λ part. AreNumbersInRange (shown part)) }
{
    match cell {
        Cell::Item(_) => item_of(file).map(Part::Item),
        Cell::Exists(_) => item_of(file).map(|_| Part::There),
        Cell::Patches(_) => patch_part(file),
        Cell::Profile(_) => match &file.file.get().raw {
            RawFile::Profile(profile) => Some(Part::Profile(profile)),
            _ => None,
        },
        Cell::Include { from, .. } => include_part(from.as_str(), file),
        Cell::Dict(name) => dict_part(name.as_str(), file),
        Cell::Kind(name) => kind_part(name.as_str(), file),
        Cell::Category(key) => category_part(key.as_str(), file),
        Cell::Ext(_) => extension_said(&file.file.get().raw).map(Part::Ext),
    }
}

/// The part at position `k` of those that the files show.
pub fn nth_part<'a>(files: &'a [ActiveFile], cell: &Cell, k: usize) -> Option<Part<'a>>
    requires { AreActiveSound files.now }
    ensures part { option_map shown result ≡ slice_get (parts_in cell.now files.now) k }
    ensures ordered { IfSome result (λ part. IsShownOrdered (shown part)) }
    ensures numbers { IfSome result (λ part. AreNumbersInRange (shown part)) }
{
    let mut left = k;
    for file in files {
        if let Some(part) = part_in(cell, file) {
            if left == 0 {
                return Some(part);
            }
            left -= 1;
        }
    }
    None
}

pub fn groups_by_side(sides: &Sides, side: Side) -> &[Group]
    ensures { result.now ≡ groups_by_side side sides.now }
{
    match side {
        Side::Class => sides.classes.as_slice(),
        Side::Object => sides.objects.as_slice(),
    }
}

/// The files that are asked what the cell shows.
fn asked<'a>(index: &'a Index, cell: &Cell) -> &'a [ActiveFile]
    requires { AreGroupsByName index.now }
    ensures { result.now ≡ asked index.now cell.now }
{
    match cell {
        Cell::Item(key) | Cell::Exists(key) => {
            group_at(groups_by_side(&index.items, key.side), key.name.as_str())
        }
        Cell::Patches(key) => {
            group_at(groups_by_side(&index.patches, key.side), key.name.as_str())
        }
        Cell::Profile(key) => group_at(index.profiles.as_slice(), key.as_str()),
        Cell::Include { path, .. } => group_at(index.includes.as_slice(), path.as_str()),
        Cell::Dict(_) | Cell::Kind(_) => index.dictionaries.as_slice(),
        Cell::Category(_) => index.categories.as_slice(),
        Cell::Ext(name) => group_at(index.extensions.as_slice(), name.as_str()),
    }
}

fn category_at<'a>(files: &'a [ActiveFile], cell: &Cell, key: &str, k: usize) -> Option<Part<'a>>
    requires { AreActiveSound files.now }
    ensures part { option_map shown result ≡ slice_get (or_other key.now (parts_in cell.now files.now)) k }
    ensures ordered { IfSome result (λ part. IsShownOrdered (shown part)) }
    ensures numbers { IfSome result (λ part. AreNumbersInRange (shown part)) }
{
    match nth_part(files, cell, k) {
        Some(part) => Some(part),
        None => {
            if k == 0 && key == "other" {
                Some(Part::Other)
            } else {
                None
            }
        }
    }
}

/// The part at position `k` of what the cell shows.
pub fn found<'a>(index: &'a Index, cell: &Cell, k: usize) -> Option<Part<'a>>
    requires groups { AreGroupsByName index.now }
    requires ordered { AreActiveSound (asked index.now cell.now) }
    ensures part { option_map shown result ≡ slice_get (found index.now cell.now) k }
    ensures ordered { IfSome result (λ part. IsShownOrdered (shown part)) }
    ensures numbers { IfSome result (λ part. AreNumbersInRange (shown part)) }
{
    let files = asked(index, cell);
    match cell {
        Cell::Exists(_) => {
            if k == 0 {
                nth_part(files, cell, 0)
            } else {
                None
            }
        }
        Cell::Category(key) => category_at(files, cell, key.as_str(), k),
        _ => nth_part(files, cell, k),
    }
}
