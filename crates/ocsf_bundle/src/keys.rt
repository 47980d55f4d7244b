// The full keys of the files that count, in order.
ghost use Rattle.std.specs.Prelude.{◌≡◌, IfOk};
ghost use Rattle.std.specs.Option.{option_copied};
ghost use Rattle.ocsf_bundle.specs.Keys.{key_of, has_no_other_name, patched, item_key};
ghost use Rattle.ocsf_bundle.specs.Groups.{given_by};

use crate::active::path_below;
use crate::stored::ActiveFile;
use ocsf_raw::{ItemFile, RawFile};
use ocsf_tree::{Side, Text};
use std::alloc::{AllocError, Global};

/// The key of a name that the file gives.
pub fn key_of(alloc: Global, active: &ActiveFile, name: &str) -> Result<Text, AllocError>
    ensures { IfOk result (λ key. key ≡ key_of active.now name.now) }
{
    match active.extension() {
        Some(ext) => {
            let mut key = String::from_str(alloc, ext.name.as_str())?;
            key.push('/')?;
            key.push_str(name)?;
            Text::from_string(key)
        }
        None => Text::of(alloc, name),
    }
}

fn has_no_other_name(file: &ItemFile, name: &Text) -> bool
    ensures { result ≡ has_no_other_name file.now name.now }
{
    match &file.name {
        Some(own) => *name == *own,
        None => true,
    }
}

/// The key of the item that the file patches.
pub fn patched<'a>(active: &ActiveFile, file: &'a ItemFile) -> Option<&'a Text>
    ensures { option_copied result ≡ patched active.now file.now }
{
    match &file.parent {
        Some(parent) => {
            if active.ext.is_some() && has_no_other_name(file, parent) {
                Some(parent)
            } else {
                None
            }
        }
        None => None,
    }
}

fn item_key(alloc: Global, active: &ActiveFile, file: &ItemFile) -> Result<Option<Text>, AllocError>
    ensures { IfOk result (λ key. key ≡ item_key active.now file.now) }
{
    if patched(active, file).is_some() {
        return Ok(None);
    }
    match &file.name {
        Some(name) => Ok(Some(key_of(alloc, active, name.as_str())?)),
        None => Ok(None),
    }
}

/// By which of their keys files are found.
#[derive(Clone, Copy, Debug, PartialEq, Eq, Drop)]
pub enum GroupBy {
    /// The key of a class or an object.
    Item(Side),
    /// The class or the object that a file patches.
    Patched(Side),
    /// The key of a profile.
    Profile,
    /// The path of an include or profile file.
    Include,
    /// The name of an extension.
    Extension,
}

/// The key of that kind that the file gives, if it gives one.
pub fn given_by(alloc: Global, by: GroupBy, active: &ActiveFile) -> Result<Option<Text>, AllocError>
    ensures { IfOk result (λ key. key ≡ given_by by active.now) }
{
    match (by, &active.file.get().raw) {
        (GroupBy::Item(side), RawFile::Item(file)) if file.side == side => {
            item_key(alloc, active, file)
        }
        (GroupBy::Patched(side), RawFile::Item(file)) if file.side == side => {
            match patched(active, file) {
                Some(name) => Ok(Some(name.copy()?)),
                None => Ok(None),
            }
        }
        (GroupBy::Profile, RawFile::Profile(file)) => {
            Ok(Some(key_of(alloc, active, file.name.as_str())?))
        }
        (GroupBy::Include, RawFile::Profile(_)) | (GroupBy::Include, RawFile::Include(_)) => {
            Ok(Some(Text::of(alloc, path_below(active.file.get().path.as_str()))?))
        }
        (GroupBy::Extension, RawFile::Extension(ext)) => Ok(Some(ext.name.copy()?)),
        _ => Ok(None),
    }
}
