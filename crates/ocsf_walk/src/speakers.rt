// The files that speak along a chain.
ghost use Rattle.std.specs.Prelude.{◌≡◌, [], ◌∷◌, OnOk, IfOk, IfSome, slice_get, flat_map, map};
ghost use Rattle.std.specs.Option.{option_map, option_to_list};
ghost use Rattle.ocsf_raw.specs.Ordered.{AreEntriesOrdered};
ghost use Rattle.ocsf_rules.specs.Chain.{own_file, own_speaker, patch_speaker, speakers_of};
ghost use Rattle.ocsf_walk.specs.Speakers.{patch_of, speaks_for, patches_cell, Speaks};

use crate::chain::own_file;
use crate::names::ext_of;
use ocsf_bundle::{Cell, Part, Shows};
use ocsf_raw::{ExtFile, ItemFile};
use ocsf_tree::{Key, Text, TryClone};
use std::alloc::{AllocError, Global};

/// An item file or a patch.
#[derive(Drop)]
pub struct Speaker<'a> {
    /// The key on the chain that it speaks for.
    pub by: Key,
    /// Its extension, empty for core.
    pub ext: Text,
    pub file: &'a ItemFile,
}

/// A patch with its extension.
#[derive(Clone, Copy, Drop)]
pub struct Patch<'a> {
    pub ext: &'a ExtFile,
    pub file: &'a ItemFile,
}

fn patch_at<'a, B: Shows>(bundle: &'a B, key: &Key, cell: &Cell, k: usize) -> Option<Patch<'a>>
    requires { cell.now ≡ patches_cell key.now }
    ensures patch { option_map patch_of result ≡ slice_get ((B.looks bundle.now).patches key.now) k }
    ensures ordered { IfSome result (λ patch. AreEntriesOrdered patch.file.now.attributes) }
{
    match bundle.look(cell, k) {
        Some(Part::Patch(ext, file)) => Some(Patch { ext, file }),
        _ => None,
    }
}

/// A file that speaks for the key.
fn push_speaker<'a>(
    key: &Key,
    ext: Text,
    file: &'a ItemFile,
    speakers: &mut Vec<Speaker<'a>>,
) -> Result<(), AllocError>
    requires { AreEntriesOrdered file.now.attributes }
    ensures { OnOk result (Speaks speakers.old.items speakers.new.items (speaks_for key.now ext file.now ∷ [])) }
{
    let by = key.try_clone()?;
    speakers.push(Speaker { by, ext, file })?;
    Ok(())
}

/// The patch of the key.
fn push_patch<'a>(
    key: &Key,
    patch: Patch<'a>,
    speakers: &mut Vec<Speaker<'a>>,
) -> Result<(), AllocError>
    requires { AreEntriesOrdered patch.file.now.attributes }
    ensures { OnOk result (Speaks speakers.old.items speakers.new.items
        (patch_speaker key.now (patch_of patch.entry) ∷ [])) }
{
    let ext = patch.ext.name.copy()?;
    push_speaker(key, ext, patch.file, speakers)?;
    Ok(())
}

/// The patches of the key, for which the cell asks.
fn push_shown<'a, B: Shows>(
    bundle: &'a B,
    key: &Key,
    cell: &Cell,
    speakers: &mut Vec<Speaker<'a>>,
) -> Result<(), AllocError>
    requires { cell.now ≡ patches_cell key.now }
    ensures { OnOk result (Speaks speakers.old.items speakers.new.items
        (map (patch_speaker key.now) ((B.looks bundle.now).patches key.now))) }
{
    for k in 0..bundle.most() {
        match patch_at(bundle, key, cell, k) {
            Some(patch) => push_patch(key, patch, speakers)?,
            None => return Ok(()),
        }
    }
    Ok(())
}

/// The patches of the key.
fn push_patches<'a, B: Shows>(
    bundle: &'a B,
    key: &Key,
    speakers: &mut Vec<Speaker<'a>>,
) -> Result<(), AllocError>
    ensures { OnOk result (Speaks speakers.old.items speakers.new.items
        (map (patch_speaker key.now) ((B.looks bundle.now).patches key.now))) }
{
    let cell = Cell::Patches(key.try_clone()?);
    push_shown(bundle, key, &cell, speakers)
}

/// The item's own file.
fn push_own<'a, B: Shows>(
    alloc: Global,
    bundle: &'a B,
    key: &Key,
    speakers: &mut Vec<Speaker<'a>>,
) -> Result<(), AllocError>
    ensures { OnOk result (Speaks speakers.old.items speakers.new.items
        (map (own_speaker key.now) (option_to_list (own_file (B.looks bundle.now) key.now)))) }
{
    match own_file(bundle, key)? {
        Some(file) => {
            let ext = Text::of(alloc, ext_of(key.name.as_str()))?;
            push_speaker(key, ext, file, speakers)?;
            Ok(())
        }
        None => Ok(()),
    }
}

/// The item's own file, and then its patches.
pub fn push_speakers_of<'a, B: Shows>(
    alloc: Global,
    bundle: &'a B,
    key: &Key,
    speakers: &mut Vec<Speaker<'a>>,
) -> Result<(), AllocError>
    ensures { OnOk result (Speaks speakers.old.items speakers.new.items (speakers_of (B.looks bundle.now) key.now)) }
{
    push_own(alloc, bundle, key, speakers)?;
    push_patches(bundle, key, speakers)?;
    Ok(())
}

/// The files that speak for these keys, one key after another.
pub fn speakers_along<'a, B: Shows>(
    alloc: Global,
    bundle: &'a B,
    keys: &[Key],
) -> Result<Vec<Speaker<'a>>, AllocError>
    ensures { IfOk result (λ made. Speaks [] made.items (flat_map (speakers_of (B.looks bundle.now)) keys.now)) }
{
    let mut speakers = Vec::new(alloc);
    for key in keys {
        push_speakers_of(alloc, bundle, key, &mut speakers)?;
    }
    Ok(speakers)
}
