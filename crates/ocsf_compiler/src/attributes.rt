// The attributes of the dictionaries, merged.
ghost use Rattle.std.specs.Prelude.{◌≡◌, [], IfOk, map, slice_get};
ghost use Rattle.std.specs.Option.{option_copied, option_and_then, IfSome};
ghost use Rattle.ocsf_raw.specs.Ordered.{IsByKey};
ghost use Rattle.ocsf_bundle.specs.Looks.{look};
ghost use Rattle.ocsf_rules.specs.Attribute.{dict_said};
ghost use Rattle.ocsf_rules.specs.MergedDictionary.{entry_said, merged_entry};
ghost use Rattle.ocsf_compiler.specs.Layers.{as_entry, entry_over};

use ocsf_bundle::{Cell, Part, Shows};
use ocsf_merge::{both_later, members_over};
use ocsf_raw::DictEntry;
use ocsf_tree::{Row, Text};
use std::alloc::{AllocError, Global};

/// The entry at position `k` of those that the cell shows.
fn entry_at<'a, B: Shows>(bundle: &'a B, cell: &Cell, k: usize) -> Option<&'a DictEntry>
    ensures entry { option_copied result ≡ option_and_then as_entry (slice_get (look (B.looks bundle.now) cell.now) k) }
    ensures by_key { IfSome result (λ entry. IsByKey entry.now.members) }
{
    match bundle.look(cell, k) {
        Some(Part::Dict(_, entry)) => Some(entry),
        _ => None,
    }
}

/// An attribute of which nothing was said.
fn nothing(alloc: Global, name: &Text) -> Result<DictEntry, AllocError>
    ensures { IfOk result (λ made. made ≡ entry_said name.now (dict_said [])) }
{
    Ok(DictEntry {
        name: name.copy()?,
        caption: None,
        description: None,
        type_name: None,
        is_array: None,
        members: Row::new(alloc),
        sibling: None,
    })
}

/// What a layer says over what those before it say.
fn entry_over(alloc: Global, layer: &DictEntry, old: &DictEntry) -> Result<DictEntry, AllocError>
    requires layer { IsByKey layer.now.members }
    requires old { IsByKey old.now.members }
    ensures { IfOk result (λ made. made ≡ entry_over layer.now old.now) }
{
    let (caption, description) = both_later(
        &layer.caption,
        &old.caption,
        &layer.description,
        &old.description,
    )?;
    let (type_name, sibling) = both_later(
        &layer.type_name,
        &old.type_name,
        &layer.sibling,
        &old.sibling,
    )?;
    let name = old.name.copy()?;
    let members = members_over(alloc, layer.members.as_slice(), old.members.as_slice())?;
    Ok(DictEntry {
        name,
        caption,
        description,
        type_name,
        is_array: layer.is_array.or(old.is_array),
        members,
        sibling,
    })
}

/// The attribute as the dictionaries say it together, layer by layer.
fn merged_entry<B: Shows>(alloc: Global, bundle: &B, name: &Text) -> Result<DictEntry, AllocError>
    ensures { IfOk result (λ made. made ≡ merged_entry (B.looks bundle.now) name.now) }
{
    let cell = Cell::Dict(name.copy()?);
    let mut entry = nothing(alloc, name)?;
    for k in 0..bundle.most() {
        let Some(layer) = entry_at(bundle, &cell, k) else {
            return Ok(entry);
        };
        entry = entry_over(alloc, layer, &entry)?;
    }
    Ok(entry)
}

/// Each of these attributes, merged.
pub fn merged_entries<B: Shows>(
    alloc: Global,
    bundle: &B,
    names: &[Text],
) -> Result<Row<DictEntry>, AllocError>
    ensures { IfOk result (λ made. made ≡ map (merged_entry (B.looks bundle.now)) names.now) }
{
    let mut made = Row::with_capacity(alloc, names.len())?;
    for name in names {
        made.push(merged_entry(alloc, bundle, name)?)?;
    }
    Ok(made)
}
