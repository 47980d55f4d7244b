// The types of the dictionaries, merged.
ghost use Rattle.std.specs.Prelude.{◌≡◌, [], IfOk, All, map, slice_get};
ghost use Rattle.std.specs.Option.{option_copied, option_and_then, IfSome};
ghost use Rattle.ocsf_raw.specs.Ordered.{IsTypeValid};
ghost use Rattle.ocsf_bundle.specs.Looks.{look};
ghost use Rattle.ocsf_rules.specs.MergedDictionary.{merged_layers, merged_type};
ghost use Rattle.ocsf_compiler.specs.Layers.{as_type, type_over};

use ocsf_bundle::{Cell, Part, Shows};
use ocsf_merge::{both_later, later};
use ocsf_raw::TypeEntry;
use ocsf_tree::{Row, Text};
use std::alloc::{AllocError, Global};

/// The entry at position `k` of those that the cell shows.
fn type_at<'a, B: Shows>(bundle: &'a B, cell: &Cell, k: usize) -> Option<&'a TypeEntry>
    ensures entry { option_copied result ≡ option_and_then as_type (slice_get (look (B.looks bundle.now) cell.now) k) }
    ensures valid { IfSome result (λ entry. IsTypeValid entry.now) }
{
    match bundle.look(cell, k) {
        Some(Part::Kind(entry)) => Some(entry),
        _ => None,
    }
}

/// A type of which nothing was said.
fn nothing(name: &Text) -> Result<TypeEntry, AllocError>
    ensures { IfOk result (λ made. made ≡ merged_layers name.now []) }
{
    Ok(TypeEntry {
        name: name.copy()?,
        caption: None,
        description: None,
        parent: None,
        pattern: None,
        range: None,
        max_len: None,
        values: None,
    })
}

/// What a layer says over what those before it say.
fn type_over(layer: &TypeEntry, old: &TypeEntry) -> Result<TypeEntry, AllocError>
    ensures { IfOk result (λ made. made ≡ type_over layer.now old.now) }
{
    let (caption, description) = both_later(
        &layer.caption,
        &old.caption,
        &layer.description,
        &old.description,
    )?;
    let (parent, pattern) = both_later(&layer.parent, &old.parent, &layer.pattern, &old.pattern)?;
    let name = old.name.copy()?;
    let values = later(&layer.values, &old.values)?;
    Ok(TypeEntry {
        name,
        caption,
        description,
        parent,
        pattern,
        range: layer.range.or(old.range),
        max_len: layer.max_len.or(old.max_len),
        values,
    })
}

/// The type as the dictionaries say it together, layer by layer.
fn merged_type<B: Shows>(bundle: &B, name: &Text) -> Result<TypeEntry, AllocError>
    ensures entry { IfOk result (λ made. made ≡ merged_type (B.looks bundle.now) name.now) }
    ensures valid { IfOk result IsTypeValid }
{
    let cell = Cell::Kind(name.copy()?);
    let mut entry = nothing(name)?;
    for k in 0..bundle.most() {
        let Some(layer) = type_at(bundle, &cell, k) else {
            return Ok(entry);
        };
        entry = type_over(layer, &entry)?;
    }
    Ok(entry)
}

/// Each of these types, merged.
pub fn merged_types<B: Shows>(
    alloc: Global,
    bundle: &B,
    names: &[Text],
) -> Result<Row<TypeEntry>, AllocError>
    ensures entries { IfOk result (λ made. made ≡ map (merged_type (B.looks bundle.now)) names.now) }
    ensures valid { IfOk result (All IsTypeValid) }
{
    let mut made = Row::with_capacity(alloc, names.len())?;
    for name in names {
        made.push(merged_type(bundle, name)?)?;
    }
    Ok(made)
}
