// What the dictionaries say of an attribute.
ghost use Rattle.std.specs.Prelude.{◌≡◌, ◌++◌, Some, IfOk, OnOk, slice_get};
ghost use Rattle.std.specs.Option.{option_map, option_or};
ghost use Rattle.ocsf_rules.specs.Attribute.{dict_said, type_said_in};
ghost use Rattle.ocsf_item.specs.Dictionary.{dict_of, dict_cell, dict_over};

use ocsf_bundle::{Cell, Part, Shows};
use ocsf_raw::DictEntry;
use ocsf_rules::{DictSaid, TypeSaid};
use ocsf_tree::{EnumMember, Row, Text, TryClone};
use ocsf_walk::give;
use std::alloc::{AllocError, Global};

/// An entry of a dictionary, and the extension of its file.
#[derive(Clone, Copy, Drop)]
pub(crate) struct DictLayer<'a> {
    pub ext: &'a str,
    pub entry: &'a DictEntry,
}

/// The flag given, or else that said before.
fn flag_or(given: Option<bool>, before: Option<bool>) -> Option<bool>
    ensures { result ≡ option_or given before }
{
    match given {
        Some(given) => Some(given),
        None => before,
    }
}

/// A type as it is written in an entry of that extension.
fn type_in(alloc: Global, ext: &str, name: &Text) -> Result<TypeSaid, AllocError>
    ensures { IfOk result (λ made. Some made ≡ type_said_in ext.now (Some name.now)) }
{
    let name = name.copy()?;
    let from = Text::of(alloc, ext)?;
    Ok(TypeSaid { name, from })
}

/// The type of the entry takes the place of what was said before.
fn give_type(
    alloc: Global,
    ext: &str,
    name: &Option<Text>,
    field: &mut Option<TypeSaid>,
) -> Result<(), AllocError>
    ensures { OnOk result (field.new ≡ option_or (type_said_in ext.now name.now) field.old) }
{
    match name {
        Some(name) => {
            let said = type_in(alloc, ext, name)?;
            *field = Some(said);
            Ok(())
        }
        None => Ok(()),
    }
}

/// These members, and then those.
pub(crate) fn members_joined(
    alloc: Global,
    first: &[EnumMember],
    then: &[EnumMember],
) -> Result<Row<EnumMember>, AllocError>
    ensures { IfOk result (λ made. made ≡ first.now ++ then.now) }
{
    let mut made = Row::of(alloc, first)?;
    for member in then {
        made.push(member.try_clone()?)?;
    }
    Ok(made)
}

/// One layer more, the last.
fn add_layer(alloc: Global, said: &mut DictSaid, layer: DictLayer<'_>) -> Result<(), AllocError>
    ensures { OnOk result (said.new ≡ dict_over (dict_of layer.entry) said.old) }
{
    let entry = layer.entry;
    give(&entry.caption, &mut said.caption)?;
    give(&entry.description, &mut said.description)?;
    give_type(alloc, layer.ext, &entry.type_name, &mut said.type_said)?;
    said.is_array = flag_or(entry.is_array, said.is_array);
    give(&entry.sibling, &mut said.sibling)?;
    let members = members_joined(alloc, entry.members.as_slice(), said.members.as_slice())?;
    said.members = members;
    Ok(())
}

fn layer_at<'a, B: Shows>(
    bundle: &'a B,
    name: &Text,
    cell: &Cell,
    k: usize,
) -> Option<DictLayer<'a>>
    requires { cell.now ≡ dict_cell name.now }
    ensures { option_map dict_of result ≡ slice_get ((B.looks bundle.now).dict name.now) k }
{
    match bundle.look(cell, k) {
        Some(Part::Dict(ext, entry)) => Some(DictLayer { ext, entry }),
        _ => None,
    }
}

/// What the dictionaries say of the attribute, for which the cell asks.
fn said_at<B: Shows>(
    alloc: Global,
    bundle: &B,
    name: &Text,
    cell: &Cell,
) -> Result<DictSaid, AllocError>
    requires { cell.now ≡ dict_cell name.now }
    ensures { IfOk result (λ made. made ≡ dict_said ((B.looks bundle.now).dict name.now)) }
{
    let mut said = DictSaid {
        caption: None,
        description: None,
        type_said: None,
        is_array: None,
        sibling: None,
        members: Row::new(alloc),
    };
    for k in 0..bundle.most() {
        match layer_at(bundle, name, cell, k) {
            Some(layer) => add_layer(alloc, &mut said, layer)?,
            None => return Ok(said),
        }
    }
    Ok(said)
}

/// What the dictionaries say of the attribute.
pub(crate) fn dict_said<B: Shows>(
    alloc: Global,
    bundle: &B,
    name: &Text,
) -> Result<DictSaid, AllocError>
    ensures { IfOk result (λ made. made ≡ dict_said ((B.looks bundle.now).dict name.now)) }
{
    let cell = Cell::Dict(name.copy()?);
    said_at(alloc, bundle, name, &cell)
}
