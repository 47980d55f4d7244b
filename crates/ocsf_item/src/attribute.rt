// An attribute of an item: what its layers say, joined with the dictionary.
ghost use Rattle.std.specs.Prelude.{◌≡◌, ◌++◌, None, Some, IfOk, OnOk, unwrap_or};
ghost use Rattle.std.specs.Option.{option_or};
ghost use Rattle.ocsf_schema.specs.declared.records.Target.TheVariants.{Anything};
ghost use Rattle.ocsf_rules.specs.Names.{tried, profile_cells, profile_named};
ghost use Rattle.ocsf_rules.specs.Attribute.{members_of, profile_of, attr_from};
ghost use Rattle.ocsf_rules.specs.Reads.{profile_reads};

use crate::dictionary::members_joined;
use ocsf_bundle::{Cell, Shows};
use ocsf_merge::Spoken;
use ocsf_raw::Mark;
use ocsf_rules::DictSaid;
use ocsf_schema::{Attr, Target};
use ocsf_tree::{EnumMember, Requirement, Row, Text, TryClone, first_of_each};
use ocsf_walk::{profile_cells, resolve};
use std::alloc::{AllocError, Global};

/// The enumeration of the attribute.
pub(crate) fn members_of(
    alloc: Global,
    said: &DictSaid,
    row: &Spoken,
) -> Result<Row<EnumMember>, AllocError>
    ensures { IfOk result (λ made. made ≡ members_of said.now row.now) }
{
    let members = members_joined(alloc, row.attr.members.as_slice(), said.members.as_slice())?;
    let mut made = first_of_each(alloc, members.as_slice())?;
    made.shrink_to_fit();
    Ok(made)
}

/// The profile that a file of that extension names. The cells tried are read.
fn named_profile<B: Shows>(
    alloc: Global,
    bundle: &B,
    ext: &str,
    name: &str,
    reads: &mut Row<Cell>,
) -> Result<Option<Text>, AllocError>
    ensures found { IfOk result (λ made. made ≡ profile_named (B.looks bundle.now) ext.now name.now) }
    ensures reads { OnOk result (reads.new ≡ reads.old ++ tried (B.looks bundle.now) (profile_cells ext.now name.now)) }
{
    let cells = profile_cells(alloc, ext, name)?;
    match resolve(bundle, cells.as_slice(), reads)? {
        Some(Cell::Profile(key)) => Ok(Some(key.copy()?)),
        _ => Ok(None),
    }
}

/// The key of the profile that the attribute's mark names. The cells tried are read.
pub(crate) fn profile_of<B: Shows>(
    alloc: Global,
    bundle: &B,
    row: &Spoken,
    reads: &mut Row<Cell>,
) -> Result<Option<Text>, AllocError>
    ensures found { IfOk result (λ made. made ≡ profile_of (B.looks bundle.now) row.now) }
    ensures reads { OnOk result (reads.new ≡ reads.old ++ profile_reads (B.looks bundle.now) row.now) }
{
    if let Mark::Named(name) = &row.attr.mark {
        if row.mark_is_key {
            return Ok(Some(name.copy()?));
        }
        return named_profile(alloc, bundle, row.mark_from.as_str(), name.as_str(), reads);
    }
    Ok(None)
}

/// What is given, or else what is said.
fn given_or<T: TryClone>(given: &Option<T>, said: &Option<T>) -> Result<Option<T>, AllocError>
    ensures { IfOk result (λ made. made ≡ option_or given.now said.now) }
{
    if given.is_some() {
        given.try_clone()
    } else {
        said.try_clone()
    }
}

/// The texts of an attribute.
#[derive(Drop)]
struct Texts {
    name: Text,
    caption: Option<Text>,
    description: Option<Text>,
    sibling: Option<Text>,
    group: Option<Text>,
}

/// The texts of the attribute: those of the layers, else those of the dictionary.
fn texts_of(row: &Spoken, said: &DictSaid) -> Result<Texts, AllocError>
    ensures name { IfOk result (λ made. made.name ≡ row.now.attr.name) }
    ensures caption { IfOk result (λ made. made.caption ≡ option_or row.now.attr.caption said.now.caption) }
    ensures description { IfOk result (λ made. made.description
        ≡ option_or row.now.attr.description said.now.description) }
    ensures sibling { IfOk result (λ made. made.sibling ≡ option_or row.now.attr.sibling said.now.sibling) }
    ensures group { IfOk result (λ made. made.group ≡ row.now.attr.group) }
{
    let name = row.attr.name.copy()?;
    let caption = given_or(&row.attr.caption, &said.caption)?;
    let description = given_or(&row.attr.description, &said.description)?;
    let sibling = given_or(&row.attr.sibling, &said.sibling)?;
    let group = row.attr.group.try_clone()?;
    Ok(Texts {
        name,
        caption,
        description,
        sibling,
        group,
    })
}

/// The attribute, with these members.
pub(crate) fn attr_from(
    row: &Spoken,
    said: &DictSaid,
    target: Option<Target>,
    profile: Option<Text>,
    members: Row<EnumMember>,
) -> Result<Attr, AllocError>
    ensures { IfOk result (λ made. made
        ≡ attr_from row.now said.now (unwrap_or target Anything) profile (Some members)) }
{
    let texts = texts_of(row, said)?;
    let is_array = row.attr.is_array.or(said.is_array).unwrap_or(false);
    let requirement = row.attr.requirement.unwrap_or(Requirement::Optional);
    Ok(Attr {
        name: texts.name,
        caption: texts.caption,
        description: texts.description,
        target: target.unwrap_or(Target::Anything),
        is_array,
        requirement,
        profile,
        group: texts.group,
        sibling: texts.sibling,
        members,
    })
}
