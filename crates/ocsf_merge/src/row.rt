// A row after one more entry.
ghost use Rattle.std.specs.Prelude.{◌≡◌, IfOk, []};
ghost use Rattle.ocsf_merge.specs.Layers.{layer_of, given};
ghost use Rattle.ocsf_merge.specs.Fold.{over, nothing, row_of, mark_after, type_from_after, group_after};
ghost use Rattle.ocsf_merge.specs.Fold.{requirement_after};

use crate::fields::{both_later, later};
use crate::members::merged_members;
use crate::spoken::Spoken;
use ocsf_raw::{Mark, ProfileFile, RawAttr};
use ocsf_tree::{Requirement, Row, Text, TryClone};
use std::alloc::{AllocError, Global};

/// A mark, the extension in which it names a profile, and whether it is a key already.
#[derive(Debug, Drop)]
struct MarkSaid {
    mark: Mark,
    from: Text,
    is_key: bool,
}

/// An attribute of which nothing was said.
fn nothing(alloc: Global, name: &Text) -> Result<Spoken, AllocError>
    ensures { IfOk result (λ made. made ≡ nothing name.now) }
{
    let type_from = Text::of(alloc, "")?;
    let mark_from = Text::of(alloc, "")?;
    let name = name.copy()?;
    Ok(Spoken {
        attr: RawAttr {
            name,
            removed: false,
            caption: None,
            description: None,
            type_name: None,
            is_array: None,
            members: Row::new(alloc),
            sibling: None,
            requirement: None,
            mark: Mark::Unsaid,
            group: None,
        },
        type_from,
        mark_from,
        mark_is_key: false,
    })
}

fn mark_after(
    from: &str,
    is_profile: bool,
    profile_key: &str,
    mark: &Mark,
    old: &Spoken,
) -> Result<MarkSaid, AllocError>
    ensures { IfOk result (λ made. made ≡ mark_after from.now is_profile profile_key.now mark.now old.now) }
{
    let alloc = old.type_from.allocator();
    match mark {
        Mark::Unsaid => {
            if is_profile {
                Ok(MarkSaid {
                    mark: Mark::Named(Text::of(alloc, profile_key)?),
                    from: Text::of(alloc, "")?,
                    is_key: true,
                })
            } else {
                Ok(MarkSaid {
                    mark: old.attr.mark.try_clone()?,
                    from: old.mark_from.copy()?,
                    is_key: old.mark_is_key,
                })
            }
        }
        Mark::Cleared => Ok(MarkSaid {
            mark: Mark::Cleared,
            from: Text::of(alloc, "")?,
            is_key: false,
        }),
        Mark::Named(name) => Ok(MarkSaid {
            mark: Mark::Named(name.copy()?),
            from: Text::of(alloc, from)?,
            is_key: false,
        }),
    }
}

fn type_from_after(from: &str, entry: &RawAttr, old: &Spoken) -> Result<Text, AllocError>
    ensures { IfOk result (λ made. made ≡ type_from_after from.now entry.now old.now) }
{
    match entry.type_name {
        Some(_) => Text::of(old.type_from.allocator(), from),
        None => old.type_from.copy(),
    }
}

fn group_after(
    entry: &RawAttr,
    profile: Option<&ProfileFile>,
    old: &Spoken,
) -> Result<Option<Text>, AllocError>
    ensures { IfOk result (λ made. made ≡ group_after entry.now profile.entry old.now) }
{
    match (&entry.group, profile) {
        (Some(group), _) => Ok(Some(group.copy()?)),
        (None, Some(file)) => later(&file.group, &old.attr.group),
        (None, None) => old.attr.group.try_clone(),
    }
}

fn requirement_after(
    entry: &RawAttr,
    profile: Option<&ProfileFile>,
    old: &Spoken,
) -> Option<Requirement>
    ensures { result ≡ requirement_after entry.now profile.entry old.now }
{
    match (entry.requirement, profile) {
        (Some(requirement), _) => Some(requirement),
        (None, Some(file)) => file.requirement.or(old.attr.requirement),
        (None, None) => old.attr.requirement,
    }
}

fn row_parts(
    from: &str,
    profile: Option<&ProfileFile>,
    profile_key: &str,
    entry: &RawAttr,
    old: &Spoken,
) -> Result<Spoken, AllocError>
    ensures { IfOk result (λ made. made ≡ row_of from.now profile_key.now profile.entry entry.now old.now) }
{
    let type_from = type_from_after(from, entry, old)?;
    let marked = mark_after(from, profile.is_some(), profile_key, &entry.mark, old)?;
    let group = group_after(entry, profile, old)?;
    let said = &old.attr;
    let (caption, description) = both_later(
        &entry.caption,
        &said.caption,
        &entry.description,
        &said.description,
    )?;
    let (type_name, sibling) = both_later(
        &entry.type_name,
        &said.type_name,
        &entry.sibling,
        &said.sibling,
    )?;
    let name = entry.name.copy()?;
    let alloc = old.type_from.allocator();
    let members = merged_members(alloc, entry.members.as_slice(), said.members.as_slice())?;
    Ok(Spoken {
        attr: RawAttr {
            name,
            removed: false,
            caption,
            description,
            type_name,
            is_array: entry.is_array.or(said.is_array),
            members,
            sibling,
            requirement: requirement_after(entry, profile, old),
            mark: marked.mark,
            group,
        },
        type_from,
        mark_from: marked.from,
        mark_is_key: marked.is_key,
    })
}

/// The row after an entry that isn't a removal, in a layer, over the row before.
pub fn row_after(
    from: &str,
    profile: Option<&ProfileFile>,
    profile_key: &str,
    entry: &RawAttr,
    old: &Spoken,
) -> Result<Spoken, AllocError>
    ensures { IfOk result (λ made. made
        ≡ over (given (layer_of from.now profile.entry profile_key.now []) entry.now) old.now) }
{
    row_parts(from, profile, profile_key, entry, old)
}

/// The row after an entry that isn't a removal, in a layer, where none was before.
pub fn first_row(
    alloc: Global,
    from: &str,
    profile: Option<&ProfileFile>,
    profile_key: &str,
    entry: &RawAttr,
) -> Result<Spoken, AllocError>
    ensures { IfOk result (λ made. made
        ≡ over (given (layer_of from.now profile.entry profile_key.now []) entry.now) (nothing entry.now.name)) }
{
    let none = nothing(alloc, &entry.name)?;
    row_after(from, profile, profile_key, entry, &none)
}
