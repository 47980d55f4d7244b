// Down the event and the schema together.
ghost use Rattle.std.specs.Prelude.{◌≡◌, OnOk};
ghost use Rattle.ocsf_tree.specs.Valid.{IsValid, IsValidList, IsValidMembers};
ghost use Rattle.ocsf_schema.specs.Lookups.{IsInOrder};
ghost use Rattle.ocsf_event_rules.specs.Judged.{of_attribute, of_element, with_item};
ghost use Rattle.ocsf_event.specs.Noted.{Noted};
ghost use Rattle.ocsf_event.specs.Walk.{IsWithin, InObject, InMember, InMembers, InItems, InKnown};
ghost use Rattle.ocsf_event.specs.Walk.{WantsObject, at_name_below};

use crate::members::{is_in_force, is_null, judge_missing, judge_whole, object_named};
use crate::notes::Notes;
use crate::simple::{judge_kind, kind_of};
use crate::violation::Wrong;
use ocsf_pattern::Patterns;
use ocsf_schema::{Attr, Item, Schema, Target};
use ocsf_tree::{Member, Text, Tree};
use std::alloc::AllocError;

/// What an event is judged by.
#[derive(Clone, Copy, Drop)]
pub(crate) struct Judge<'a> {
    pub schema: &'a Schema,
    /// The profiles that the event names.
    pub profiles: &'a [Text],
}

/// An object against the item that judges it.
#[cycle(walk)]
pub(crate) fn judge_object(
    judge: &Judge,
    patterns: &mut Patterns,
    item: &Item,
    members: &[Member],
    notes: &mut Notes,
) -> Result<(), AllocError>
    requires valid { IsValidMembers members.now }
    requires order { IsInOrder item.now }
    ensures { OnOk result (Noted (InObject judge.now.schema.now judge.now.profiles.now
        (with_item item.now members.now)) notes.old notes.new) }
{
    judge_members(judge, patterns, item, members, notes)?;
    judge_missing(judge.profiles, item, members, notes)?;
    judge_whole(judge.profiles, item, members, notes)
}

#[cycle(walk)]
fn judge_members(
    judge: &Judge,
    patterns: &mut Patterns,
    item: &Item,
    members: &[Member],
    notes: &mut Notes,
) -> Result<(), AllocError>
    requires valid { IsValidMembers members.now }
    requires order { IsInOrder item.now }
    ensures { OnOk result (Noted (InMembers judge.now.schema.now judge.now.profiles.now item.now members.now)
        notes.old notes.new) }
{
    for member in members {
        judge_member(judge, patterns, item, member, notes)?;
    }
    Ok(())
}

#[cycle(walk)]
fn judge_member(
    judge: &Judge,
    patterns: &mut Patterns,
    item: &Item,
    member: &Member,
    notes: &mut Notes,
) -> Result<(), AllocError>
    requires valid { IsValid member.now.value }
    requires order { IsInOrder item.now }
    ensures { OnOk result (Noted (InMember judge.now.schema.now judge.now.profiles.now item.now member.now)
        notes.old notes.new) }
{
    if is_null(&member.value) {
        return Ok(());
    }
    match judge.schema.attr(item, member.name.as_str()) {
        Some(attr) => judge_known(judge, patterns, attr, member, notes),
        None => {
            if item.attrs.is_empty() {
                return Ok(());
            }
            notes.add_at(&member.name, Wrong::AttributeUnknown, "")
        }
    }
}

/// A member against the attribute of its name.
#[cycle(walk)]
fn judge_known(
    judge: &Judge,
    patterns: &mut Patterns,
    attr: &Attr,
    member: &Member,
    notes: &mut Notes,
) -> Result<(), AllocError>
    requires valid { IsValid member.now.value }
    ensures { OnOk result (Noted (λ place. InKnown judge.now.schema.now judge.now.profiles.now attr.now
        member.now.value (at_name_below place member.now.name)) notes.old notes.new) }
{
    if is_in_force(judge.profiles, attr) {
        notes.enter_member(&member.name)?;
        judge_attribute(judge, patterns, attr, &member.value, notes)?;
        notes.leave();
        return Ok(());
    }
    match &attr.profile {
        Some(profile) => notes.add_at(&member.name, Wrong::ProfileInactive, profile.as_str()),
        None => Ok(()),
    }
}

#[cycle(walk)]
fn judge_attribute(
    judge: &Judge,
    patterns: &mut Patterns,
    attr: &Attr,
    value: &Tree,
    notes: &mut Notes,
) -> Result<(), AllocError>
    requires valid { IsValid value.now }
    ensures { OnOk result (Noted (IsWithin judge.now.schema.now judge.now.profiles.now
        (of_attribute attr.now value.now)) notes.old notes.new) }
{
    if !attr.is_array {
        return judge_single(judge, patterns, attr, value, notes);
    }
    match value {
        Tree::List(items) => judge_items(judge, patterns, attr, items.as_slice(), notes),
        _ => notes.add(Wrong::WrongType, "array"),
    }
}

#[cycle(walk)]
fn judge_items(
    judge: &Judge,
    patterns: &mut Patterns,
    attr: &Attr,
    items: &[Tree],
    notes: &mut Notes,
) -> Result<(), AllocError>
    requires valid { IsValidList items.now }
    ensures { OnOk result (Noted (InItems judge.now.schema.now judge.now.profiles.now attr.now items.now)
        notes.old notes.new) }
{
    for (index, item) in items.iter().enumerate() {
        notes.enter_item(index as u64)?;
        judge_single(judge, patterns, attr, item, notes)?;
        notes.leave();
    }
    Ok(())
}

#[cycle(walk)]
fn judge_single(
    judge: &Judge,
    patterns: &mut Patterns,
    attr: &Attr,
    value: &Tree,
    notes: &mut Notes,
) -> Result<(), AllocError>
    requires valid { IsValid value.now }
    ensures { OnOk result (Noted (IsWithin judge.now.schema.now judge.now.profiles.now
        (of_element attr.now value.now)) notes.old notes.new) }
{
    match &attr.target {
        Target::Simple(name) => match kind_of(judge.schema, name.as_str(), value) {
            Some(kind) => judge_kind(patterns, kind, attr, value, notes),
            None => notes.add(Wrong::WrongType, name.as_str()),
        },
        Target::Object(_) | Target::Anything => judge_inside(judge, patterns, attr, value, notes),
    }
}

#[cycle(walk)]
fn judge_inside(
    judge: &Judge,
    patterns: &mut Patterns,
    attr: &Attr,
    value: &Tree,
    notes: &mut Notes,
) -> Result<(), AllocError>
    requires valid { IsValid value.now }
    requires wants { WantsObject attr.now.target }
    ensures { OnOk result (Noted (IsWithin judge.now.schema.now judge.now.profiles.now
        (of_element attr.now value.now)) notes.old notes.new) }
{
    match value {
        Tree::Members(members) => match object_named(judge.schema, &attr.target)? {
            Some(item) => judge_object(judge, patterns, item, members.as_slice(), notes),
            None => match &attr.target {
                Target::Object(_) => notes.add(Wrong::WrongType, "object_t"),
                Target::Anything | Target::Simple(_) => Ok(()),
            },
        },
        _ => notes.add(Wrong::WrongType, "object_t"),
    }
}
