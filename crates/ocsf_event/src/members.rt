// What of an object is judged with no look below it.
ghost use Rattle.std.specs.Prelude.{◌≡◌, ◌&&◌, ◌++◌, ◌∷◌, string_bytes, length, OnOk, IfOk, IsTrue, ◌↔◌, None};
ghost use Rattle.std.specs.List.{join_with_byte};
ghost use Rattle.ocsf_event_rules.specs.Conditions.{is_present, listed_in_force, count_present};
ghost use Rattle.ocsf_event_rules.specs.Violations.{comma};
ghost use Rattle.std.specs.Option.{option_copied, IfSome};
ghost use Rattle.ocsf_tree.specs.Lookup.{member_in};
ghost use Rattle.ocsf_tree.specs.Valid.{IsValid, IsValidMembers};
ghost use Rattle.ocsf_tree.specs.declared.attribute.Requirement.TheVariants.{Required};
ghost use Rattle.ocsf_schema.specs.Lookups.{IsInOrder};
ghost use Rattle.ocsf_schema.specs.declared.records.Target.TheVariants as target;
ghost use Rattle.ocsf_event.specs.Noted.{Noted};
ghost use Rattle.ocsf_event_rules.specs.Profiles.{is_in_force};
ghost use Rattle.ocsf_lists.specs.Among.{is_among};
ghost use Rattle.ocsf_event_rules.specs.EventClass.{is_null, value_of, as_whole, whole_of};
ghost use Rattle.ocsf_event_rules.specs.Judged.{of_element, with_item, object_of};
ghost use Rattle.ocsf_event.specs.Walk.{IsMissing, AreMissing, IsWrongWhole, IsTooFew, IsNotOne, IsSmall};

use crate::notes::Notes;
use crate::violation::Wrong;
use ocsf_schema::{Attr, Item, Schema, Target};
use ocsf_tree::{Key, Member, Requirement, Side, Text, Tree, find_by_name};
use std::alloc::{AllocError, Global};

pub(crate) fn is_null(value: &Tree) -> bool
    ensures { result ≡ is_null value.now }
{
    match value {
        Tree::Null => true,
        _ => false,
    }
}

fn is_among(name: &str, names: &[Text]) -> bool
    ensures { result ≡ is_among name.now names.now }
{
    for other in names {
        if name == other.as_str() {
            return true;
        }
    }
    false
}

pub(crate) fn is_in_force(profiles: &[Text], attr: &Attr) -> bool
    ensures { result ≡ is_in_force profiles.now attr.now }
{
    match &attr.profile {
        Some(profile) => is_among(profile.as_str(), profiles),
        None => true,
    }
}

fn is_required(attr: &Attr) -> bool
    ensures { IsTrue result ↔ (attr.now.requirement ≡ Required) }
{
    matches!(attr.requirement, Requirement::Required)
}

pub(crate) fn find<'a>(members: &'a [Member], name: &str) -> Option<&'a Tree>
    requires { IsValidMembers members.now }
    ensures { option_copied result ≡ member_in name.now members.now }
{
    match find_by_name(members, name) {
        Some(member) => Some(&member.value),
        None => None,
    }
}

fn as_whole(value: &Tree) -> Option<i128>
    requires { IsValid value.now }
    ensures whole { result ≡ as_whole value.now }
    ensures small { IfSome result IsSmall }
{
    match value {
        Tree::Whole(whole) => Some(*whole),
        _ => None,
    }
}

/// The whole number of that name.
pub(crate) fn whole_at(members: &[Member], name: &str) -> Option<i128>
    requires { IsValidMembers members.now }
    ensures whole { result ≡ whole_of name.now members.now }
    ensures small { IfSome result IsSmall }
{
    match find(members, name) {
        Some(value) => as_whole(value),
        None => None,
    }
}

fn is_absent(members: &[Member], name: &str) -> bool
    requires { IsValidMembers members.now }
    ensures { IsTrue result ↔ (value_of name.now members.now ≡ None) }
{
    match find(members, name) {
        Some(value) => is_null(value),
        None => true,
    }
}

fn is_listed(profiles: &[Text], names: &[Text], attr: &Attr) -> bool
    ensures { result ≡ (is_among attr.now.name names.now && is_in_force profiles.now attr.now) }
{
    is_among(attr.name.as_str(), names) && is_in_force(profiles, attr)
}

fn is_present(members: &[Member], attr: &Attr) -> bool
    requires { IsValidMembers members.now }
    ensures { result ≡ is_present members.now attr.now }
{
    match find(members, attr.name.as_str()) {
        Some(value) => !is_null(value),
        None => false,
    }
}

/// How many of the listed attributes that are in force there are.
fn count_listed(profiles: &[Text], item: &Item, names: &[Text]) -> usize
    ensures { result ≡ length (listed_in_force profiles.now item.now names.now) }
{
    if names.is_empty() {
        return 0;
    }
    let mut count = 0;
    for attr in item.attrs.as_slice() {
        if is_listed(profiles, names, attr) {
            count += 1;
        }
    }
    count
}

/// How many of them are there.
fn count_given(profiles: &[Text], item: &Item, names: &[Text], members: &[Member]) -> usize
    requires { IsValidMembers members.now }
    ensures { result ≡ count_present members.now (listed_in_force profiles.now item.now names.now) }
{
    let mut count = 0;
    for attr in item.attrs.as_slice() {
        if is_listed(profiles, names, attr) && is_present(members, attr) {
            count += 1;
        }
    }
    count
}

fn push_later(out: &mut String, name: &str) -> Result<(), AllocError>
    ensures { OnOk result (string_bytes out.new ≡ string_bytes out.old ++ comma ∷ name.now) }
{
    out.push(',')?;
    out.push_str(name)
}

fn push_all(out: &mut String, names: &[Text]) -> Result<(), AllocError>
    ensures { OnOk result (string_bytes out.new ≡ join_with_byte comma (string_bytes out.old ∷ names.now)) }
{
    for name in names {
        push_later(out, name.as_str())?;
    }
    Ok(())
}

fn joined(alloc: Global, names: &[Text]) -> Result<Text, AllocError>
    ensures { IfOk result (λ made. made ≡ join_with_byte comma names.now) }
{
    match names {
        [] => Text::of(alloc, ""),
        [first, rest @ ..] => {
            let mut out = String::from_str(alloc, first.as_str())?;
            push_all(&mut out, rest)?;
            Text::from_string(out)
        }
    }
}

fn judge_at_least(
    profiles: &[Text],
    item: &Item,
    members: &[Member],
    notes: &mut Notes,
) -> Result<(), AllocError>
    requires valid { IsValidMembers members.now }
    ensures { OnOk result (Noted (IsTooFew profiles.now (with_item item.now members.now)) notes.old notes.new) }
{
    let names = item.at_least_one.as_slice();
    if count_listed(profiles, item, names) == 0 || count_given(profiles, item, names, members) > 0 {
        return Ok(());
    }
    let detail = joined(notes.allocator(), names)?;
    notes.add(Wrong::AtLeastOne, detail.as_str())
}

fn judge_just_one(
    profiles: &[Text],
    item: &Item,
    members: &[Member],
    notes: &mut Notes,
) -> Result<(), AllocError>
    requires valid { IsValidMembers members.now }
    ensures { OnOk result (Noted (IsNotOne profiles.now (with_item item.now members.now)) notes.old notes.new) }
{
    let names = item.just_one.as_slice();
    if count_listed(profiles, item, names) == 0
        || count_given(profiles, item, names, members) == 1
    {
        return Ok(());
    }
    let detail = joined(notes.allocator(), names)?;
    notes.add(Wrong::JustOne, detail.as_str())
}

/// What is wrong with the object as a whole.
pub(crate) fn judge_whole(
    profiles: &[Text],
    item: &Item,
    members: &[Member],
    notes: &mut Notes,
) -> Result<(), AllocError>
    requires valid { IsValidMembers members.now }
    ensures { OnOk result (Noted (IsWrongWhole profiles.now (with_item item.now members.now)) notes.old notes.new) }
{
    judge_at_least(profiles, item, members, notes)?;
    judge_just_one(profiles, item, members, notes)
}

fn judge_absent(
    profiles: &[Text],
    attr: &Attr,
    members: &[Member],
    notes: &mut Notes,
) -> Result<(), AllocError>
    requires valid { IsValidMembers members.now }
    ensures { OnOk result (Noted (IsMissing profiles.now members.now attr.now) notes.old notes.new) }
{
    if is_required(attr) && is_in_force(profiles, attr) && is_absent(members, attr.name.as_str()) {
        return notes.add_at(&attr.name, Wrong::RequiredMissing, "");
    }
    Ok(())
}

/// The attributes that have to be there and aren't.
pub(crate) fn judge_missing(
    profiles: &[Text],
    item: &Item,
    members: &[Member],
    notes: &mut Notes,
) -> Result<(), AllocError>
    requires valid { IsValidMembers members.now }
    ensures { OnOk result (Noted (AreMissing profiles.now item.now members.now) notes.old notes.new) }
{
    for attr in item.attrs.as_slice() {
        judge_absent(profiles, attr, members, notes)?;
    }
    Ok(())
}

/// The object that a target names.
pub(crate) fn object_named<'a>(
    schema: &'a Schema,
    target: &Target,
) -> Result<Option<&'a Item>, AllocError>
    ensures item { IfOk result (λ item. option_copied item ≡ object_of schema.now target.now) }
    ensures order { IfOk result (λ item. IfSome item (λ i. IsInOrder i.now)) }
{
    match target {
        Target::Object(name) => {
            let key = Key {
                side: Side::Object,
                name: name.copy()?,
            };
            Ok(schema.item(&key))
        }
        _ => Ok(None),
    }
}
