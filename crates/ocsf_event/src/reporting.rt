// The report of an event.
ghost use Rattle.std.specs.Prelude.{◌≡◌, ◌↔◌, ◌∷◌, ◌++◌, [], IfOk, OnOk, map, codes, Some};
ghost use Rattle.std.specs.Option.{option_copied, option_and_then, IfSome};
ghost use Rattle.ocsf_tree.specs.Valid.{IsValid, IsValidMembers};
ghost use Rattle.ocsf_tree.specs.declared.place.Step.TheVariants.{Name};
ghost use Rattle.ocsf_schema.specs.Lookups.{IsInOrder};
ghost use Rattle.ocsf_event.specs.Noted.{Noted};
ghost use Rattle.ocsf_event_rules.specs.Profiles.{named_profiles, as_text, as_list};
ghost use Rattle.ocsf_tree.specs.declared.tree.Tree.TheVariants as tree;
ghost use Rattle.std.specs.List.{filter_map};
ghost use Rattle.ocsf_event_rules.specs.EventClass.{as_object, class_numbered, class_of, whole_of};
ghost use Rattle.ocsf_event.specs.Code.{told_violation};
ghost use Rattle.ocsf_event_rules.specs.Violations.{IsReport, whole_text};
ghost use Rattle.ocsf_event.specs.declared.violation.Wrong.TheVariants.{ClassUnknown};
ghost use Rattle.ocsf_event.specs.Walk.{IsThis, IsWrong, IsSmall};
ghost use Rattle.ocsf_bundle.specs.Stored.{Stored};
ghost use Rattle.ocsf_rules.specs.Compilation.{compilation};
ghost use Rattle.ocsf_rules.specs.Verdict.{IsFaultless};
ghost use Rattle.ocsf_event_laws.specs.FilesAllow.{IsAllowedByFiles};

use crate::members::whole_at;
use crate::notes::Notes;
use crate::order::in_order;
use crate::violation::{Violation, Wrong};
use crate::walk::{Judge, judge_object};
use crate::whole::{at_root, judge_event, profile_list};
use ocsf_pattern::Patterns;
use ocsf_schema::{Item, Schema};
use ocsf_tree::{Member, Row, Text, Tree};
use std::alloc::{AllocError, Global};

fn class_numbered(schema: &Schema, whole: i128) -> Option<&Item>
    requires { IsSmall whole }
    ensures class { option_copied result ≡ class_numbered schema.now whole }
    ensures order { IfSome result (λ item. IsInOrder item.now) }
{
    if whole < 0 {
        None
    } else {
        schema.class_by_uid(whole as u64)
    }
}

/// The class of an object: that of its `class_uid`.
fn class_of<'a>(schema: &'a Schema, members: &[Member]) -> Option<&'a Item>
    requires { IsValidMembers members.now }
    ensures class { option_copied result ≡ class_of schema.now members.now }
    ensures order { IfSome result (λ item. IsInOrder item.now) }
{
    match whole_at(members, "class_uid") {
        Some(whole) => class_numbered(schema, whole),
        None => None,
    }
}

fn whole_text(alloc: Global, whole: Option<i128>) -> Result<Text, AllocError>
    ensures { IfOk result (λ made. made ≡ whole_text whole) }
{
    match whole {
        Some(whole) => Text::from_string(whole.to_string(alloc)?),
        None => Text::of(alloc, ""),
    }
}

fn push_text(made: &mut Row<Text>, item: &Tree) -> Result<(), AllocError>
    ensures { OnOk result (made.new ≡ made.old ++ filter_map as_text (item.now ∷ [])) }
{
    match item {
        Tree::Words(text) => made.push(text.copy()?),
        _ => Ok(()),
    }
}

fn texts_of(alloc: Global, items: &[Tree]) -> Result<Row<Text>, AllocError>
    ensures { IfOk result (λ made. made ≡ filter_map as_text items.now) }
{
    let mut made = Row::new(alloc);
    for item in items {
        push_text(&mut made, item)?;
    }
    Ok(made)
}

/// The profiles that an event of these members names.
fn profiles_of(alloc: Global, members: &[Member]) -> Result<Row<Text>, AllocError>
    requires { IsValidMembers members.now }
    ensures { IfOk result (λ made. made ≡ named_profiles (tree.Members members.now)) }
{
    match profile_list(members) {
        Some(items) => texts_of(alloc, items.as_slice()),
        None => Ok(Row::new(alloc)),
    }
}

/// An event of that class.
fn judge_class(
    judge: &Judge,
    patterns: &mut Patterns,
    class: &Item,
    members: &[Member],
    notes: &mut Notes,
) -> Result<(), AllocError>
    requires valid { IsValidMembers members.now }
    requires order { IsInOrder class.now }
    requires class { class_of judge.now.schema.now members.now ≡ Some class.now }
    requires profiles { judge.now.profiles.now ≡ named_profiles (tree.Members members.now) }
    requires root { notes.old.place.items ≡ [] }
    ensures { OnOk result (Noted (λ place. IsWrong judge.now.schema.now (tree.Members members.now))
        notes.old notes.new) }
{
    judge_object(judge, patterns, class, members, notes)?;
    match class.class_uid {
        Some(number) => judge_event(judge.schema, number, members, notes),
        None => Ok(()),
    }
}

fn judge_classless(members: &[Member], notes: &mut Notes) -> Result<(), AllocError>
    requires { IsValidMembers members.now }
    ensures { OnOk result (Noted (λ place. IsThis (Name (codes "class_uid") ∷ []) ClassUnknown
        (whole_text (whole_of (codes "class_uid") members.now))) notes.old notes.new) }
{
    let alloc = notes.allocator();
    let detail = whole_text(alloc, whole_at(members, "class_uid"))?;
    notes.put(
        at_root(alloc, "class_uid")?,
        Wrong::ClassUnknown,
        detail.as_str(),
    )
}

/// An event of these members.
fn judge_body(
    schema: &Schema,
    patterns: &mut Patterns,
    members: &[Member],
    notes: &mut Notes,
) -> Result<(), AllocError>
    requires valid { IsValidMembers members.now }
    requires root { notes.old.place.items ≡ [] }
    ensures { OnOk result (Noted (λ place. IsWrong schema.now (tree.Members members.now)) notes.old notes.new) }
{
    match class_of(schema, members) {
        Some(class) => {
            let profiles = profiles_of(notes.allocator(), members)?;
            let judge = Judge {
                schema,
                profiles: profiles.as_slice(),
            };
            judge_class(&judge, patterns, class, members, notes)
        }
        None => judge_classless(members, notes),
    }
}

fn judge(
    schema: &Schema,
    patterns: &mut Patterns,
    event: &Tree,
    notes: &mut Notes,
) -> Result<(), AllocError>
    requires valid { IsValid event.now }
    requires root { notes.old.place.items ≡ [] }
    ensures { OnOk result (Noted (λ place. IsWrong schema.now event.now) notes.old notes.new) }
{
    match event {
        Tree::Members(members) => judge_body(schema, patterns, members.as_slice(), notes),
        _ => notes.add(Wrong::WrongType, "object_t"),
    }
}

/// What is wrong with the event, in order: just its violations by the schema, each once, strictly by place, rank and
/// detail. Where the schema is what the files of a bundle without a fault are compiled to, nothing is wrong just where
/// these files allow the event. Only want of memory is an error.
pub fn report(
    alloc: Global,
    schema: &Schema,
    event: &Tree,
    patterns: &mut Patterns,
) -> Result<Row<Violation>, AllocError>
    requires { IsValid event.now }
    ensures report { IfOk result (λ made. IsReport schema.now event.now (map told_violation made)) }
    ensures files { IfOk result (λ made. (bundle : Stored) → IsFaultless bundle → schema.now ≡ compilation bundle
        → ((made ≡ []) ↔ IsAllowedByFiles bundle event.now)) }
{
    let mut notes = Notes::new(alloc);
    judge(schema, patterns, event, &mut notes)?;
    in_order(alloc, notes.into_found())
}
