// What is judged of an event as a whole: the number of its type, and the profiles that it names.
ghost use Rattle.std.specs.Prelude.{◌≡◌, ◌∷◌, [], IfOk, OnOk, codes};
ghost use Rattle.std.specs.Option.{option_copied, option_and_then};
ghost use Rattle.ocsf_tree.specs.Lookup.{member_at, member_in};
ghost use Rattle.ocsf_tree.specs.declared.tree.Tree.TheVariants as tree;
ghost use Rattle.ocsf_tree.specs.Valid.{IsValid, IsValidMembers};
ghost use Rattle.ocsf_tree.specs.declared.place.Step.TheVariants.{Name};
ghost use Rattle.ocsf_event_rules.specs.Profiles.{as_list};
ghost use Rattle.ocsf_event_rules.specs.Conditions.{expected_type};
ghost use Rattle.ocsf_event_rules.specs.Violations.{profile_place};
ghost use Rattle.ocsf_event.specs.Noted.{Noted};
ghost use Rattle.ocsf_event.specs.Walk.{IsSmall, IsMismatch, IsNoProfile, AreNoProfiles, IsAmiss};

use crate::members::{find, whole_at};
use crate::notes::Notes;
use crate::violation::Wrong;
use ocsf_schema::Schema;
use ocsf_tree::{Member, Place, Row, Step, Text, Tree};
use std::alloc::{AllocError, Global};

pub(crate) fn at_root(alloc: Global, name: &str) -> Result<Place, AllocError>
    ensures { IfOk result (λ place. place.steps ≡ Name name.now ∷ []) }
{
    let mut steps = Row::new(alloc);
    steps.push(Step::Name(Text::of(alloc, name)?))?;
    Ok(Place { steps })
}

fn profile_place(alloc: Global, position: u64) -> Result<Place, AllocError>
    ensures { IfOk result (λ place. place.steps ≡ profile_place position) }
{
    let mut steps = Row::new(alloc);
    steps.push(Step::Name(Text::of(alloc, "metadata")?))?;
    steps.push(Step::Name(Text::of(alloc, "profiles")?))?;
    steps.push(Step::At(position))?;
    Ok(Place { steps })
}

fn listed_at<'a>(value: &'a Tree, name: &str) -> Option<&'a Row<Tree>>
    requires { IsValid value.now }
    ensures { option_copied result ≡ option_and_then as_list (member_at name.now value.now) }
{
    match value.at(name) {
        Some(Tree::List(items)) => Some(items),
        _ => None,
    }
}

/// The list that an event of these members has at `metadata.profiles`, where there is one.
pub(crate) fn profile_list(members: &[Member]) -> Option<&Row<Tree>>
    requires { IsValidMembers members.now }
    ensures { option_copied result ≡ option_and_then as_list
        (option_and_then (member_at (codes "profiles")) (member_in (codes "metadata") members.now)) }
{
    match find(members, "metadata") {
        Some(metadata) => listed_at(metadata, "profiles"),
        None => None,
    }
}

fn expected_type(class: u64, activity: i128) -> i128
    requires { IsSmall activity }
    ensures { result ≡ expected_type class activity }
{
    i128::from(class) * 100 + activity
}

fn judge_number(number: u64, members: &[Member], notes: &mut Notes) -> Result<(), AllocError>
    requires { IsValidMembers members.now }
    ensures { OnOk result (Noted (λ place. IsMismatch number members.now) notes.old notes.new) }
{
    let Some(given) = whole_at(members, "type_uid") else {
        return Ok(());
    };
    let Some(activity) = whole_at(members, "activity_id") else {
        return Ok(());
    };
    let expected = expected_type(number, activity);
    if given == expected {
        return Ok(());
    }
    let alloc = notes.allocator();
    let detail = expected.to_string(alloc)?;
    notes.put(
        at_root(alloc, "type_uid")?,
        Wrong::NumberMismatch,
        detail.as_str(),
    )
}

fn judge_profile(
    schema: &Schema,
    position: u64,
    item: &Tree,
    notes: &mut Notes,
) -> Result<(), AllocError>
    ensures { OnOk result (Noted (λ place. IsNoProfile schema.now position item.now) notes.old notes.new) }
{
    let Tree::Words(profile) = item else {
        return Ok(());
    };
    if schema.has_profile(profile.as_str()) {
        return Ok(());
    }
    let place = profile_place(notes.allocator(), position)?;
    notes.put(place, Wrong::ProfileUnknown, profile.as_str())
}

fn judge_profiles(schema: &Schema, items: &[Tree], notes: &mut Notes) -> Result<(), AllocError>
    ensures { OnOk result (Noted (λ place. AreNoProfiles schema.now items.now) notes.old notes.new) }
{
    for (index, item) in items.iter().enumerate() {
        judge_profile(schema, index as u64, item, notes)?;
    }
    Ok(())
}

/// What is wrong with the event as a whole.
pub(crate) fn judge_event(
    schema: &Schema,
    number: u64,
    members: &[Member],
    notes: &mut Notes,
) -> Result<(), AllocError>
    requires { IsValidMembers members.now }
    ensures { OnOk result (Noted (λ place. IsAmiss schema.now (tree.Members members.now) number members.now)
        notes.old notes.new) }
{
    judge_number(number, members, notes)?;
    match profile_list(members) {
        Some(items) => judge_profiles(schema, items.as_slice(), notes),
        None => Ok(()),
    }
}
