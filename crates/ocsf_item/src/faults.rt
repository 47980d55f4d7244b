// What is wrong with an item, but for its chain and its layers.
ghost use Rattle.std.specs.Prelude.{◌≡◌, ◌++◌, IfOk, flat_map, codes};
ghost use Rattle.ocsf_lists.specs.ByName.{IsByName};
ghost use Rattle.ocsf_tree.specs.LeastFault.{least_from};
ghost use Rattle.ocsf_rules.specs.ItemFaults.{
  leads_fault,
  missing_category,
  absent_fault,
  activity_fault,
  activities_faults,
  size_fault,
  type_text,
};
ghost use Rattle.ocsf_walk.specs.Typed.{type_lent};
ghost use Rattle.std.specs.Option.{option_map};

use crate::leads::Leads;
use ocsf_merge::Spoken;
use ocsf_rules::{Category, Written};
use ocsf_tree::{Code, EnumMember, Fault, Key, Text, find_by_name};
use ocsf_walk::{TypeLent, small_number, with_fault};
use std::alloc::{AllocError, Global};

/// The attribute and its type, as a fault names them.
fn type_name(alloc: Global, name: &str, written: Option<TypeLent<'_>>) -> Result<Text, AllocError>
    ensures { IfOk result (λ made. made ≡ name.now ++ codes " " ++ type_text (option_map type_lent written.entry)) }
{
    let mut text = String::from_str(alloc, name)?;
    text.push_str(" ")?;
    if let Some(written) = written {
        text.push_str(written.name.as_str())?;
        return Text::from_string(text);
    }
    Text::from_string(text)
}

/// The least fault with that of an attribute, if it has one.
pub(crate) fn with_attribute(
    least: Option<Fault>,
    key: &Key,
    name: &str,
    leads: &Leads,
    written: Option<TypeLent<'_>>,
) -> Result<Option<Fault>, AllocError>
    ensures { IfOk result (λ made. made ≡ least_from least
        (leads_fault key.now name.now leads.now.there leads.now.target (option_map type_lent written.entry))) }
{
    if !leads.there {
        return with_fault(least, Code::AttributeUnknown, key, name);
    }
    if leads.target.is_some() {
        return Ok(least);
    }
    let name = type_name(key.name.allocator(), name, written)?;
    with_fault(least, Code::KindUnknown, key, name.as_str())
}

/// The least fault with that of the category, if there is one.
pub(crate) fn with_category(
    least: Option<Fault>,
    key: &Key,
    category: &Option<Category>,
    written: &Option<Written>,
    uid: Option<u32>,
) -> Result<Option<Fault>, AllocError>
    ensures { IfOk result (λ made. made ≡ least_from least (missing_category key.now category.now written.now uid)) }
{
    if category.is_some() {
        return Ok(least);
    }
    if let Some(written) = written {
        return with_fault(least, Code::CategoryUnknown, key, written.name.as_str());
    }
    if uid.is_some() {
        return with_fault(least, Code::CategoryUnknown, key, "");
    }
    Ok(least)
}

/// The least fault with that of a constraint's attribute, if it isn't present.
fn with_constraint(
    least: Option<Fault>,
    key: &Key,
    rows: &[Spoken],
    name: &Text,
) -> Result<Option<Fault>, AllocError>
    requires { IsByName (λ row. row.attr.name) rows.now }
    ensures { IfOk result (λ made. made ≡ least_from least (absent_fault key.now rows.now name.now)) }
{
    if find_by_name(rows, name.as_str()).is_some() {
        return Ok(least);
    }
    with_fault(least, Code::ConstraintUnknown, key, name.as_str())
}

/// The least fault with those of a constraint.
pub(crate) fn with_constraints(
    least: Option<Fault>,
    key: &Key,
    rows: &[Spoken],
    names: &[Text],
) -> Result<Option<Fault>, AllocError>
    requires { IsByName (λ row. row.attr.name) rows.now }
    ensures { IfOk result (λ made. made ≡ least_from least (flat_map (absent_fault key.now rows.now) names.now)) }
{
    let mut least = least;
    for name in names {
        least = with_constraint(least, key, rows, name)?;
    }
    Ok(least)
}

/// The least fault with that of an activity, if its key is no number.
fn with_activity(
    least: Option<Fault>,
    key: &Key,
    activity: &EnumMember,
) -> Result<Option<Fault>, AllocError>
    ensures { IfOk result (λ made. made ≡ least_from least (activity_fault key.now activity.now)) }
{
    if small_number(activity.key.as_str()).is_some() {
        return Ok(least);
    }
    with_fault(least, Code::EnumKey, key, activity.key.as_str())
}

/// The least fault with those of the activities of a class that has a number.
pub(crate) fn with_activities(
    least: Option<Fault>,
    key: &Key,
    uid: Option<u32>,
    activities: &[EnumMember],
) -> Result<Option<Fault>, AllocError>
    ensures { IfOk result (λ made. made ≡ least_from least (activities_faults key.now uid activities.now)) }
{
    if uid.is_none() {
        return Ok(least);
    }
    let mut least = least;
    for activity in activities {
        least = with_activity(least, key, activity)?;
    }
    Ok(least)
}

/// The least fault with that of too many attributes.
pub(crate) fn with_size(
    least: Option<Fault>,
    key: &Key,
    rows: &[Spoken],
) -> Result<Option<Fault>, AllocError>
    ensures { IfOk result (λ made. made ≡ least_from least (size_fault key.now rows.now)) }
{
    if rows.len() > 1024 {
        return with_fault(least, Code::AttributeLimit, key, "1024");
    }
    Ok(least)
}

/// The least fault with those of both constraints and of too many attributes.
pub(crate) fn with_rest(
    least: Option<Fault>,
    key: &Key,
    rows: &[Spoken],
    at_least_one: &[Text],
    just_one: &[Text],
) -> Result<Option<Fault>, AllocError>
    requires { IsByName (λ row. row.attr.name) rows.now }
    ensures { IfOk result (λ made. made
        ≡ least_from (least_from (least_from least (flat_map (absent_fault key.now rows.now) at_least_one.now))
        (flat_map (absent_fault key.now rows.now) just_one.now)) (size_fault key.now rows.now)) }
{
    let least = with_constraints(least, key, rows, at_least_one)?;
    let least = with_constraints(least, key, rows, just_one)?;
    with_size(least, key, rows)
}
