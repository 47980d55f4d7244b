// The enumerations that are computed.
ghost use Rattle.std.specs.Prelude.{◌≡◌, ◌≤◌, ◌∷◌, [], ◌-◌, true, None, Some, IfOk, IfSome, decimal, if◌then◌else◌};
ghost use Rattle.std.specs.Char.{is_ascii_digit};
ghost use Rattle.ocsf_rules.specs.Compiled.{
  bare_member,
  category_members,
  type_member,
  type_members,
  computed,
  computed_members,
};
ghost use Rattle.ocsf_rules.specs.ItemFaults.{is_small_decimal};
ghost use Rattle.ocsf_walk.specs.Ranges.{IsCategoryInRange, IsNumberedInRange, are_small};
ghost use Rattle.ocsf_walk.specs.Digits.{small_number, numbered_by};

use ocsf_kind::type_uid;
use ocsf_rules::{Category, Numbered};
use ocsf_tree::{EnumMember, Row, Text, TryClone, first_of_each};
use std::alloc::{AllocError, Global};

/// The value of the digit, if it is one.
fn digit(byte: u8) -> Option<u32>
    ensures { result ≡ (if is_ascii_digit byte then Some (byte - 48) else None) }
{
    if byte.is_ascii_digit() {
        Some(u32::from(byte - b'0'))
    } else {
        None
    }
}

/// The number that a decimal from 0 to 99 without leading zeros writes.
pub fn small_number(key: &str) -> Option<u32>
    ensures number { result ≡ small_number key.now }
    ensures range { IfSome result (λ number. number ≤ 99) }
{
    let bytes = key.as_bytes();
    if let [first, rest @ ..] = bytes {
        if let [second, more @ ..] = rest {
            if let [_, ..] = more {
                return None;
            }
            if *first == b'0' {
                return None;
            }
            let tens = digit(*first)?;
            let ones = digit(*second)?;
            return Some(tens * 10 + ones);
        }
        return digit(*first);
    }
    None
}

/// Whether each key is a decimal from 0 to 99.
fn are_small(activities: &[EnumMember]) -> bool
    ensures { result ≡ are_small activities.now }
{
    for activity in activities {
        if small_number(activity.key.as_str()).is_none() {
            return false;
        }
    }
    true
}

fn decimal(alloc: Global, number: u64) -> Result<Text, AllocError>
    ensures { IfOk result (λ made. made ≡ decimal number) }
{
    let made = format!(in alloc; "{number}")?;
    Text::from_string(made)
}

fn one_member(alloc: Global, number: u64, caption: Text) -> Result<Row<EnumMember>, AllocError>
    ensures { IfOk result (λ made. made ≡ bare_member (decimal number) caption ∷ []) }
{
    let key = decimal(alloc, number)?;
    let mut made = Row::new(alloc);
    made.push(EnumMember {
        key,
        caption,
        description: None,
    })?;
    Ok(made)
}

/// The number of the category, with its caption, or its key where it has none.
fn category_members(alloc: Global, category: &Category) -> Result<Row<EnumMember>, AllocError>
    requires { IsCategoryInRange category.now }
    ensures { IfOk result (λ made. made ≡ category_members category.now) }
{
    let number = u64::from(category.ext_uid) * 100 + u64::from(category.uid);
    let caption = match &category.caption {
        Some(caption) => caption.copy()?,
        None => category.key.copy()?,
    };
    one_member(alloc, number, caption)
}

/// The number of an activity of the class, with both captions.
fn type_member(
    alloc: Global,
    number: u64,
    caption: &Text,
    activity: &EnumMember,
) -> Result<EnumMember, AllocError>
    requires number { number ≤ 99999999 }
    requires activity { is_small_decimal activity.now.key ≡ true }
    ensures { IfOk result (λ made. made ≡ type_member number caption.now activity.now) }
{
    let activity_number = small_number(activity.key.as_str()).unwrap_or(0);
    let key = decimal(alloc, type_uid(number, activity_number))?;
    let mut text = String::from_str(alloc, caption.as_str())?;
    text.push_str(": ")?;
    text.push_str(activity.caption.as_str())?;
    Ok(EnumMember {
        key,
        caption: Text::from_string(text)?,
        description: None,
    })
}

/// The numbers of the activities of the class.
fn type_members(
    alloc: Global,
    number: u64,
    caption: &Text,
    activities: &[EnumMember],
) -> Result<Row<EnumMember>, AllocError>
    requires number { number ≤ 99999999 }
    requires activities { are_small activities.now ≡ true }
    ensures { IfOk result (λ made. made ≡ type_members number caption.now activities.now) }
{
    let mut members = Row::new(alloc);
    for activity in activities {
        members.push(type_member(alloc, number, caption, activity)?)?;
    }
    let made = first_of_each(alloc, members.as_slice())?;
    Ok(made)
}

/// The computed enumeration of the attribute in such a class.
fn computed_members(
    alloc: Global,
    numbered: &Numbered,
    name: &str,
) -> Result<Option<Row<EnumMember>>, AllocError>
    requires { IsNumberedInRange numbered.now }
    ensures { IfOk result (λ made. made ≡ computed_members numbered.now name.now) }
{
    let number = numbered.number;
    if name == "class_uid" {
        let members = one_member(alloc, number, numbered.caption.copy()?)?;
        return Ok(Some(members));
    }
    if name == "category_uid" {
        let members = category_members(alloc, &numbered.category)?;
        return Ok(Some(members));
    }
    if name == "type_uid" {
        let activities = numbered.activities.as_slice();
        let members = type_members(alloc, number, &numbered.caption, activities)?;
        return Ok(Some(members));
    }
    Ok(None)
}

/// The computed enumeration of the attribute, if it has one.
pub fn computed(
    alloc: Global,
    numbered: &Option<Numbered>,
    name: &str,
) -> Result<Option<Row<EnumMember>>, AllocError>
    requires { IfSome numbered.now IsNumberedInRange }
    ensures { IfOk result (λ made. made ≡ computed numbered.now name.now) }
{
    match numbered {
        Some(numbered) => computed_members(alloc, numbered, name),
        None => Ok(None),
    }
}

/// What the enumerations are computed from, where each activity is a decimal from 0 to 99.
pub fn numbered_by(
    number: Option<u64>,
    caption: Text,
    category: &Option<Category>,
    activities: Row<EnumMember>,
) -> Result<Option<Numbered>, AllocError>
    requires number { IfSome number (λ number. number ≤ 99999999) }
    requires category { IfSome category.now IsCategoryInRange }
    ensures numbered { are_small activities ≡ true
        → IfOk result (λ made. made ≡ numbered_by number caption category.now activities) }
    ensures none { number ≡ None → IfOk result (λ made. made ≡ None) }
    ensures range { IfOk result (λ made. IfSome made IsNumberedInRange) }
{
    if !are_small(activities.as_slice()) {
        return Ok(None);
    }
    if let Some(number) = number {
        if let Some(category) = category {
            let category = category.try_clone()?;
            return Ok(Some(Numbered {
                number,
                caption,
                category,
                activities,
            }));
        }
        return Ok(None);
    }
    Ok(None)
}
