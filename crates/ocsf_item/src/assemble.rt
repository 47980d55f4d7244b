// An item from its parts.
ghost use Rattle.std.specs.Prelude.{◌≡◌, [], IfOk, IfSome, unwrap_or};
ghost use Rattle.std.specs.Option.{option_map};
ghost use Rattle.ocsf_lists.specs.FirstOfEach.{first_of_each};
ghost use Rattle.ocsf_rules.specs.declared.category.Category.{Category};
ghost use Rattle.ocsf_item.specs.Assembled.{item_from};
ghost use Rattle.ocsf_walk.specs.Ranges.{IsCategoryInRange};

use crate::categories::category_number;
use crate::own::Own;
use ocsf_rules::Category;
use ocsf_schema::{Attr, Item};
use ocsf_tree::{Key, Row, Text, TryClone, first_of_each};
use std::alloc::{AllocError, Global};

/// The key of the category.
fn category_key(category: Option<Category>) -> Option<Text>
    ensures { result ≡ option_map (λ (c : Category). c.key) category }
{
    match category {
        Some(category) => Some(category.key),
        None => None,
    }
}

/// The list, which is empty where none is given.
pub(crate) fn list_or_none(alloc: Global, list: Option<Row<Text>>) -> Row<Text>
    ensures { result ≡ unwrap_or list [] }
{
    match list {
        Some(list) => list,
        None => Row::new(alloc),
    }
}

/// The lists of names of an item.
#[derive(Drop)]
pub(crate) struct Lists {
    /// The profiles of the layers, as they come.
    pub profiles: Row<Text>,
    pub at_least_one: Row<Text>,
    pub just_one: Row<Text>,
}

/// What an item is made of.
#[derive(Drop)]
pub(crate) struct Parts {
    pub own: Own,
    pub category: Option<Category>,
    /// The number of a class.
    pub number: Option<u64>,
    pub lists: Lists,
    pub attrs: Row<Attr>,
}

/// The key of an item, and the profiles of its layers, each once.
#[derive(Drop)]
struct Headed {
    key: Key,
    profiles: Row<Text>,
}

fn head_of(alloc: Global, key: &Key, profiles: &[Text]) -> Result<Headed, AllocError>
    ensures key { IfOk result (λ made. made.key ≡ key.now) }
    ensures profiles { IfOk result (λ made. made.profiles ≡ first_of_each (λ p. p) profiles.now) }
{
    let profiles = first_of_each(alloc, profiles)?;
    let key = key.try_clone()?;
    Ok(Headed { key, profiles })
}

/// The item of these parts.
pub(crate) fn assembled(
    alloc: Global,
    key: &Key,
    parent: Option<Text>,
    parts: Parts,
) -> Result<Item, AllocError>
    requires { IfSome parts.category IsCategoryInRange }
    ensures { IfOk result (λ made. made ≡ item_from key.now parent parts.own parts.category parts.number
        parts.lists.profiles parts.lists.at_least_one parts.lists.just_one parts.attrs) }
{
    let Parts {
        own,
        category,
        number,
        lists,
        attrs,
    } = parts;
    let head = head_of(alloc, key, lists.profiles.as_slice())?;
    let category_uid = category_number(&category);
    let category = category_key(category);
    Ok(Item {
        key: head.key,
        caption: own.caption,
        description: own.description,
        parent,
        hidden: own.hidden,
        category,
        category_uid,
        class_uid: number,
        profiles: head.profiles,
        at_least_one: lists.at_least_one,
        just_one: lists.just_one,
        attrs,
    })
}
