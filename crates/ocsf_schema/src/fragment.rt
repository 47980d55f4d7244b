// The printed fragment of an item, as a tree.
ghost use Rattle.std.specs.Prelude.{◌≡◌, ◌<◌, ◌^◌, IfOk, OnOk, IfSome, map};
ghost use Rattle.ocsf_schema.specs.Print.{words, number, type_text, object_key, attribute_tree, attribute_member};
ghost use Rattle.ocsf_schema.specs.Print.{constraints, fragment_tree};

use crate::fields::{enumeration_field, flag_field, put_field, put_word, put_words, texts_field};
use crate::{Attr, Item, Target};
use ocsf_tree::{Member, Row, Tree};
use std::alloc::{AllocError, Global};

fn category_uid_of(item: &Item) -> Option<Tree>
    ensures tree { result ≡ number item.now.category_uid }
    ensures fits { IfSome item.now.category_uid (λ uid. uid < 2 ^ 64) }
{
    match item.category_uid {
        Some(uid) => Some(Tree::Whole(i128::from(uid))),
        None => None,
    }
}

fn class_uid_of(item: &Item) -> Option<Tree>
    ensures tree { result ≡ number item.now.class_uid }
    ensures fits { IfSome item.now.class_uid (λ uid. uid < 2 ^ 64) }
{
    match item.class_uid {
        Some(uid) => Some(Tree::Whole(i128::from(uid))),
        None => None,
    }
}

fn type_of(target: &Target) -> &str
    ensures { result.now ≡ type_text target.now }
{
    match target {
        Target::Simple(name) => name.as_str(),
        Target::Object(_) | Target::Anything => "object_t",
    }
}

fn object_of(target: &Target) -> Result<Option<Tree>, AllocError>
    ensures { IfOk result (λ made. made ≡ words (object_key target.now)) }
{
    match target {
        Target::Object(key) => Ok(Some(Tree::Words(key.copy()?))),
        Target::Simple(_) | Target::Anything => Ok(None),
    }
}

fn attribute_of(alloc: Global, attr: &Attr) -> Result<Tree, AllocError>
    ensures { IfOk result (λ made. made ≡ attribute_tree attr.now) }
{
    let mut members = Row::new(alloc);
    put_words(&mut members, "caption", &attr.caption)?;
    put_words(&mut members, "description", &attr.description)?;
    put_field(
        &mut members,
        "enum",
        enumeration_field(alloc, attr.members.as_slice())?,
    )?;
    put_words(&mut members, "group", &attr.group)?;
    put_field(&mut members, "is_array", flag_field(attr.is_array))?;
    put_field(&mut members, "object", object_of(&attr.target)?)?;
    put_words(&mut members, "profile", &attr.profile)?;
    put_word(&mut members, "requirement", attr.requirement.as_str())?;
    put_words(&mut members, "sibling", &attr.sibling)?;
    put_word(&mut members, "type", type_of(&attr.target))?;
    Ok(Tree::Members(members))
}

fn attributes_of(alloc: Global, attrs: &[Attr]) -> Result<Row<Member>, AllocError>
    ensures { IfOk result (λ made. made ≡ map attribute_member attrs.now) }
{
    let mut made = Row::new(alloc);
    for attr in attrs {
        let name = attr.name.copy()?;
        let value = attribute_of(alloc, attr)?;
        made.push(Member { name, value })?;
    }
    Ok(made)
}

fn constraints_of(alloc: Global, item: &Item) -> Result<Option<Tree>, AllocError>
    ensures { IfOk result (λ made. made ≡ constraints item.now.at_least_one item.now.just_one) }
{
    if item.at_least_one.is_empty() && item.just_one.is_empty() {
        return Ok(None);
    }
    let mut members = Row::new(alloc);
    put_field(
        &mut members,
        "at_least_one",
        texts_field(alloc, item.at_least_one.as_slice())?,
    )?;
    put_field(
        &mut members,
        "just_one",
        texts_field(alloc, item.just_one.as_slice())?,
    )?;
    Ok(Some(Tree::Members(members)))
}

/// The item as it stands in the printed schema.
pub fn fragment_of(alloc: Global, item: &Item) -> Result<Tree, AllocError>
    ensures tree { IfOk result (λ made. made ≡ fragment_tree item.now) }
    ensures category_fits { OnOk result (IfSome item.now.category_uid (λ uid. uid < 2 ^ 64)) }
    ensures class_fits { OnOk result (IfSome item.now.class_uid (λ uid. uid < 2 ^ 64)) }
{
    let mut members = Row::new(alloc);
    let attributes = Tree::Members(attributes_of(alloc, item.attrs.as_slice())?);
    put_field(&mut members, "attributes", Some(attributes))?;
    put_words(&mut members, "caption", &item.caption)?;
    put_words(&mut members, "category", &item.category)?;
    put_field(&mut members, "category_uid", category_uid_of(item))?;
    put_field(&mut members, "class_uid", class_uid_of(item))?;
    put_field(&mut members, "constraints", constraints_of(alloc, item)?)?;
    put_words(&mut members, "description", &item.description)?;
    put_words(&mut members, "extends", &item.parent)?;
    put_field(&mut members, "hidden", flag_field(item.hidden))?;
    put_field(
        &mut members,
        "profiles",
        texts_field(alloc, item.profiles.as_slice())?,
    )?;
    Ok(Tree::Members(members))
}
