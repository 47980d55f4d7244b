// The entries of items, profiles and include files.
ghost use Rattle.std.specs.Prelude.{◌≡◌, Option, IfOk, unwrap_or, codes};
ghost use Rattle.ocsf_tree.specs.declared.tree.Member.{Member};
ghost use Rattle.std.specs.List.{filter_map};
ghost use Rattle.ocsf_tree.specs.Lookup.{member_at, text_at};
ghost use Rattle.ocsf_tree.specs.Valid.{IsValid, IsValidMembers};
ghost use Rattle.ocsf_raw.specs.Content.{enum_members, mark_in, entry_named, dictionary_entry_named, type_named};
ghost use Rattle.ocsf_raw.specs.Content.{category_named};

use crate::attribute::{Mark, RawAttr};
use crate::dictionary::{DictEntry, TypeEntry};
use crate::files::CategoryEntry;
use crate::members::is_include;
use crate::readers::{
    both_at, copied_at, flag_at, is_null, length_at, members_at, number_at, requirement_at,
    span_at, text_at, values_at,
};
use ocsf_tree::{EnumMember, Member, Row, Text, Tree};
use std::alloc::{AllocError, Global};

/// A record that a member of an object may give.
pub trait Entry: Drop {
    /// What the member gives.
    ghost given_by: { Member → Option Self };

    fn from_member(alloc: Global, member: &Member) -> Result<Option<Self>, AllocError>
        requires { IsValid member.now.value }
        ensures { IfOk result (λ found. found ≡ given_by member.now) };
}

/// What the members give, in their order.
pub fn entries<T: Entry>(alloc: Global, members: &[Member]) -> Result<Row<T>, AllocError>
    requires { IsValidMembers members.now }
    ensures { IfOk result (λ made. made ≡ filter_map T.given_by members.now) }
{
    let mut made = Row::with_capacity(alloc, members.len())?;
    for member in members {
        let Some(entry) = T::from_member(alloc, member)? else {
            continue;
        };
        made.push(entry)?;
    }
    Ok(made)
}

// The key is the caption where none is given.
fn caption_or_key(tree: &Tree, key: &Text) -> Result<Text, AllocError>
    requires { IsValid tree.now }
    ensures { IfOk result (λ made. made ≡ unwrap_or (text_at (codes "caption") tree.now) key.now) }
{
    match text_at("caption", tree) {
        Some(caption) => caption.copy(),
        None => key.copy(),
    }
}

impl Entry for EnumMember {
    ghost use Rattle.ocsf_raw.specs.Content.{enum_member};

    ghost given_by = { enum_member };

    fn from_member(_alloc: Global, member: &Member) -> Result<Option<EnumMember>, AllocError> {
        if is_include(member.name.as_str()) || is_null(&member.value) {
            return Ok(None);
        }
        Ok(Some(EnumMember {
            key: member.name.copy()?,
            caption: caption_or_key(&member.value, &member.name)?,
            description: copied_at(&member.value, "description")?,
        }))
    }
}

fn enum_members(alloc: Global, tree: &Tree) -> Result<Row<EnumMember>, AllocError>
    requires { IsValid tree.now }
    ensures { IfOk result (λ made. made ≡ enum_members tree.now) }
{
    entries(alloc, members_at(tree, "enum"))
}

fn mark_at(tree: &Tree) -> Result<Mark, AllocError>
    requires { IsValid tree.now }
    ensures { IfOk result (λ made. made ≡ mark_in (member_at (codes "profile") tree.now)) }
{
    match tree.at("profile") {
        Some(Tree::Null) => Ok(Mark::Cleared),
        Some(Tree::Words(name)) => Ok(Mark::Named(name.copy()?)),
        _ => Ok(Mark::Unsaid),
    }
}

fn entry_named(alloc: Global, name: &Text, tree: &Tree) -> Result<RawAttr, AllocError>
    requires { IsValid tree.now }
    ensures { IfOk result (λ made. made ≡ entry_named name.now tree.now) }
{
    let (caption, description) = both_at(tree, "caption", "description")?;
    let (type_name, sibling) = both_at(tree, "type", "sibling")?;
    let group = copied_at(tree, "group")?;
    let mark = mark_at(tree)?;
    let members = enum_members(alloc, tree)?;
    Ok(RawAttr {
        name: name.copy()?,
        removed: is_null(tree),
        caption,
        description,
        type_name,
        is_array: flag_at(tree, "is_array"),
        members,
        sibling,
        requirement: requirement_at(tree, "requirement"),
        mark,
        group,
    })
}

impl Entry for RawAttr {
    ghost use Rattle.ocsf_raw.specs.Content.{entry};

    ghost given_by = { entry };

    fn from_member(alloc: Global, member: &Member) -> Result<Option<RawAttr>, AllocError> {
        if is_include(member.name.as_str()) {
            return Ok(None);
        }
        Ok(Some(entry_named(alloc, &member.name, &member.value)?))
    }
}

fn dictionary_entry_named(alloc: Global, name: &Text, tree: &Tree) -> Result<DictEntry, AllocError>
    requires { IsValid tree.now }
    ensures { IfOk result (λ made. made ≡ dictionary_entry_named name.now tree.now) }
{
    let (caption, description) = both_at(tree, "caption", "description")?;
    let (type_name, sibling) = both_at(tree, "type", "sibling")?;
    let members = enum_members(alloc, tree)?;
    Ok(DictEntry {
        name: name.copy()?,
        caption,
        description,
        type_name,
        is_array: flag_at(tree, "is_array"),
        members,
        sibling,
    })
}

impl Entry for DictEntry {
    ghost use Rattle.ocsf_raw.specs.Content.{listed_attribute};

    ghost given_by = { listed_attribute };

    fn from_member(alloc: Global, member: &Member) -> Result<Option<DictEntry>, AllocError> {
        if is_null(&member.value) {
            return Ok(None);
        }
        Ok(Some(dictionary_entry_named(alloc, &member.name, &member.value)?))
    }
}

fn type_named(name: &Text, tree: &Tree) -> Result<TypeEntry, AllocError>
    requires { IsValid tree.now }
    ensures { IfOk result (λ made. made ≡ type_named name.now tree.now) }
{
    let (caption, description) = both_at(tree, "caption", "description")?;
    let (parent, pattern) = both_at(tree, "type", "regex")?;
    let values = values_at(tree, "values")?;
    Ok(TypeEntry {
        name: name.copy()?,
        caption,
        description,
        parent,
        pattern,
        range: span_at(tree, "range"),
        max_len: length_at(tree, "max_len"),
        values,
    })
}

impl Entry for TypeEntry {
    ghost use Rattle.ocsf_raw.specs.Content.{listed_type};

    ghost given_by = { listed_type };

    fn from_member(_alloc: Global, member: &Member) -> Result<Option<TypeEntry>, AllocError> {
        if is_null(&member.value) {
            return Ok(None);
        }
        Ok(Some(type_named(&member.name, &member.value)?))
    }
}

fn category_named(name: &Text, tree: &Tree) -> Result<CategoryEntry, AllocError>
    requires { IsValid tree.now }
    ensures { IfOk result (λ made. made ≡ category_named name.now tree.now) }
{
    Ok(CategoryEntry {
        name: name.copy()?,
        caption: copied_at(tree, "caption")?,
        description: copied_at(tree, "description")?,
        uid: number_at(tree, "uid").unwrap_or(0),
    })
}

impl Entry for CategoryEntry {
    ghost use Rattle.ocsf_raw.specs.Content.{listed_category};

    ghost given_by = { listed_category };

    fn from_member(_alloc: Global, member: &Member) -> Result<Option<CategoryEntry>, AllocError> {
        if is_null(&member.value) {
            return Ok(None);
        }
        Ok(Some(category_named(&member.name, &member.value)?))
    }
}
