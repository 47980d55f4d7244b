// What the files of each form hold.
ghost use Rattle.std.specs.Prelude.{◌≡◌, [], IfOk, unwrap_or, option_and_then, codes};
ghost use Rattle.ocsf_tree.specs.declared.tree.Tree.{out-Tree};
ghost use Rattle.ocsf_tree.specs.Lookup.{member_at};
ghost use Rattle.ocsf_tree.specs.Valid.{IsValid, IsValidMembers};
ghost use Rattle.ocsf_tree.specs.Requirement.{requirement_named};
ghost use Rattle.ocsf_raw.specs.Content.{texts_at, type_members, dictionary_file, includes_of, includes, constraint_at};
ghost use Rattle.ocsf_raw.specs.Content.{item_uid, item_file, annotation_text, profile_file, extension_file, content};

use crate::dictionary::DictFile;
use crate::entries::entries;
use crate::files::{ExtFile, ItemFile, ProfileFile, RawFile};
use crate::path_form::Form;
use crate::readers::{
    both_at, copied_at, copied_or_empty, members_at, number_at, requirement_at, texts_at, texts_in,
};
use ocsf_tree::{Member, Requirement, Row, Side, Text, Tree};
use std::alloc::{AllocError, Global};

/// The names of both constraints, where they are given.
type Constraints = (Option<Row<Text>>, Option<Row<Text>>);

fn type_members(tree: &Tree) -> &[Member]
    requires { IsValid tree.now }
    ensures found { result.now ≡ type_members (member_at (codes "types") tree.now) }
    ensures valid { IsValidMembers result.now }
{
    match tree.at("types") {
        Some(table) => members_at(table, "attributes"),
        None => &[],
    }
}

fn dictionary_file(alloc: Global, tree: &Tree) -> Result<DictFile, AllocError>
    requires { IsValid tree.now }
    ensures { IfOk result (λ made. made ≡ dictionary_file tree.now) }
{
    Ok(DictFile {
        attributes: entries(alloc, members_at(tree, "attributes"))?,
        types: entries(alloc, type_members(tree))?,
    })
}

fn includes_of(alloc: Global, tree: &Tree) -> Result<Row<Text>, AllocError>
    ensures { IfOk result (λ made. made ≡ includes_of (out-Tree tree.now)) }
{
    match tree {
        Tree::Words(path) => {
            let mut made = Row::new(alloc);
            made.push(path.copy()?)?;
            Ok(made)
        }
        Tree::List(items) => texts_in(alloc, items.as_slice()),
        _ => Ok(Row::new(alloc)),
    }
}

fn includes(alloc: Global, tree: &Tree) -> Result<Row<Text>, AllocError>
    requires { IsValid tree.now }
    ensures { IfOk result (λ made. made ≡ includes tree.now) }
{
    let Some(attributes) = tree.at("attributes") else {
        return Ok(Row::new(alloc));
    };
    match attributes.at("$include") {
        Some(paths) => includes_of(alloc, paths),
        None => Ok(Row::new(alloc)),
    }
}

fn constraint_at(alloc: Global, tree: &Tree, name: &str) -> Result<Option<Row<Text>>, AllocError>
    requires { IsValid tree.now }
    ensures { IfOk result (λ made. made ≡ constraint_at name.now tree.now) }
{
    match tree.at("constraints") {
        Some(constraints) => texts_at(alloc, constraints, name),
        None => Ok(None),
    }
}

fn item_uid(side: Side, tree: &Tree) -> Option<u32>
    requires { IsValid tree.now }
    ensures { result ≡ item_uid side tree.now }
{
    match side {
        Side::Class => number_at(tree, "uid"),
        Side::Object => None,
    }
}

fn profiles(alloc: Global, tree: &Tree) -> Result<Row<Text>, AllocError>
    requires { IsValid tree.now }
    ensures { IfOk result (λ made. made ≡ unwrap_or (texts_at (codes "profiles") tree.now) []) }
{
    match texts_at(alloc, tree, "profiles")? {
        Some(names) => Ok(names),
        None => Ok(Row::new(alloc)),
    }
}

/// The profiles and the includes of an item.
fn lists_at(alloc: Global, tree: &Tree) -> Result<(Row<Text>, Row<Text>), AllocError>
    requires { IsValid tree.now }
    ensures profiles { IfOk result (λ made. made.0 ≡ unwrap_or (texts_at (codes "profiles") tree.now) []) }
    ensures includes { IfOk result (λ made. made.1 ≡ includes tree.now) }
{
    let profiles = profiles(alloc, tree)?;
    let includes = includes(alloc, tree)?;
    Ok((profiles, includes))
}

/// The constraints `at_least_one` and `just_one`.
fn constraints_at(alloc: Global, tree: &Tree) -> Result<Constraints, AllocError>
    requires { IsValid tree.now }
    ensures at_least_one { IfOk result (λ made. made.0 ≡ constraint_at (codes "at_least_one") tree.now) }
    ensures just_one { IfOk result (λ made. made.1 ≡ constraint_at (codes "just_one") tree.now) }
{
    let at_least_one = constraint_at(alloc, tree, "at_least_one")?;
    let just_one = constraint_at(alloc, tree, "just_one")?;
    Ok((at_least_one, just_one))
}

fn item_file(alloc: Global, side: Side, tree: &Tree) -> Result<ItemFile, AllocError>
    requires { IsValid tree.now }
    ensures { IfOk result (λ made. made ≡ item_file side tree.now) }
{
    let (name, parent) = both_at(tree, "name", "extends")?;
    let (caption, description) = both_at(tree, "caption", "description")?;
    let category = copied_at(tree, "category")?;
    let (profiles, includes) = lists_at(alloc, tree)?;
    let (at_least_one, just_one) = constraints_at(alloc, tree)?;
    let attributes = entries(alloc, members_at(tree, "attributes"))?;
    Ok(ItemFile {
        side,
        name,
        caption,
        description,
        parent,
        category,
        uid: item_uid(side, tree),
        profiles,
        includes,
        attributes,
        at_least_one,
        just_one,
    })
}

fn annotated_group(tree: &Tree) -> Result<Option<Text>, AllocError>
    requires { IsValid tree.now }
    ensures { IfOk result (λ made. made ≡ annotation_text (codes "group") tree.now) }
{
    match tree.at("annotations") {
        Some(annotations) => copied_at(annotations, "group"),
        None => Ok(None),
    }
}

fn annotated_requirement(tree: &Tree) -> Option<Requirement>
    requires { IsValid tree.now }
    ensures { result ≡
        option_and_then requirement_named (annotation_text (codes "requirement") tree.now) }
{
    match tree.at("annotations") {
        Some(annotations) => requirement_at(annotations, "requirement"),
        None => None,
    }
}

fn profile_file(alloc: Global, tree: &Tree) -> Result<ProfileFile, AllocError>
    requires { IsValid tree.now }
    ensures { IfOk result (λ made. made ≡ profile_file tree.now) }
{
    let name = copied_or_empty(alloc, tree, "name")?;
    let (caption, description) = both_at(tree, "caption", "description")?;
    let group = annotated_group(tree)?;
    let attributes = entries(alloc, members_at(tree, "attributes"))?;
    Ok(ProfileFile {
        name,
        caption,
        description,
        group,
        requirement: annotated_requirement(tree),
        attributes,
    })
}

fn extension_file(alloc: Global, tree: &Tree) -> Result<ExtFile, AllocError>
    requires { IsValid tree.now }
    ensures { IfOk result (λ made. made ≡ extension_file tree.now) }
{
    Ok(ExtFile {
        name: copied_or_empty(alloc, tree, "name")?,
        uid: number_at(tree, "uid").unwrap_or(0),
        caption: copied_at(tree, "caption")?,
        version: copied_at(tree, "version")?,
    })
}

/// The record of a file of that form.
pub fn content(alloc: Global, form: Form, tree: &Tree) -> Result<RawFile, AllocError>
    requires { IsValid tree.now }
    ensures { IfOk result (λ made. made ≡ content form tree.now) }
{
    match form {
        Form::Version => Ok(RawFile::Version(copied_or_empty(alloc, tree, "version")?)),
        Form::Categories => Ok(RawFile::Categories(entries(
            alloc,
            members_at(tree, "attributes"),
        )?)),
        Form::Dictionary => Ok(RawFile::Dictionary(dictionary_file(alloc, tree)?)),
        Form::Item(side) => Ok(RawFile::Item(item_file(alloc, side, tree)?)),
        Form::Profile => Ok(RawFile::Profile(profile_file(alloc, tree)?)),
        Form::Include => Ok(RawFile::Include(entries(alloc, members_at(tree, "attributes"))?)),
        Form::Extension => Ok(RawFile::Extension(extension_file(alloc, tree)?)),
    }
}
