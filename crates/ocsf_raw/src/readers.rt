// Members read as texts, numbers, flags and lists.
ghost use Rattle.std.specs.Prelude.{◌≡◌, ◌^◌, map, IfOk, unwrap_or, option_map, option_and_then};
ghost use Rattle.std.specs.Option.{option_copied};
ghost use Rattle.std.specs.List.{filter_map};
ghost use Rattle.ocsf_tree.specs.declared.tree.Tree.{out-Tree};
ghost use Rattle.ocsf_tree.specs.Valid.{IsValid, IsValidMembers};
ghost use Rattle.ocsf_tree.specs.Lookup.{text_of, text_at, is_null};
ghost use Rattle.ocsf_raw.specs.Content.{flag_at, natural_below, natural_at, requirement_at, list_at, texts_in};
ghost use Rattle.ocsf_raw.specs.Content.{texts_at, object_at, members_at, span_at, whole_pair, text_or_empty};

use ocsf_tree::{Member, Requirement, Row, Span, Text, Tree, TryClone};
use std::alloc::{AllocError, Global};

// The members of an object by their kind. Each reader gives what is there, and nothing where a member
// is absent, `null` or of another kind.

pub fn is_null(tree: &Tree) -> bool
    ensures { result ≡ is_null (out-Tree tree.now) }
{
    matches!(tree, Tree::Null)
}

/// The member of that name, where it is a text.
pub fn text_at<'a>(name: &str, tree: &'a Tree) -> Option<&'a Text>
    requires { IsValid tree.now }
    ensures { option_copied result ≡ text_at name.now tree.now }
{
    match tree.at(name) {
        Some(Tree::Words(text)) => Some(text),
        _ => None,
    }
}

pub fn copied_at(tree: &Tree, name: &str) -> Result<Option<Text>, AllocError>
    requires { IsValid tree.now }
    ensures { IfOk result (λ made. made ≡ text_at name.now tree.now) }
{
    match text_at(name, tree) {
        Some(text) => Ok(Some(text.copy()?)),
        None => Ok(None),
    }
}

/// The texts of both members.
pub fn both_at(
    tree: &Tree,
    first: &str,
    second: &str,
) -> Result<(Option<Text>, Option<Text>), AllocError>
    requires { IsValid tree.now }
    ensures first { IfOk result (λ made. made.0 ≡ text_at first.now tree.now) }
    ensures second { IfOk result (λ made. made.1 ≡ text_at second.now tree.now) }
{
    let first = copied_at(tree, first)?;
    let second = copied_at(tree, second)?;
    Ok((first, second))
}

pub fn copied_or_empty(alloc: Global, tree: &Tree, name: &str) -> Result<Text, AllocError>
    requires { IsValid tree.now }
    ensures { IfOk result (λ made. made ≡ text_or_empty name.now tree.now) }
{
    match text_at(name, tree) {
        Some(text) => text.copy(),
        None => Text::of(alloc, ""),
    }
}

pub fn flag_at(tree: &Tree, name: &str) -> Option<bool>
    requires { IsValid tree.now }
    ensures { result ≡ flag_at name.now tree.now }
{
    match tree.at(name) {
        Some(Tree::Flag(flag)) => Some(*flag),
        _ => None,
    }
}

fn small(whole: i128) -> Option<u32>
    ensures { result ≡ natural_below (2 ^ 32) whole }
{
    if 0 <= whole && whole <= 4294967295 {
        Some(whole as u32)
    } else {
        None
    }
}

fn large(whole: i128) -> Option<u64>
    ensures { result ≡ natural_below (2 ^ 64) whole }
{
    if 0 <= whole && whole <= 18446744073709551615 {
        Some(whole as u64)
    } else {
        None
    }
}

pub fn number_at(tree: &Tree, name: &str) -> Option<u32>
    requires { IsValid tree.now }
    ensures { result ≡ natural_at (2 ^ 32) name.now tree.now }
{
    match tree.at(name) {
        Some(Tree::Whole(whole)) => small(*whole),
        _ => None,
    }
}

pub fn length_at(tree: &Tree, name: &str) -> Option<u64>
    requires { IsValid tree.now }
    ensures { result ≡ natural_at (2 ^ 64) name.now tree.now }
{
    match tree.at(name) {
        Some(Tree::Whole(whole)) => large(*whole),
        _ => None,
    }
}

pub fn requirement_at(tree: &Tree, name: &str) -> Option<Requirement>
    requires { IsValid tree.now }
    ensures { result ≡ requirement_at name.now tree.now }
{
    match text_at(name, tree) {
        Some(text) => Requirement::named(text.as_str()),
        None => None,
    }
}

pub fn list_at<'a>(tree: &'a Tree, name: &str) -> Option<&'a Row<Tree>>
    requires { IsValid tree.now }
    ensures { option_copied result ≡ list_at name.now tree.now }
{
    match tree.at(name) {
        Some(Tree::List(items)) => Some(items),
        _ => None,
    }
}

pub fn values_at(tree: &Tree, name: &str) -> Result<Option<Row<Tree>>, AllocError>
    requires { IsValid tree.now }
    ensures { IfOk result (λ made. made ≡ list_at name.now tree.now) }
{
    match list_at(tree, name) {
        Some(items) => Ok(Some(items.try_clone()?)),
        None => Ok(None),
    }
}

fn text_of(tree: &Tree) -> Option<&Text>
    ensures { option_copied result ≡ text_of (out-Tree tree.now) }
{
    match tree {
        Tree::Words(text) => Some(text),
        _ => None,
    }
}

pub fn texts_in(alloc: Global, items: &[Tree]) -> Result<Row<Text>, AllocError>
    ensures { IfOk result (λ made. made ≡ texts_in items.now) }
{
    let mut made = Row::new(alloc);
    for item in items {
        let Some(text) = text_of(item) else {
            continue;
        };
        made.push(text.copy()?)?;
    }
    Ok(made)
}

pub fn texts_at(alloc: Global, tree: &Tree, name: &str) -> Result<Option<Row<Text>>, AllocError>
    requires { IsValid tree.now }
    ensures { IfOk result (λ made. made ≡ texts_at name.now tree.now) }
{
    match list_at(tree, name) {
        Some(items) => Ok(Some(texts_in(alloc, items.as_slice())?)),
        None => Ok(None),
    }
}

pub fn members_at<'a>(tree: &'a Tree, name: &str) -> &'a [Member]
    requires { IsValid tree.now }
    ensures found { result.now ≡ members_at name.now tree.now }
    ensures valid { IsValidMembers result.now }
{
    match tree.at(name) {
        Some(Tree::Members(members)) => members.as_slice(),
        _ => &[],
    }
}

pub fn span_at(tree: &Tree, name: &str) -> Option<Span>
    requires { IsValid tree.now }
    ensures { result ≡ span_at name.now tree.now }
{
    match list_at(tree, name) {
        Some(items) => whole_pair(items.as_slice()),
        None => None,
    }
}

fn whole_pair(items: &[Tree]) -> Option<Span>
    ensures { result ≡ whole_pair (map out-Tree items.now) }
{
    let [first, second] = items else {
        return None;
    };
    let Tree::Whole(low) = first else {
        return None;
    };
    let Tree::Whole(high) = second else {
        return None;
    };
    Some(Span {
        low: *low,
        high: *high,
    })
}
