// The merged dictionaries, as they are printed.
ghost use Rattle.std.specs.Prelude.{◌≡◌, ◌<◌, ◌^◌, List, IfOk, All, map, unwrap_or, false};
ghost use Rattle.std.specs.Option.{option_map, IfSome};
ghost use Rattle.ocsf_lists.specs.ByName.{IsByName};
ghost use Rattle.ocsf_tree.specs.Valid.{IsValid};
ghost use Rattle.ocsf_tree.specs.declared.tree.Tree.TheVariants as tree;
ghost use Rattle.ocsf_raw.specs.Ordered.{IsByKey, IsTypeValid};
ghost use Rattle.ocsf_schema.specs.Print.{number};
ghost use Rattle.ocsf_rules.specs.PrintedSchema.{member, entry_tree, span_tree, type_tree};

use ocsf_raw::{DictEntry, TypeEntry};
use ocsf_schema::{enumeration_field, flag_field, put_field, put_words};
use ocsf_tree::{Member, Row, Span, Tree, TryClone};
use std::alloc::{AllocError, Global};

fn entry_tree(alloc: Global, entry: &DictEntry) -> Result<Tree, AllocError>
    requires { IsByKey entry.now.members }
    ensures tree { IfOk result (λ made. made ≡ entry_tree entry.now) }
    ensures valid { IfOk result IsValid }
{
    let is_array = entry.is_array.unwrap_or(false);
    let mut members = Row::new(alloc);
    put_words(&mut members, "caption", &entry.caption)?;
    put_words(&mut members, "description", &entry.description)?;
    put_field(
        &mut members,
        "enum",
        enumeration_field(alloc, entry.members.as_slice())?,
    )?;
    put_field(&mut members, "is_array", flag_field(is_array))?;
    put_words(&mut members, "sibling", &entry.sibling)?;
    put_words(&mut members, "type", &entry.type_name)?;
    Ok(Tree::Members(members))
}

fn max_len_of(entry: &TypeEntry) -> Option<Tree>
    ensures tree { result ≡ number entry.now.max_len }
    ensures fits { IfSome entry.now.max_len (λ most. most < 2 ^ 64) }
{
    match entry.max_len {
        Some(most) => Some(Tree::Whole(i128::from(most))),
        None => None,
    }
}

fn range_of(alloc: Global, range: Option<Span>) -> Result<Option<Tree>, AllocError>
    ensures { IfOk result (λ made. made ≡ option_map span_tree range) }
{
    let Some(span) = range else {
        return Ok(None);
    };
    let mut ends = Row::new(alloc);
    ends.push(Tree::Whole(span.low))?;
    ends.push(Tree::Whole(span.high))?;
    Ok(Some(Tree::List(ends)))
}

fn values_of(values: &Option<Row<Tree>>) -> Result<Option<Tree>, AllocError>
    ensures { IfOk result (λ made. made ≡ option_map tree.List values.now) }
{
    match values {
        Some(values) => Ok(Some(Tree::List(values.try_clone()?))),
        None => Ok(None),
    }
}

fn type_tree(alloc: Global, entry: &TypeEntry) -> Result<Tree, AllocError>
    requires { IsTypeValid entry.now }
    ensures tree { IfOk result (λ made. made ≡ type_tree entry.now) }
    ensures valid { IfOk result IsValid }
{
    let mut members = Row::new(alloc);
    put_words(&mut members, "caption", &entry.caption)?;
    put_words(&mut members, "description", &entry.description)?;
    put_field(&mut members, "max_len", max_len_of(entry))?;
    put_field(&mut members, "range", range_of(alloc, entry.range)?)?;
    put_words(&mut members, "regex", &entry.pattern)?;
    put_words(&mut members, "type", &entry.parent)?;
    put_field(&mut members, "values", values_of(&entry.values)?)?;
    Ok(Tree::Members(members))
}

/// The attributes by name, as they are printed.
pub fn dictionary_tree(alloc: Global, entries: &[DictEntry]) -> Result<Tree, AllocError>
    requires by_name { IsByName (λ entry. entry.name) entries.now }
    requires by_key { All (λ entry. IsByKey entry.members) entries.now }
    ensures tree { IfOk result (λ made. made
        ≡ tree.Members (map (λ entry. member entry.name (entry_tree entry)) entries.now)) }
    ensures valid { IfOk result IsValid }
{
    let mut members = Row::with_capacity(alloc, entries.len())?;
    for entry in entries {
        let name = entry.name.copy()?;
        let value = entry_tree(alloc, entry)?;
        members.push(Member { name, value })?;
    }
    Ok(Tree::Members(members))
}

/// The types by name, as they are printed.
pub fn types_tree(alloc: Global, entries: &[TypeEntry]) -> Result<Tree, AllocError>
    requires by_name { IsByName (λ entry. entry.name) entries.now }
    requires valid { All IsTypeValid entries.now }
    ensures tree { IfOk result (λ made. made
        ≡ tree.Members (map (λ entry. member entry.name (type_tree entry)) entries.now)) }
    ensures valid { IfOk result IsValid }
{
    let mut members = Row::with_capacity(alloc, entries.len())?;
    for entry in entries {
        let name = entry.name.copy()?;
        let value = type_tree(alloc, entry)?;
        members.push(Member { name, value })?;
    }
    Ok(Tree::Members(members))
}
