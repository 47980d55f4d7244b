// The tree that a text reads as.
ghost use Rattle.std.specs.Prelude.{◌≡◌, ◌≤◌, IfOk, false, true, map};
ghost use Rattle.serde_json.specs.View.{view, items_view, members_view, number_view};
ghost use Rattle.serde_json.specs.Find.{is_float, of_integer};
ghost use Rattle.serde_json.specs.Data.{number};
ghost use Rattle.serde_json.specs.Written.{has_float, items_have_float, members_have_float};
ghost use Rattle.ocsf_tree.specs.Data.{data_of, list_data, members_data};
ghost use Rattle.ocsf_tree.specs.Valid.{IsValid};
ghost use Rattle.ocsf_tree.specs.Reading.{IsReading, nesting};

use crate::first_inexact::first_inexact;
use crate::place::Place;
use crate::text::Text;
use crate::tree::{Member, Tree};
use ocsf_lists::Row;
use serde_json::{Map, Number, Value};
use std::alloc::{AllocError, Global};

/// Why bytes are no tree.
#[derive(Debug, Drop)]
pub enum TreeError {
    /// They are no JSON text of RFC 8259 in UTF-8, their brackets nest deeper than 127, or they hold a
    /// number beyond a 64-bit float.
    NotJson,
    /// At this place, and at none before it, stands a number that isn't written as a whole number, or that
    /// is neither a signed nor an unsigned 64-bit one.
    NumberNotWhole(Place),
    /// Memory has run out.
    Memory,
}

impl From<AllocError> for TreeError {
    ghost use Rattle.std.specs.Prelude.{◌≡◌};
    ghost use Rattle.ocsf_tree.specs.declared.reader.TreeError.TheVariants.{Memory};

    ghost from_gives = { λ _ e. e ≡ Memory };

    fn from(_e: AllocError) -> TreeError {
        TreeError::Memory
    }
}

/// The tree of a JSON text. Of the members of an object that have one name the last stays.
pub fn read(alloc: Global, bytes: &[u8]) -> Result<Tree, TreeError>
    ensures reads { IsReading bytes.now result }
    ensures valid { IfOk result IsValid }
    ensures nests { IfOk result (λ tree. nesting tree ≤ 127) }
{
    let value = match Value::from_slice(alloc, bytes) {
        Ok(value) => value,
        Err(e) => return Err(if e.is_memory() {
            TreeError::Memory
        } else {
            TreeError::NotJson
        }),
    };
    if let Some(mut steps) = first_inexact(alloc, &value)? {
        steps.reverse();
        return Err(TreeError::NumberNotWhole(Place { steps }));
    }
    Ok(tree_of(alloc, value)?)
}

fn whole_of(number: &Number) -> i128
    requires { is_float (number_view number.now) ≡ false }
    ensures { of_integer result ≡ number_view number.now }
{
    match number.as_i128() {
        Some(whole) => whole,
        None => unreachable!(),
    }
}

// The texts of the value are moved into the tree.
#[cycle(tree_of)]
fn tree_of(alloc: Global, value: Value) -> Result<Tree, AllocError>
    requires { has_float (view value) ≡ false }
    ensures { IfOk result (λ tree. data_of tree ≡ view value) }
{
    match value {
        Value::Null => Ok(Tree::Null),
        Value::Bool(flag) => Ok(Tree::Flag(flag)),
        Value::Number(number) => Ok(Tree::Whole(whole_of(&number))),
        Value::String(words) => Ok(Tree::Words(Text::from_string(words)?)),
        Value::Array(items) => Ok(Tree::List(list_of(alloc, items)?)),
        Value::Object(members) => Ok(Tree::Members(members_of(alloc, members)?)),
    }
}

#[cycle(tree_of)]
fn list_of(alloc: Global, items: Vec<Value>) -> Result<Row<Tree>, AllocError>
    requires { items_have_float (items_view items.items) ≡ false }
    ensures { IfOk result (λ made. list_data made ≡ items_view items.items) }
{
    let mut made = Row::with_capacity(alloc, items.len())?;
    for item in items {
        made.push(tree_of(alloc, item)?)?;
    }
    Ok(made)
}

#[cycle(tree_of)]
fn members_of(alloc: Global, members: Map<String, Value>) -> Result<Row<Member>, AllocError>
    requires { members_have_float (members_view members.entries) ≡ false }
    ensures { IfOk result (λ made. members_data made ≡ members_view members.entries) }
{
    let mut made = Row::with_capacity(alloc, members.len())?;
    for (name, member) in members {
        let name = Text::from_string(name)?;
        let value = tree_of(alloc, member)?;
        made.push(Member { name, value })?;
    }
    Ok(made)
}
