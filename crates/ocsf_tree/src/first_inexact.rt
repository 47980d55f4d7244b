// The first number of a text that isn't a whole one.
ghost use Rattle.std.specs.Prelude.{◌≡◌, IfOk, option_map, reverse};
ghost use Rattle.serde_json.specs.View.{view, items_view, members_view};
ghost use Rattle.ocsf_tree.specs.FirstInexact.{first, first_item, first_member};

use crate::place::Step;
use crate::text::Text;
use ocsf_lists::Row;
use serde_json::{Map, Value};
use std::alloc::{AllocError, Global};

// The steps to the first number that is no whole one, the last step first.
#[cycle(first)]
pub(crate) fn first_inexact(alloc: Global, value: &Value) -> Result<Option<Row<Step>>, AllocError>
    ensures { IfOk result (λ found. option_map reverse found ≡ first (view value.now)) }
{
    match value {
        Value::Number(number) => if number.is_f64() {
            Ok(Some(Row::new(alloc)))
        } else {
            Ok(None)
        },
        Value::Array(items) => first_in_items(alloc, items.as_slice()),
        Value::Object(members) => first_in_members(alloc, members),
        _ => Ok(None),
    }
}

#[cycle(first)]
fn first_in_items(alloc: Global, items: &[Value]) -> Result<Option<Row<Step>>, AllocError>
    ensures { IfOk result (λ found. option_map reverse found ≡ first_item 0 (items_view items.now)) }
{
    for (index, item) in items.iter().enumerate() {
        if let Some(mut steps) = first_inexact(alloc, item)? {
            steps.push(Step::At(index as u64))?;
            return Ok(Some(steps));
        }
    }
    Ok(None)
}

#[cycle(first)]
fn first_in_members(
    alloc: Global,
    members: &Map<String, Value>,
) -> Result<Option<Row<Step>>, AllocError>
    ensures { IfOk result
        (λ found. option_map reverse found ≡ first_member (members_view members.now.entries)) }
{
    for (name, member) in members.iter() {
        if let Some(mut steps) = first_inexact(alloc, member)? {
            steps.push(Step::Name(Text::of(alloc, name.as_str())?))?;
            return Ok(Some(steps));
        }
    }
    Ok(None)
}
