// Places in a tree: their order, and JSON Pointer (RFC 6901).
ghost use Rattle.std.specs.Prelude.{◌≡◌, IfOk, OnOk, ◌++◌, ◌∷◌, [], string_bytes, flat_map, codes};
ghost use Rattle.std.specs.Char.{encode_utf8};
ghost use Rattle.ocsf_tree.specs.Place.{step_cmp, place_cmp, pointer_byte, step_text, pointer_text};

use crate::text::Text;
use ocsf_lists::{Row, TryClone};
use std::alloc::{AllocError, Global};
use std::cmp::Ordering;

/// The way from a list to an item, by its position from 0, or from an object to a member's value.
#[derive(Debug, PartialEq, Eq, PartialOrd, Ord, Drop)]
pub enum Step {
    At(u64),
    Name(Text),
}

/// The way from the root of a tree to a value in it. The root itself has no steps.
#[derive(Debug, Drop)]
pub struct Place {
    pub steps: Row<Step>,
}

fn step_order(a: &Step, b: &Step) -> Ordering
    ensures { result ≡ step_cmp a.now b.now }
{
    match (a, b) {
        (Step::At(i), Step::At(j)) => i.cmp(j),
        (Step::At(_), Step::Name(_)) => Ordering::Less,
        (Step::Name(_), Step::At(_)) => Ordering::Greater,
        (Step::Name(x), Step::Name(y)) => x.as_str().cmp(&y.as_str()),
    }
}

/// Which place is earlier: a prefix before what is below it, positions by number and before names, names by
/// their bytes.
pub fn place_order(a: &Place, b: &Place) -> Ordering
    ensures { result ≡ place_cmp a.now.steps b.now.steps }
{
    let mut left = a.steps.as_slice();
    let mut right = b.steps.as_slice();
    while let [x, more @ ..] = left {
        let [y, rest @ ..] = right else {
            return Ordering::Greater;
        };
        let order = step_order(x, y);
        if order != Ordering::Equal {
            return order;
        }
        left = more;
        right = rest;
    }
    if right.is_empty() {
        Ordering::Equal
    } else {
        Ordering::Less
    }
}

fn push_char(out: &mut String, c: char) -> Result<(), AllocError>
    ensures { OnOk result
        (string_bytes out.new ≡ string_bytes out.old ++ flat_map pointer_byte (encode_utf8 c)) }
{
    if c == '~' {
        out.push_str("~0")
    } else if c == '/' {
        out.push_str("~1")
    } else {
        out.push(c)
    }
}

fn push_name(out: &mut String, name: &str) -> Result<(), AllocError>
    ensures { OnOk result
        (string_bytes out.new ≡ string_bytes out.old ++ flat_map pointer_byte name.now) }
{
    for c in name.chars() {
        push_char(out, c)?;
    }
    Ok(())
}

fn push_step(alloc: Global, out: &mut String, step: &Step) -> Result<(), AllocError>
    ensures { OnOk result
        (string_bytes out.new ≡ string_bytes out.old ++ codes "/" ++ step_text step.now) }
{
    out.push('/')?;
    match step {
        Step::At(index) => out.push_str(&index.to_string(alloc)?),
        Step::Name(name) => push_name(out, name.as_str()),
    }
}

/// The JSON Pointer to a place, by sections 3 and 4 of RFC 6901.
pub fn pointer(alloc: Global, place: &Place) -> Result<Text, AllocError>
    ensures { IfOk result (λ made. made ≡ pointer_text place.now.steps) }
{
    let mut out = String::new(alloc);
    for step in place.steps.as_slice() {
        push_step(alloc, &mut out, step)?;
    }
    Text::from_string(out)
}

impl TryClone for Step {
    fn try_clone(&self) -> Result<Step, AllocError> {
        match self {
            Step::At(index) => Ok(Step::At(*index)),
            Step::Name(name) => Ok(Step::Name(name.copy()?)),
        }
    }
}

impl TryClone for Place {
    fn try_clone(&self) -> Result<Place, AllocError> {
        Ok(Place {
            steps: self.steps.try_clone()?,
        })
    }
}

impl Place {
    /// The place one step below, from the allocator of this one.
    pub fn below(&self, step: Step) -> Result<Place, AllocError>
        ensures { IfOk result (λ made. made.steps ≡ self.now.steps ++ step ∷ []) }
    {
        let mut steps = self.steps.try_clone()?;
        steps.push(step)?;
        Ok(Place { steps })
    }
}
