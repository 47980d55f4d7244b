// What texts read as, and in which order places stand.
ghost use Rattle.ocsf_tree.specs.Valid.{IsValid};

use ocsf_table::{bytes_of, push_bytes};
use ocsf_tree::{
    Place, Row, Step, Text, Tree, TreeError, place_order, pointer, print, quote, read,
};
use std::alloc::{AllocError, Global};
use std::cmp::Ordering;

fn push_print(alloc: Global, out: &mut String, tree: &Tree) -> Result<(), AllocError>
    requires { IsValid tree.now }
{
    let printed = print(alloc, tree)?;
    push_bytes(out, printed.as_slice())
}

fn push_place(alloc: Global, out: &mut String, place: &Place) -> Result<(), AllocError> {
    let pointer = pointer(alloc, place)?;
    out.push_str(pointer.as_str())
}

fn push_not_whole(alloc: Global, out: &mut String, place: &Place) -> Result<(), AllocError> {
    out.push_str("not whole at ")?;
    push_place(alloc, out, place)
}

fn push_read_bytes(alloc: Global, out: &mut String, bytes: &[u8]) -> Result<(), AllocError> {
    match read(alloc, bytes) {
        Ok(tree) => push_print(alloc, out, &tree),
        Err(TreeError::NotJson) => out.push_str("not json"),
        Err(TreeError::NumberNotWhole(place)) => push_not_whole(alloc, out, &place),
        Err(TreeError::Memory) => Err(AllocError),
    }
}

/// Writes the print of what the text reads as, or why it reads as nothing.
pub fn push_read(alloc: Global, out: &mut String, text: &str) -> Result<(), AllocError> {
    let bytes = bytes_of(alloc, text)?;
    push_read_bytes(alloc, out, bytes.as_slice())
}

fn step_of(alloc: Global, word: &str) -> Result<Step, AllocError> {
    match word.parse::<u64>() {
        Ok(at) => Ok(Step::At(at)),
        Err(_) => Ok(Step::Name(Text::of(alloc, word)?)),
    }
}

// The place of this pointer, where a word that is a number is a position.
fn place_of(alloc: Global, pointer: &str) -> Result<Place, AllocError> {
    let mut place = Place {
        steps: Row::new(alloc),
    };
    for word in pointer.split('/').skip(1) {
        place = place.below(step_of(alloc, word)?)?;
    }
    Ok(place)
}

fn mark_of(order: Ordering) -> char {
    match order {
        Ordering::Less => '<',
        Ordering::Equal => '=',
        Ordering::Greater => '>',
    }
}

fn push_line(alloc: Global, out: &mut String, place: &Place, row: &str) -> Result<(), AllocError> {
    for pointer in row.split(" | ") {
        let other = place_of(alloc, pointer)?;
        out.push(mark_of(place_order(place, &other)))?;
    }
    out.push(' ')?;
    push_place(alloc, out, place)?;
    out.push('\n')
}

/// Writes for each of the places how it stands to each of them, and its pointer.
pub fn push_order(alloc: Global, out: &mut String, row: &str) -> Result<(), AllocError> {
    for pointer in row.split(" | ") {
        let place = place_of(alloc, pointer)?;
        push_line(alloc, out, &place, row)?;
    }
    Ok(())
}

pub fn push_quoted(alloc: Global, out: &mut String, text: &str) -> Result<(), AllocError> {
    let quoted = quote(alloc, text)?;
    push_bytes(out, quoted.as_slice())
}
