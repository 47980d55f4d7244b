// What items come to, and their least faults.
ghost use Rattle.std.specs.Prelude.{◌≡◌};

use crate::bundles::{bundle_of, push_fault, push_refused};
use crate::reads::push_reads;
use ocsf_bundle::Bundle;
use ocsf_item::{BuildError, Built, build_item};
use ocsf_raw::RawError;
use ocsf_schema::Steps;
use ocsf_table::{halves, nth_line, push_bytes};
use ocsf_tree::{Key, Side, Text};
use std::alloc::{AllocError, Global};
use std::marker::Brand;
use std::sync::ledger::{Blank, Ledger};

/// The key that is printed so.
pub fn key_of(alloc: Global, printed: &str) -> Result<Key, AllocError> {
    let (side, name) = halves(printed, ":");
    let side = if side == "class" {
        Side::Class
    } else {
        Side::Object
    };
    let name = Text::of(alloc, name)?;
    Ok(Key { side, name })
}

fn built<L: Ledger>(
    alloc: Global,
    blank: Blank,
    bundle: &Bundle,
    key: &Key,
) -> Result<Built, BuildError>
    requires name { blank.name ≡ L.name }
    requires parts { blank.parts ≡ L.parts }
    requires one { blank.parts ≡ 1 }
{
    let mut steps: Steps<L> = Steps::open(blank);
    build_item(alloc, bundle, key, &mut steps)
}

/// What a row wants of an item.
#[derive(Clone, Copy, Drop)]
enum Wanted {
    Fragment,
    Reads,
}

fn push_wanted(out: &mut String, built: &Built, wanted: Wanted) -> Result<(), AllocError> {
    match wanted {
        Wanted::Fragment => push_bytes(out, built.piece().get().text()),
        Wanted::Reads => push_reads(out, built),
    }
}

// What is wanted of the item, or its least fault.
fn push_made(
    out: &mut String,
    made: &Result<Built, BuildError>,
    wanted: Wanted,
) -> Result<(), AllocError> {
    match made {
        Ok(built) => push_wanted(out, built, wanted),
        Err(BuildError::Fault(fault)) => push_fault(out, fault),
        Err(BuildError::Memory) => Err(AllocError),
    }
}

fn push_built(
    alloc: Global,
    out: &mut String,
    bundle: &Bundle,
    key: &Key,
    wanted: Wanted,
) -> Result<(), AllocError> {
    push_made(
        out,
        &built::<Brand>(alloc, Blank::new(1), bundle, key),
        wanted,
    )
}

// What is built for each of the keys, in a line.
fn push_each_built(
    alloc: Global,
    out: &mut String,
    bundle: &Bundle,
    keys: &str,
    wanted: Wanted,
) -> Result<(), AllocError> {
    for printed in keys.split(" | ") {
        let key = key_of(alloc, printed)?;
        push_built(alloc, out, bundle, &key, wanted)?;
        out.push('\n')?;
    }
    Ok(())
}

fn push_over(
    alloc: Global,
    out: &mut String,
    outcome: &Result<Bundle, RawError>,
    keys: &str,
    wanted: Wanted,
) -> Result<(), AllocError> {
    match outcome {
        Ok(bundle) => push_each_built(alloc, out, bundle, keys, wanted),
        Err(error) => push_refused(out, error),
    }
}

// An edit with the changes that are given and those of the row.
fn edit_text(alloc: Global, given: &str, changes: &str) -> Result<String, AllocError> {
    let mut text = String::from_str(alloc, "[")?;
    text.push_str(given)?;
    text.push_str(changes)?;
    text.push(']')?;
    Ok(text)
}

fn push_after_given(
    alloc: Global,
    out: &mut String,
    given: &str,
    rest: &str,
    wanted: Wanted,
) -> Result<(), AllocError> {
    let (changes, keys) = halves(rest, " | ");
    let text = edit_text(alloc, given, changes)?;
    push_over(alloc, out, &bundle_of(alloc, text.as_str()), keys, wanted)
}

/// Writes what is built for the row's keys, where the row's changes follow on those that are given.
pub fn push_item(
    alloc: Global,
    out: &mut String,
    given: &str,
    rest: &str,
) -> Result<(), AllocError> {
    push_after_given(alloc, out, given, rest, Wanted::Fragment)
}

/// Writes the cells that the same reads.
pub fn push_item_reads(
    alloc: Global,
    out: &mut String,
    given: &str,
    rest: &str,
) -> Result<(), AllocError> {
    push_after_given(alloc, out, given, rest, Wanted::Reads)
}

/// Writes how many bytes the same has, where it is long.
pub fn push_length(
    alloc: Global,
    out: &mut String,
    given: &str,
    rest: &str,
) -> Result<(), AllocError> {
    let mut built = String::new(alloc);
    push_item(alloc, &mut built, given, rest)?;
    let told = format!(in alloc; "{} bytes", built.trim_end().len())?;
    out.push_str(told.as_str())
}

// ---- changes that are chosen of those that are given

// A line of each paragraph, by its place there. A paragraph ends with the line `--`.
fn chosen(alloc: Global, given: &str, places: &str) -> Result<String, AllocError> {
    let mut text = String::from_str(alloc, "[{\"disable\":\"none\"}")?;
    let mut paragraphs = given.split("\n--\n");
    for place in places.split(' ') {
        text.push(',')?;
        text.push_str(nth_line(paragraphs.next().unwrap_or_default(), place))?;
    }
    text.push(']')?;
    Ok(text)
}

/// Writes what is built for the row's keys over one line of each paragraph that is given.
pub fn push_picked(
    alloc: Global,
    out: &mut String,
    given: &str,
    rest: &str,
) -> Result<(), AllocError> {
    let (places, keys) = halves(rest, " | ");
    let text = chosen(alloc, given, places)?;
    push_over(
        alloc,
        out,
        &bundle_of(alloc, text.as_str()),
        keys,
        Wanted::Fragment,
    )
}
