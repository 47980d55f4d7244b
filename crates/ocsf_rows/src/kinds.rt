// What types lead to, the values that they take, and the numbers of classes.
ghost use Rattle.std.specs.Prelude.{◌≤◌, IfOk};
ghost use Rattle.ocsf_tree.specs.Valid.{IsValid};
ghost use Rattle.ocsf_raw.specs.Ordered.{IsFileOrdered};

use ocsf_kind::{KindError, Which, breaks, class_uid, fits_base, kind_of, type_uid};
use ocsf_raw::{RawError, RawFile, shape};
use ocsf_schema::{Base, Kind};
use ocsf_table::halves;
use ocsf_tree::{Tree, read};
use std::alloc::{AllocError, Global};

// ---- a dictionary with these types

fn shaped(alloc: Global, tree: &Tree) -> Result<RawFile, RawError>
    requires { IsValid tree.now }
    ensures { IfOk result IsFileOrdered }
{
    shape(alloc, "dictionary.json", tree)
}

// A row whose types are no dictionary ends the program, as want of memory does.
fn dictionary(alloc: Global, text: &str) -> Result<RawFile, RawError>
    ensures { IfOk result IsFileOrdered }
{
    match read(alloc, text.as_bytes()) {
        Ok(tree) => shaped(alloc, &tree),
        Err(_) => Err(RawError::Memory),
    }
}

fn dictionary_text(alloc: Global, given: &str, members: &str) -> Result<String, AllocError> {
    let mut text = String::from_str(alloc, "{\"types\":{\"attributes\":{")?;
    text.push_str(given)?;
    text.push_str(members)?;
    text.push_str("}}}")?;
    Ok(text)
}

fn kind_in(alloc: Global, file: &RawFile, name: &str) -> Result<Kind, KindError>
    requires { IsFileOrdered file.now }
{
    match file {
        RawFile::Dictionary(file) => kind_of(alloc, name, file.types.as_slice()),
        _ => Err(KindError::Memory),
    }
}

fn kind_at(alloc: Global, found: &Result<RawFile, RawError>, name: &str) -> Result<Kind, KindError>
    requires { IfOk found.now IsFileOrdered }
{
    match found {
        Ok(file) => kind_in(alloc, file, name),
        Err(_) => Err(KindError::Memory),
    }
}

fn kind_of_row(alloc: Global, text: &str, name: &str) -> Result<Kind, KindError> {
    kind_at(alloc, &dictionary(alloc, text), name)
}

// ---- what types lead to

fn base_word(base: Base) -> &'static str {
    match base {
        Base::Boolean => "boolean_t",
        Base::Words => "string_t",
        Base::Integer => "integer_t",
        Base::Long => "long_t",
        Base::Float => "float_t",
        Base::Json => "json_t",
    }
}

// The name, the base, and the types on the way to it that have limits.
fn push_way(out: &mut String, kind: &Kind) -> Result<(), AllocError> {
    out.push_str(kind.name.as_str())?;
    out.push_str(" is ")?;
    out.push_str(base_word(kind.base))?;
    for limit in kind.limits.as_slice() {
        out.push(' ')?;
        out.push_str(limit.type_name.as_str())?;
    }
    Ok(())
}

fn push_led(out: &mut String, found: &Result<Kind, KindError>) -> Result<(), AllocError> {
    match found {
        Ok(kind) => push_way(out, kind),
        Err(KindError::Unknown(name)) => {
            out.push_str("unknown ")?;
            out.push_str(name.as_str())
        }
        Err(KindError::Cycle) => out.push_str("cycle"),
        Err(KindError::Memory) => Err(AllocError),
    }
}

/// Writes what a type leads to in a dictionary with the types that are given and those of the row.
pub fn push_kind(
    alloc: Global,
    out: &mut String,
    given: &str,
    rest: &str,
) -> Result<(), AllocError> {
    let (members, name) = halves(rest, " | ");
    let text = dictionary_text(alloc, given, members)?;
    push_led(out, &kind_of_row(alloc, text.as_str(), name))
}

fn push_told(
    alloc: Global,
    out: &mut String,
    found: &Result<Kind, KindError>,
) -> Result<(), AllocError> {
    let told = format!(in alloc; "{found:?}")?;
    out.push_str(told.as_str())
}

/// Writes all that a type and those on its way ask of a value.
pub fn push_limits(alloc: Global, out: &mut String, rest: &str) -> Result<(), AllocError> {
    let (members, name) = halves(rest, " | ");
    let text = dictionary_text(alloc, "", members)?;
    push_told(alloc, out, &kind_of_row(alloc, text.as_str(), name))
}

// ---- the values that types take

fn taken(found: &Result<Kind, KindError>, value: &Tree) -> &'static str {
    match found {
        Ok(kind) if fits_base(kind, value) => "taken",
        Ok(_) => "not taken",
        Err(_) => "? no kind",
    }
}

fn taken_by_base(alloc: Global, base: &str, value: &Tree) -> &'static str {
    taken(&kind_of(alloc, base, &[]), value)
}

/// Writes whether a base type takes a value.
pub fn push_takes(alloc: Global, out: &mut String, rest: &str) -> Result<(), AllocError> {
    let (base, text) = halves(rest, " | ");
    match read(alloc, text.as_bytes()) {
        Ok(value) => out.push_str(taken_by_base(alloc, base, &value)),
        Err(_) => out.push_str("? no tree"),
    }
}

fn part_of(word: &str) -> Which {
    match word {
        "max_len" => Which::MaxLen,
        "range" => Which::Range,
        _ => Which::Values,
    }
}

fn broken(found: &Result<Kind, KindError>, part: Which, value: &Tree) -> &'static str
    requires { IsValid value.now }
{
    let Ok(kind) = found else {
        return "? no kind";
    };
    match kind.limits.as_slice() {
        [only] if breaks(only, value, part) => "broken",
        [_] => "kept",
        _ => "? no limit",
    }
}

fn broken_in(alloc: Global, text: &str, part: &str, value: &Tree) -> &'static str
    requires { IsValid value.now }
{
    broken(&kind_of_row(alloc, text, "x_t"), part_of(part), value)
}

fn limit_text(alloc: Global, limit: &str) -> Result<String, AllocError> {
    let mut members = String::from_str(alloc, "\"x_t\":{\"type\":\"json_t\",")?;
    members.push_str(limit)?;
    members.push('}')?;
    dictionary_text(alloc, "", members.as_str())
}

/// Writes whether a value breaks that part of a limit.
pub fn push_breaks(alloc: Global, out: &mut String, rest: &str) -> Result<(), AllocError> {
    let (limit, rest) = halves(rest, " | ");
    let (part, text) = halves(rest, " | ");
    let types = limit_text(alloc, limit)?;
    match read(alloc, text.as_bytes()) {
        Ok(value) => out.push_str(broken_in(alloc, types.as_str(), part, &value)),
        Err(_) => out.push_str("? no tree"),
    }
}

// ---- numbers

fn up_to(word: &str, most: u32) -> u32
    ensures { result ≤ most }
{
    word.parse::<u32>().unwrap_or(0).min(most)
}

/// Writes the number of the class, and that of its activity, of an extension's uid, a category, a class and an
/// activity.
pub fn push_numbers(alloc: Global, out: &mut String, rest: &str) -> Result<(), AllocError> {
    let (extension, rest) = halves(rest, " ");
    let (category, rest) = halves(rest, " ");
    let (uid, activity) = halves(rest, " ");
    let class = class_uid(up_to(extension, 999), up_to(category, 99), up_to(uid, 999));
    let event = type_uid(class, up_to(activity, 99));
    let told = format!(in alloc; "{class} {event}")?;
    out.push_str(told.as_str())
}
