// What is wrong with a schema as a whole.
ghost use Rattle.std.specs.Prelude.{◌≡◌, IfOk, length, decimal, filter_map, nat_lt};
ghost use Rattle.ocsf_tree.specs.LeastFault.{least_fault};
ghost use Rattle.ocsf_schema.specs.Schema.{schema_text};
ghost use Rattle.ocsf_rules.specs.SchemaFaults.{comes_before, max_print};
ghost use Rattle.ocsf_rules.specs.ItemFaults.{fault};
ghost use Rattle.ocsf_compiler.specs.Building.{is_taken_in, clash_of, clash_in, large_fault, fault_in};

use ocsf_bundle::lesser_of;
use ocsf_schema::{Item, Piece, Schema};
use ocsf_tree::{Code, Fault, Key, Shared, Text};
use std::alloc::{AllocError, Global};
use std::cmp::Ordering;

/// The most bytes of a printed schema.
const MOST_PRINTED: usize = 64 * 1024 * 1024;

fn comes_before(a: &Key, b: &Key) -> bool
    ensures { result ≡ comes_before a.now b.now }
{
    a.cmp(b) == Ordering::Less
}

/// Whether a class of a lesser key has the number.
fn is_taken(schema: &Schema, item: &Item, number: u64) -> bool
    ensures { result ≡ is_taken_in schema.now.pieces item.now number }
{
    match schema.class_by_uid(number) {
        Some(first) => comes_before(&first.key, &item.key),
        None => false,
    }
}

fn decimal(alloc: Global, number: u64) -> Result<Text, AllocError>
    ensures { IfOk result (λ made. made ≡ decimal number) }
{
    let made = format!(in alloc; "{number}")?;
    Text::from_string(made)
}

fn clash_of(
    alloc: Global,
    schema: &Schema,
    item: &Item,
    number: u64,
) -> Result<Option<Fault>, AllocError>
    ensures { IfOk result (λ made. made ≡ clash_of schema.now.pieces item.now number) }
{
    if !is_taken(schema, item, number) {
        return Ok(None);
    }
    let subject = item.key.to_text()?;
    let name = decimal(alloc, number)?;
    Ok(Some(Fault {
        code: Code::UidClash,
        subject,
        name,
    }))
}

fn clash_in(alloc: Global, schema: &Schema, item: &Item) -> Result<Option<Fault>, AllocError>
    ensures { IfOk result (λ made. made ≡ clash_in schema.now.pieces item.now) }
{
    match item.class_uid {
        Some(number) => clash_of(alloc, schema, item, number),
        None => Ok(None),
    }
}

/// The least fault of classes that have the number of one of a lesser key.
fn uid_clash(
    alloc: Global,
    schema: &Schema,
    pieces: &[Shared<Piece>],
) -> Result<Option<Fault>, AllocError>
    ensures { IfOk result (λ made. made ≡ least_fault (filter_map (clash_in schema.now.pieces) pieces.now)) }
{
    let mut least = None;
    for piece in pieces {
        least = lesser_of(least, clash_in(alloc, schema, piece.get().item())?);
    }
    Ok(least)
}

/// Whether the print has more bytes than it may.
fn is_too_long(schema: &Schema) -> bool
    ensures { result ≡ nat_lt max_print (length (schema_text schema.now)) }
{
    match schema.printed_len() {
        Some(bytes) => bytes > MOST_PRINTED,
        None => true,
    }
}

fn too_large(alloc: Global, schema: &Schema) -> Result<Option<Fault>, AllocError>
    ensures { IfOk result (λ made. made ≡ large_fault (length (schema_text schema.now))) }
{
    if !is_too_long(schema) {
        return Ok(None);
    }
    let subject = Text::of(alloc, "bundle")?;
    let name = Text::of(alloc, "print")?;
    Ok(Some(Fault {
        code: Code::TooLarge,
        subject,
        name,
    }))
}

/// The least fault of a schema as a whole, whose items these are: of its classes' numbers, and else of
/// the length of its print.
pub fn schema_fault(
    alloc: Global,
    schema: &Schema,
    pieces: &[Shared<Piece>],
) -> Result<Option<Fault>, AllocError>
    ensures { IfOk result (λ made. made ≡ fault_in schema.now pieces.now) }
{
    match uid_clash(alloc, schema, pieces)? {
        Some(fault) => Ok(Some(fault)),
        None => too_large(alloc, schema),
    }
}
