// What is found in a schema.
ghost use Rattle.std.specs.Prelude.{IfSome};
ghost use Rattle.ocsf_schema.specs.Lookups.{IsInOrder};

use crate::bundles::{bundle_of, push_refused};
use crate::items::key_of;
use crate::schemas::{push_not_compiled, schema_of};
use ocsf_bundle::Bundle;
use ocsf_compiler::CompileError;
use ocsf_raw::RawError;
use ocsf_schema::{Item, Schema};
use ocsf_table::{halves, number};
use std::alloc::{AllocError, Global};

fn push_named(out: &mut String, item: Option<&Item>) -> Result<(), AllocError> {
    let Some(item) = item else {
        return out.push_str("nothing");
    };
    out.push_str(item.key.side.as_str())?;
    out.push(':')?;
    out.push_str(item.key.name.as_str())?;
    if item.hidden {
        out.push_str(" hidden")?;
    }
    Ok(())
}

fn has_attr(schema: &Schema, item: Option<&Item>, name: &str) -> bool
    requires { IfSome item (λ there. IsInOrder there.now) }
{
    match item {
        Some(item) => schema.attr(item, name).is_some(),
        None => false,
    }
}

fn push_whether(out: &mut String, found: bool) -> Result<(), AllocError> {
    out.push_str(if found { "there" } else { "nothing" })
}

// `item` and a key, `class` and a number, `attr` with a key and a name, `kind` or `profile` and a name.
fn push_asked(
    alloc: Global,
    out: &mut String,
    schema: &Schema,
    what: &str,
) -> Result<(), AllocError> {
    let (call, word) = halves(what, " ");
    let (key, name) = halves(word, " ");
    let key = key_of(alloc, key)?;
    match call {
        "item" => push_named(out, schema.item(&key)),
        "class" => push_named(out, schema.class_by_uid(number(word))),
        "attr" => push_whether(out, has_attr(schema, schema.item(&key), name)),
        "kind" => push_whether(out, schema.kind(word).is_some()),
        "profile" => push_whether(out, schema.has_profile(word)),
        _ => out.push_str("? no look-up"),
    }
}

fn push_all_asked(
    alloc: Global,
    out: &mut String,
    schema: &Schema,
    asked: &str,
) -> Result<(), AllocError> {
    for what in asked.split(" | ") {
        out.push_str(what)?;
        out.push_str(" => ")?;
        push_asked(alloc, out, schema, what)?;
        out.push('\n')?;
    }
    Ok(())
}

fn push_in(
    alloc: Global,
    out: &mut String,
    made: &Result<Schema, CompileError>,
    asked: &str,
) -> Result<(), AllocError> {
    match made {
        Ok(schema) => push_all_asked(alloc, out, schema, asked),
        Err(error) => push_not_compiled(out, error),
    }
}

fn push_over(
    alloc: Global,
    out: &mut String,
    outcome: &Result<Bundle, RawError>,
    asked: &str,
) -> Result<(), AllocError> {
    match outcome {
        Ok(bundle) => push_in(alloc, out, &schema_of(alloc, bundle), asked),
        Err(error) => push_refused(out, error),
    }
}

/// Writes what each of the row's look-ups finds in the schema of the files that the row's edit leaves.
pub fn push_found(alloc: Global, out: &mut String, rest: &str) -> Result<(), AllocError> {
    let (text, asked) = halves(rest, " | ");
    push_over(alloc, out, &bundle_of(alloc, text), asked)
}
