// What layers say of attributes together.
ghost use Rattle.ocsf_tree.specs.Valid.{IsValid};
ghost use Rattle.ocsf_raw.specs.Ordered.{IsFileOrdered};

use ocsf_merge::{Spoken, Table};
use ocsf_raw::{Mark, RawFile, shape};
use ocsf_table::{halves, nth_line};
use ocsf_tree::{Requirement, Tree, read};
use std::alloc::{AllocError, Global};

// ---- folding

/// A layer of a row: the extension of its file, the key of its profile, its path, and its text.
#[derive(Drop)]
struct Layer<'a> {
    from: &'a str,
    key: &'a str,
    path: &'static str,
    text: &'a str,
}

// A layer is written as its extension or `core`, then `item` or `profile:` and its key, and the text of its file.
fn layer_of(layer: &str) -> Layer<'_> {
    let (from, rest) = halves(layer, " ");
    let (of, text) = halves(rest, " ");
    let (path, key) = match of.strip_prefix("profile:") {
        Some(key) => ("profiles/p.json", key),
        None => ("includes/i.json", ""),
    };
    Layer {
        from: if from == "core" { "" } else { from },
        key,
        path,
        text,
    }
}

fn fold_file(table: &mut Table, layer: &Layer<'_>, file: &RawFile) -> Result<(), AllocError>
    requires { IsFileOrdered file.now }
{
    match file {
        RawFile::Profile(file) => {
            table.fold(
                layer.from,
                Some(file),
                layer.key,
                file.attributes.as_slice(),
            )
        }
        RawFile::Include(entries) => table.fold(layer.from, None, "", entries.as_slice()),
        _ => Err(AllocError),
    }
}

fn fold_tree(
    alloc: Global,
    table: &mut Table,
    layer: &Layer<'_>,
    tree: &Tree,
) -> Result<(), AllocError>
    requires { IsValid tree.now }
{
    match shape(alloc, layer.path, tree) {
        Ok(file) => fold_file(table, layer, &file),
        Err(_) => Err(AllocError),
    }
}

// A row that is no layer ends the program, as want of memory does.
fn fold(alloc: Global, table: &mut Table, layer: &str) -> Result<(), AllocError> {
    let layer = layer_of(layer);
    match read(alloc, layer.text.as_bytes()) {
        Ok(tree) => fold_tree(alloc, table, &layer, &tree),
        Err(_) => Err(AllocError),
    }
}

// ---- how an attribute is written down: what is said of it, field by field

fn push_field(out: &mut String, label: &str, word: &str, from: &str) -> Result<(), AllocError> {
    out.push(' ')?;
    out.push_str(label)?;
    out.push_str(word)?;
    if !from.is_empty() {
        out.push('@')?;
        out.push_str(from)?;
    }
    Ok(())
}

fn push_spoken(out: &mut String, row: &Spoken) -> Result<(), AllocError> {
    let attr = &row.attr;
    out.push_str(attr.name.as_str())?;
    if let Some(caption) = &attr.caption {
        push_field(out, "caption=", caption.as_str(), "")?;
    }
    if let Some(description) = &attr.description {
        push_field(out, "description=", description.as_str(), "")?;
    }
    if let Some(type_name) = &attr.type_name {
        push_field(out, "type=", type_name.as_str(), row.type_from.as_str())?;
    }
    push_rest(out, row)
}

fn push_rest(out: &mut String, row: &Spoken) -> Result<(), AllocError> {
    let attr = &row.attr;
    match attr.is_array {
        Some(true) => push_field(out, "array", "", "")?,
        Some(false) => push_field(out, "single", "", "")?,
        None => {}
    }
    for member in attr.members.as_slice() {
        push_field(out, member.key.as_str(), ":", "")?;
        out.push_str(member.caption.as_str())?;
    }
    if let Some(sibling) = &attr.sibling {
        push_field(out, "sibling=", sibling.as_str(), "")?;
    }
    if let Some(requirement) = attr.requirement {
        push_field(out, requirement.as_str(), "", "")?;
    }
    push_mark(out, row)
}

fn push_mark(out: &mut String, row: &Spoken) -> Result<(), AllocError> {
    match &row.attr.mark {
        Mark::Unsaid => {}
        Mark::Cleared => push_field(out, "cleared", "", "")?,
        Mark::Named(name) => {
            let label = if row.mark_is_key { "key=" } else { "profile=" };
            push_field(out, label, name.as_str(), row.mark_from.as_str())?;
        }
    }
    if let Some(group) = &row.attr.group {
        push_field(out, "group=", group.as_str(), "")?;
    }
    out.push(';')
}

fn push_table(out: &mut String, table: &Table) -> Result<(), AllocError> {
    for row in table.rows.as_slice() {
        push_spoken(out, row)?;
    }
    if table.rows.is_empty() {
        out.push_str("nothing")?;
    }
    Ok(())
}

// ---- rows

fn push_all(
    alloc: Global,
    out: &mut String,
    table: &mut Table,
    rest: &str,
) -> Result<(), AllocError> {
    for layer in rest.split(" + ") {
        fold(alloc, table, layer)?;
    }
    push_table(out, table)
}

/// Writes what the row's layers say together.
pub fn push_folded(alloc: Global, out: &mut String, rest: &str) -> Result<(), AllocError> {
    push_all(alloc, out, &mut Table::empty(alloc), rest)
}

fn push_places(
    alloc: Global,
    out: &mut String,
    table: &mut Table,
    given: &str,
    rest: &str,
) -> Result<(), AllocError> {
    for place in rest.split(' ') {
        fold(alloc, table, nth_line(given, place))?;
    }
    push_table(out, table)
}

/// Writes what layers say together that stand at the row's places among those that are given.
pub fn push_picked(
    alloc: Global,
    out: &mut String,
    given: &str,
    rest: &str,
) -> Result<(), AllocError> {
    push_places(alloc, out, &mut Table::empty(alloc), given, rest)
}
