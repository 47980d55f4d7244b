// What a bundle shows at each cell, and what it lists, after each of several edits.
use crate::edits::{apply, push_word};
use crate::shapes::push_refused;
use ocsf_bundle::{Bundle, Cell, Part, Shows};
use ocsf_raw::RawAttr;
use ocsf_table::halves;
use ocsf_tree::{Key, Row, Side, Text};
use std::alloc::{AllocError, Global};

// ---- a cell

fn caption(text: &Option<Text>) -> &str {
    match text {
        Some(text) => text.as_str(),
        None => "",
    }
}

fn first_caption(entries: &[RawAttr]) -> &str {
    match entries.first() {
        Some(entry) => caption(&entry.caption),
        None => "",
    }
}

// What a part shows, by its caption.
fn told<'a>(part: &Part<'a>) -> &'a str {
    match part {
        Part::There => "there",
        Part::Item(file) => caption(&file.caption),
        Part::Patch(_, file) => caption(&file.caption),
        Part::Profile(file) => caption(&file.caption),
        Part::Include(entries) => first_caption(entries),
        Part::Dict(_, entry) => caption(&entry.caption),
        Part::Kind(entry) => caption(&entry.caption),
        Part::Category(_, entry) => caption(&entry.caption),
        Part::Other => "built in",
        Part::Ext(file) => caption(&file.caption),
    }
}

fn push_shown(out: &mut String, bundle: &Bundle, cell: &Cell) -> Result<(), AllocError> {
    for k in 0..bundle.most() {
        let Some(part) = bundle.look(cell, k) else {
            break;
        };
        push_word(out, told(&part))?;
    }
    Ok(())
}

fn cell(kind: &str, from: Text, name: Text) -> Cell {
    let side = if from.as_str() == "class" {
        Side::Class
    } else {
        Side::Object
    };
    match kind {
        "item" => Cell::Item(Key { side, name }),
        "exists" => Cell::Exists(Key { side, name }),
        "patches" => Cell::Patches(Key { side, name }),
        "profile" => Cell::Profile(name),
        "include" => Cell::Include { from, path: name },
        "dict" => Cell::Dict(name),
        "kind" => Cell::Kind(name),
        "category" => Cell::Category(name),
        _ => Cell::Ext(name),
    }
}

// A cell is its kind and its name, before which may stand a side or an extension.
fn cell_of(alloc: Global, text: &str) -> Result<Cell, AllocError> {
    let (kind, rest) = halves(text, " ");
    let (from, name) = rest.split_once(":").unwrap_or(("", rest));
    let from = Text::of(alloc, from)?;
    let name = Text::of(alloc, name)?;
    Ok(cell(kind, from, name))
}

// ---- a list

fn push_key(out: &mut String, key: &Key) -> Result<(), AllocError> {
    out.push_str(key.side.as_str())?;
    out.push(':')?;
    push_word(out, key.name.as_str())
}

fn push_keys(out: &mut String, bundle: &Bundle) -> Result<(), AllocError> {
    for k in 0..bundle.most() {
        let Some(key) = bundle.key_at(k) else {
            break;
        };
        push_key(out, key)?;
    }
    Ok(())
}

fn names(bundle: &Bundle, of: &str) -> Result<Row<Text>, AllocError> {
    match of {
        "attributes" => bundle.attribute_names(),
        "types" => bundle.type_names(),
        "categories" => bundle.category_keys(),
        _ => bundle.profile_keys(),
    }
}

fn push_names(out: &mut String, names: &[Text]) -> Result<(), AllocError> {
    for name in names {
        push_word(out, name.as_str())?;
    }
    Ok(())
}

fn push_listed(out: &mut String, bundle: &Bundle, of: &str) -> Result<(), AllocError> {
    match of {
        "keys" => push_keys(out, bundle),
        "version" => push_word(out, bundle.version()),
        _ => {
            let names = names(bundle, of)?;
            push_names(out, names.as_slice())
        }
    }
}

// ---- what is asked

fn push_asked(
    alloc: Global,
    out: &mut String,
    bundle: &Bundle,
    what: &str,
) -> Result<(), AllocError> {
    match what.strip_prefix("list ") {
        Some(of) => push_listed(out, bundle, of),
        None => {
            let cell = cell_of(alloc, what)?;
            push_shown(out, bundle, &cell)
        }
    }
}

fn push_all_asked(
    alloc: Global,
    out: &mut String,
    bundle: &Bundle,
    given: &str,
) -> Result<(), AllocError> {
    for what in given.lines() {
        out.push_str(what)?;
        out.push_str(" => ")?;
        push_asked(alloc, out, bundle, what)?;
        out.push('\n')?;
    }
    out.push_str("--\n")
}

fn push_looks_after(
    alloc: Global,
    out: &mut String,
    bundle: &mut Bundle,
    given: &str,
    text: &str,
) -> Result<(), AllocError> {
    match apply(alloc, bundle, text) {
        Ok(()) => push_all_asked(alloc, out, bundle, given),
        Err(error) => push_refused(out, &error),
    }
}

fn push_each_look(
    alloc: Global,
    out: &mut String,
    bundle: &mut Bundle,
    given: &str,
    rest: &str,
) -> Result<(), AllocError> {
    for text in rest.split(" | ") {
        push_looks_after(alloc, out, bundle, given, text)?;
    }
    Ok(())
}

/// Writes after each of the row's edits what the files show at each cell that is given, and what they list.
pub fn push_looks(
    alloc: Global,
    out: &mut String,
    given: &str,
    rest: &str,
) -> Result<(), AllocError> {
    let mut bundle = Bundle::empty(alloc);
    push_each_look(alloc, out, &mut bundle, given, rest)
}
