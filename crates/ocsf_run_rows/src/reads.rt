// The cells that an item reads, in words.
use ocsf_bundle::Cell;
use ocsf_item::Built;
use ocsf_tree::Key;
use std::alloc::AllocError;

fn push_told(out: &mut String, word: &str, name: &str) -> Result<(), AllocError> {
    out.push_str(word)?;
    out.push(' ')?;
    out.push_str(name)
}

fn push_key(out: &mut String, word: &str, key: &Key) -> Result<(), AllocError> {
    let printed = key.to_text()?;
    push_told(out, word, printed.as_str())
}

fn push_cell(out: &mut String, cell: &Cell) -> Result<(), AllocError> {
    match cell {
        Cell::Item(key) => push_key(out, "item", key),
        Cell::Exists(key) => push_key(out, "exists", key),
        Cell::Patches(key) => push_key(out, "patches", key),
        Cell::Profile(name) => push_told(out, "profile", name.as_str()),
        Cell::Include { from, path } => {
            push_told(out, "include", from.as_str())?;
            out.push(':')?;
            out.push_str(path.as_str())
        }
        Cell::Dict(name) => push_told(out, "dict", name.as_str()),
        Cell::Kind(name) => push_told(out, "kind", name.as_str()),
        Cell::Category(name) => push_told(out, "category", name.as_str()),
        Cell::Ext(name) => push_told(out, "ext", name.as_str()),
    }
}

fn push_cells(out: &mut String, cells: &[Cell]) -> Result<(), AllocError> {
    let mut mark = "";
    for cell in cells {
        out.push_str(mark)?;
        push_cell(out, cell)?;
        mark = ", ";
    }
    Ok(())
}

/// Writes the cells that a share of it says that the item reads.
pub fn push_reads(out: &mut String, built: &Built) -> Result<(), AllocError> {
    let shared = built.share()?;
    push_cells(out, shared.reads())
}
