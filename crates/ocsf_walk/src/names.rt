// How names resolve: the cells that a name leads to, tried in order.
ghost use Rattle.std.specs.Prelude.{◌≡◌, ◌++◌, IfOk, OnOk};
ghost use Rattle.std.specs.Option.{option_copied};
ghost use Rattle.ocsf_rules.specs.Names.{
  ext_of,
  has_slash,
  in_extension,
  key_in,
  item_cells,
  profile_cells,
  category_cells,
  include_cells,
  is_shown,
  found,
  tried,
};

use ocsf_bundle::{Cell, Shows};
use ocsf_tree::{Key, Row, Side, Text, TryClone};
use std::alloc::{AllocError, Global};

pub fn has_slash(name: &str) -> bool
    ensures { result ≡ has_slash name.now }
{
    name.as_bytes().contains(&b'/')
}

/// The extension of a key, empty for core.
pub fn ext_of(key: &str) -> &str
    ensures { result.now ≡ ext_of key.now }
{
    match key.split_once('/') {
        Some((ext, _)) => ext,
        None => "",
    }
}

/// The key of a name in an extension.
pub fn in_extension(alloc: Global, ext: &str, name: &str) -> Result<Text, AllocError>
    ensures { IfOk result (λ made. made ≡ in_extension ext.now name.now) }
{
    let mut made = String::from_str(alloc, ext)?;
    made.push_str("/")?;
    made.push_str(name)?;
    Text::from_string(made)
}

/// The key of what a file of that extension, empty for core, names.
pub fn key_in(alloc: Global, ext: &str, name: &str) -> Result<Text, AllocError>
    ensures { IfOk result (λ made. made ≡ key_in ext.now name.now) }
{
    if ext.is_empty() {
        Text::of(alloc, name)
    } else {
        in_extension(alloc, ext, name)
    }
}

/// Whether an item is there, of each key that the name may mean in a file of that extension.
pub fn item_cells(alloc: Global, side: Side, ext: &str, name: &str) -> Result<Row<Cell>, AllocError>
    ensures { IfOk result (λ made. made ≡ item_cells side ext.now name.now) }
{
    let mut cells = Row::new(alloc);
    if !ext.is_empty() && !has_slash(name) {
        let name = in_extension(alloc, ext, name)?;
        cells.push(Cell::Exists(Key { side, name }))?;
    }
    let name = Text::of(alloc, name)?;
    cells.push(Cell::Exists(Key { side, name }))?;
    Ok(cells)
}

/// The profiles that the name may mean in a file of that extension.
pub fn profile_cells(alloc: Global, ext: &str, name: &str) -> Result<Row<Cell>, AllocError>
    ensures { IfOk result (λ made. made ≡ profile_cells ext.now name.now) }
{
    let mut cells = Row::new(alloc);
    if !ext.is_empty() && !has_slash(name) {
        cells.push(Cell::Profile(in_extension(alloc, ext, name)?))?;
    }
    cells.push(Cell::Profile(Text::of(alloc, name)?))?;
    Ok(cells)
}

/// The categories that the name may mean in a file of that extension.
pub fn category_cells(alloc: Global, ext: &str, name: &str) -> Result<Row<Cell>, AllocError>
    ensures { IfOk result (λ made. made ≡ category_cells ext.now name.now) }
{
    let mut cells = Row::new(alloc);
    if !ext.is_empty() && !has_slash(name) {
        cells.push(Cell::Category(in_extension(alloc, ext, name)?))?;
    }
    cells.push(Cell::Category(Text::of(alloc, name)?))?;
    Ok(cells)
}

fn include_cell(alloc: Global, from: &str, path: &str) -> Result<Cell, AllocError>
    ensures { IfOk result (λ made. made ≡ Cell.Include from.now path.now) }
{
    Ok(Cell::Include {
        from: Text::of(alloc, from)?,
        path: Text::of(alloc, path)?,
    })
}

/// The files that the path may mean in a file of that extension.
pub fn include_cells(alloc: Global, ext: &str, path: &str) -> Result<Row<Cell>, AllocError>
    ensures { IfOk result (λ made. made ≡ include_cells ext.now path.now) }
{
    let mut cells = Row::new(alloc);
    if ext.is_empty() {
        cells.push(include_cell(alloc, "", path)?)?;
        return Ok(cells);
    }
    cells.push(include_cell(alloc, ext, path)?)?;
    cells.push(include_cell(alloc, "", path)?)?;
    Ok(cells)
}

/// Whether the cell shows something.
pub fn is_shown<B: Shows>(bundle: &B, cell: &Cell) -> bool
    ensures { result ≡ is_shown (B.looks bundle.now) cell.now }
{
    bundle.look(cell, 0).is_some()
}

/// The first of these cells that shows something. The cells tried are read.
pub fn resolve<'a, B: Shows>(
    bundle: &B,
    cells: &'a [Cell],
    reads: &mut Row<Cell>,
) -> Result<Option<&'a Cell>, AllocError>
    ensures found { IfOk result (λ made. option_copied made ≡ found (B.looks bundle.now) cells.now) }
    ensures reads { OnOk result (reads.new ≡ reads.old ++ tried (B.looks bundle.now) cells.now) }
{
    for cell in cells {
        let there = is_shown(bundle, cell);
        reads.push(cell.try_clone()?)?;
        if there {
            return Ok(Some(cell));
        }
    }
    Ok(None)
}
