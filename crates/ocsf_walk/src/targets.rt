// What the type of an attribute leads to: a data type, an object, or the open object.
ghost use Rattle.std.specs.Prelude.{◌≡◌, ◌++◌, ◌∷◌, [], None, Some, IfOk, OnOk, map};
ghost use Rattle.std.specs.Option.{option_map, option_or};
ghost use Rattle.ocsf_schema.specs.declared.records.Target.TheVariants.{Anything};
ghost use Rattle.ocsf_bundle.specs.Looks.{is_there};
ghost use Rattle.ocsf_rules.specs.Names.{tried, exists_cell};
ghost use Rattle.ocsf_rules.specs.Attribute.{type_of, open_object, only_in, object_cells, object_named, target_named};
ghost use Rattle.ocsf_rules.specs.Reads.{type_reads};
ghost use Rattle.ocsf_walk.specs.Typed.{type_lent, kind_cell, object_target};
ghost use Rattle.ocsf_tree.specs.declared.key.Side.TheVariants.{Object};

use crate::names::{has_slash, in_extension, is_shown, resolve};
use ocsf_bundle::{Cell, Shows};
use ocsf_merge::Spoken;
use ocsf_rules::DictSaid;
use ocsf_schema::{Base, Target};
use ocsf_tree::{Key, Row, Side, Text};
use std::alloc::{AllocError, Global};

/// A type as it is written, and the extension that gives it.
#[derive(Clone, Copy, Drop)]
pub struct TypeLent<'a> {
    pub name: &'a Text,
    pub from: &'a Text,
}

/// The type of the attribute: that of the layers, else that of the dictionary.
pub fn type_of<'a>(said: &'a DictSaid, row: &'a Spoken) -> Option<TypeLent<'a>>
    ensures { option_map type_lent result ≡ type_of said.now row.now }
{
    if let Some(name) = &row.attr.type_name {
        let from = &row.type_from;
        return Some(TypeLent { name, from });
    }
    if let Some(written) = &said.type_said {
        let name = &written.name;
        let from = &written.from;
        return Some(TypeLent { name, from });
    }
    None
}

/// The objects that the type may mean in an item of that extension.
fn object_cells(alloc: Global, ext: &str, written: TypeLent<'_>) -> Result<Row<Cell>, AllocError>
    ensures { IfOk result (λ made. made ≡ object_cells ext.now (type_lent written.entry)) }
{
    let side = Side::Object;
    let name = written.name.as_str();
    let from = written.from.as_str();
    let mut cells = Row::new(alloc);
    if has_slash(name) {
        let name = Text::of(alloc, name)?;
        cells.push(Cell::Exists(Key { side, name }))?;
        return Ok(cells);
    }
    push_in(alloc, &mut cells, ext, name)?;
    push_in(alloc, &mut cells, from, name)?;
    let name = Text::of(alloc, name)?;
    cells.push(Cell::Exists(Key { side, name }))?;
    Ok(cells)
}

/// The object of that name in an extension.
fn push_in(alloc: Global, cells: &mut Row<Cell>, ext: &str, name: &str) -> Result<(), AllocError>
    ensures { OnOk result (cells.new ≡ cells.old ++ map (exists_cell Object) (only_in ext.now name.now)) }
{
    if ext.is_empty() {
        return Ok(());
    }
    let side = Side::Object;
    let name = in_extension(alloc, ext, name)?;
    cells.push(Cell::Exists(Key { side, name }))?;
    Ok(())
}

/// The open object, if that is meant.
fn open_object(name: &str) -> Option<Target>
    ensures { result ≡ open_object name.now }
{
    if name == "object" || name == "object_t" {
        Some(Target::Anything)
    } else {
        None
    }
}

/// The object that the type means, else the open object. The cells tried are read.
fn object_named<B: Shows>(
    alloc: Global,
    bundle: &B,
    ext: &str,
    written: TypeLent<'_>,
    reads: &mut Row<Cell>,
) -> Result<Option<Target>, AllocError>
    ensures target { IfOk result (λ made. made
        ≡ option_or (option_map object_target (object_named (B.looks bundle.now) ext.now (type_lent written.entry)))
        (open_object written.entry.name.now)) }
    ensures reads { OnOk result (reads.new
        ≡ reads.old ++ tried (B.looks bundle.now) (object_cells ext.now (type_lent written.entry))) }
{
    let cells = object_cells(alloc, ext, written)?;
    match resolve(bundle, cells.as_slice(), reads)? {
        Some(Cell::Exists(key)) => Ok(Some(Target::Object(key.name.copy()?))),
        _ => Ok(open_object(written.name.as_str())),
    }
}

/// What the type leads to, in an item of that extension. The cells asked are read.
pub fn target_named<B: Shows>(
    alloc: Global,
    bundle: &B,
    ext: &str,
    written: TypeLent<'_>,
    reads: &mut Row<Cell>,
) -> Result<Option<Target>, AllocError>
    ensures target { IfOk result (λ made. made ≡ target_named (B.looks bundle.now) ext.now (type_lent written.entry)) }
    ensures reads { OnOk result (reads.new
        ≡ reads.old ++ type_reads (B.looks bundle.now) ext.now (type_lent written.entry)) }
{
    if Base::named(written.name.as_str()).is_some() {
        return Ok(Some(Target::Simple(written.name.copy()?)));
    }
    if is_listed(bundle, written.name, reads)? {
        return Ok(Some(Target::Simple(written.name.copy()?)));
    }
    object_named(alloc, bundle, ext, written, reads)
}

/// Whether a dictionary lists the type. The cell asked is read.
fn is_listed<B: Shows>(bundle: &B, name: &Text, reads: &mut Row<Cell>) -> Result<bool, AllocError>
    ensures listed { IfOk result (λ listed. listed ≡ is_there ((B.looks bundle.now).kinds name.now)) }
    ensures reads { OnOk result (reads.new ≡ reads.old ++ kind_cell name.now ∷ []) }
{
    let cell = Cell::Kind(name.copy()?);
    let listed = shows_kind(bundle, name, &cell);
    reads.push(cell)?;
    Ok(listed)
}

fn shows_kind<B: Shows>(bundle: &B, name: &Text, cell: &Cell) -> bool
    requires { cell.now ≡ kind_cell name.now }
    ensures { result ≡ is_there ((B.looks bundle.now).kinds name.now) }
{
    is_shown(bundle, cell)
}
