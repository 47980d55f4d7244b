// The category of a class, and the numbers of both.
ghost use Rattle.std.specs.Prelude.{◌≡◌, ◌≤◌, ◌++◌, [], IfOk, OnOk, IfSome};
ghost use Rattle.std.specs.Option.{option_map, option_map_or, option_and_then};
ghost use Rattle.ocsf_kind.specs.Numbers.{class_uid};
ghost use Rattle.ocsf_rules.specs.declared.category.Category.{Category};
ghost use Rattle.ocsf_rules.specs.Names.{first_of, tried, category_cells};
ghost use Rattle.ocsf_rules.specs.Compiled.{category_of, category_at, category_named, category_number, ext_uid};
ghost use Rattle.ocsf_bundle.specs.Looks.{BuiltIn, Listed};
ghost use Rattle.ocsf_walk.specs.Ranges.{IsCategoryInRange};
ghost use Rattle.ocsf_walk.specs.Typed.{category_cell, ext_cell};

use ocsf_bundle::{Cell, Part, Shows};
use ocsf_kind::class_uid;
use ocsf_raw::CategoryEntry;
use ocsf_rules::{Category, Written};
use ocsf_tree::{Row, Text, TryClone};
use ocsf_walk::{category_cells, resolve};
use std::alloc::{AllocError, Global};

/// The category that is built in, with that key.
fn built_in(alloc: Global, key: &Text) -> Result<Category, AllocError>
    ensures category { IfOk result (λ made. made ≡ category_of key.now BuiltIn) }
    ensures range { IfOk result IsCategoryInRange }
{
    let caption = Text::of(alloc, "Uncategorized")?;
    let key = key.copy()?;
    Ok(Category {
        key,
        ext_uid: 0,
        uid: 0,
        caption: Some(caption),
    })
}

/// The category of that entry of an extension with that uid.
fn listed(key: &Text, ext_uid: u32, entry: &CategoryEntry) -> Result<Category, AllocError>
    requires extension { ext_uid ≤ 999 }
    requires entry { entry.now.uid ≤ 99 }
    ensures category { IfOk result (λ made. made ≡ category_of key.now (Listed ext_uid entry.now)) }
    ensures range { IfOk result IsCategoryInRange }
{
    let caption = entry.caption.try_clone()?;
    let key = key.copy()?;
    Ok(Category {
        key,
        ext_uid,
        uid: entry.uid,
        caption,
    })
}

/// The category of that key, which the cell asks for.
fn category_shown<B: Shows>(
    alloc: Global,
    bundle: &B,
    key: &Text,
    cell: &Cell,
) -> Result<Option<Category>, AllocError>
    requires { cell.now ≡ category_cell key.now }
    ensures category { IfOk result (λ made. made
        ≡ option_map (category_of key.now) (first_of ((B.looks bundle.now).categories key.now))) }
    ensures range { IfOk result (λ made. IfSome made IsCategoryInRange) }
{
    match bundle.look(cell, 0) {
        Some(Part::Other) => Ok(Some(built_in(alloc, key)?)),
        Some(Part::Category(ext_uid, entry)) => Ok(Some(listed(key, ext_uid, entry)?)),
        _ => Ok(None),
    }
}

/// The category that the cell shows, if it asks for one.
fn category_at<B: Shows>(
    alloc: Global,
    bundle: &B,
    cell: &Cell,
) -> Result<Option<Category>, AllocError>
    ensures category { IfOk result (λ made. made ≡ category_at (B.looks bundle.now) cell.now) }
    ensures range { IfOk result (λ made. IfSome made IsCategoryInRange) }
{
    match cell {
        Cell::Category(key) => category_shown(alloc, bundle, key, cell),
        _ => Ok(None),
    }
}

/// The category that is written, if it is there. The cells tried are read.
fn category_written<B: Shows>(
    alloc: Global,
    bundle: &B,
    written: &Written,
    reads: &mut Row<Cell>,
) -> Result<Option<Category>, AllocError>
    ensures category { IfOk result (λ made. made ≡ category_named (B.looks bundle.now) written.now) }
    ensures range { IfOk result (λ made. IfSome made IsCategoryInRange) }
    ensures reads { OnOk result (reads.new
        ≡ reads.old ++ tried (B.looks bundle.now) (category_cells written.now.ext written.now.name)) }
{
    let cells = category_cells(alloc, written.ext.as_str(), written.name.as_str())?;
    match resolve(bundle, cells.as_slice(), reads)? {
        Some(cell) => category_at(alloc, bundle, cell),
        None => Ok(None),
    }
}

/// The category, if one is written and is there. The cells tried are read.
pub(crate) fn category_named<B: Shows>(
    alloc: Global,
    bundle: &B,
    written: &Option<Written>,
    reads: &mut Row<Cell>,
) -> Result<Option<Category>, AllocError>
    ensures category { IfOk result (λ made. made ≡ option_and_then (category_named (B.looks bundle.now)) written.now) }
    ensures range { IfOk result (λ made. IfSome made IsCategoryInRange) }
    ensures reads { OnOk result (reads.new
        ≡ reads.old ++ option_map_or (λ w. tried (B.looks bundle.now) (category_cells w.ext w.name)) written.now []) }
{
    match written {
        Some(written) => category_written(alloc, bundle, written, reads),
        None => Ok(None),
    }
}

/// The uid of the extension of that name, for which the cell asks.
fn uid_shown<B: Shows>(bundle: &B, ext: &str, cell: &Cell) -> u32
    requires { cell.now ≡ ext_cell ext.now }
    ensures uid { result ≡ option_map_or (λ file. file.uid) (first_of ((B.looks bundle.now).exts ext.now)) 0 }
    ensures range { result ≤ 999 }
{
    match bundle.look(cell, 0) {
        Some(Part::Ext(file)) => file.uid,
        _ => 0,
    }
}

/// The uid of the extension of that name, 0 for core.
pub(crate) fn ext_uid<B: Shows>(alloc: Global, bundle: &B, ext: &str) -> Result<u32, AllocError>
    ensures uid { IfOk result (λ made. made ≡ ext_uid (B.looks bundle.now) ext.now) }
    ensures range { IfOk result (λ made. made ≤ 999) }
{
    if ext.is_empty() {
        return Ok(0);
    }
    let cell = Cell::Ext(Text::of(alloc, ext)?);
    Ok(uid_shown(bundle, ext, &cell))
}

/// The number of the category.
pub(crate) fn category_number(category: &Option<Category>) -> Option<u32>
    requires { IfSome category.now IsCategoryInRange }
    ensures { result ≡ option_map category_number category.now }
{
    match category {
        Some(category) => Some(category.ext_uid * 100 + category.uid),
        None => None,
    }
}

/// The number of a class of an extension with that uid, 0 for core.
pub(crate) fn class_number(
    ext_uid: u32,
    uid: Option<u32>,
    category: &Option<Category>,
) -> Option<u64>
    requires extension { ext_uid ≤ 999 }
    requires uid { IfSome uid (λ uid. uid ≤ 999) }
    requires category { IfSome category.now IsCategoryInRange }
    ensures number { result
        ≡ option_and_then (λ u. option_map (λ (c : Category). class_uid ext_uid c.uid u) category.now) uid }
    ensures range { IfSome result (λ number. number ≤ 99999999) }
{
    let uid = uid?;
    match category {
        Some(category) => Some(class_uid(ext_uid, category.uid, uid)),
        None => None,
    }
}
