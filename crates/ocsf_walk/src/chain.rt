// The chain of an item.
ghost use Rattle.std.specs.Prelude.{◌≡◌, ◌≤◌, ◌++◌, ◌∷◌, [], flat_map, Option, IfOk, OnOk, IfSome};
ghost use Rattle.std.specs.Option.{option_copied};
ghost use Rattle.ocsf_raw.specs.Ordered.{AreEntriesOrdered};
ghost use Rattle.ocsf_tree.specs.LeastFault.{least_from, least_fault};
ghost use Rattle.ocsf_tree.specs.Key.{key_text};
ghost use Rattle.ocsf_tree.specs.declared.fault.Code.TheVariants.{ParentUnknown};
ghost use Rattle.ocsf_rules.specs.Chain.{own_file, written_parent, parent, parent_named, chain};
ghost use Rattle.ocsf_rules.specs.Names.{tried, item_cells, ext_of};
ghost use Rattle.ocsf_rules.specs.ItemFaults.{fault, parent_fault};
ghost use Rattle.ocsf_rules.specs.Reads.{key_reads, parent_reads};
ghost use Rattle.ocsf_walk.specs.Speakers.{patches_cell};
ghost use Rattle.ocsf_walk.specs.Typed.{item_cell};

use crate::names::{ext_of, item_cells, resolve};
use ocsf_bundle::{Cell, Part, Shows};
use ocsf_raw::ItemFile;
use ocsf_tree::{Code, Fault, Key, Row, Text, TryClone, lesser_fault};
use std::alloc::{AllocError, Global};

/// The item's own file, for which the cell asks.
fn file_shown<'a, B: Shows>(bundle: &'a B, key: &Key, cell: &Cell) -> Option<&'a ItemFile>
    requires { cell.now ≡ item_cell key.now }
    ensures file { option_copied result ≡ own_file (B.looks bundle.now) key.now }
    ensures ordered { IfSome result (λ file. AreEntriesOrdered file.now.attributes) }
    ensures range { IfSome result (λ file. IfSome file.now.uid (λ uid. uid ≤ 999)) }
{
    match bundle.look(cell, 0) {
        Some(Part::Item(file)) => Some(file),
        _ => None,
    }
}

/// The item's own file.
pub fn own_file<'a, B: Shows>(bundle: &'a B, key: &Key) -> Result<Option<&'a ItemFile>, AllocError>
    ensures file { IfOk result (λ file. option_copied file ≡ own_file (B.looks bundle.now) key.now) }
    ensures ordered { IfOk result (λ file. IfSome file (λ file. AreEntriesOrdered file.now.attributes)) }
    ensures range { IfOk result (λ file. IfSome file (λ file. IfSome file.now.uid (λ uid. uid ≤ 999))) }
{
    let cell = Cell::Item(key.try_clone()?);
    Ok(file_shown(bundle, key, &cell))
}

/// The parent as it is written.
pub fn written_parent<'a, B: Shows>(
    bundle: &'a B,
    key: &Key,
) -> Result<Option<&'a Text>, AllocError>
    ensures { IfOk result (λ name. option_copied name ≡ written_parent (B.looks bundle.now) key.now) }
{
    match own_file(bundle, key)? {
        Some(file) => Ok(file.parent.as_ref()),
        None => Ok(None),
    }
}

/// The item that the key names as its parent. The cells tried are read.
fn parent_named<B: Shows>(
    alloc: Global,
    bundle: &B,
    key: &Key,
    name: &str,
    reads: &mut Row<Cell>,
) -> Result<Option<Key>, AllocError>
    ensures found { IfOk result (λ made. made ≡ parent_named (B.looks bundle.now) key.now name.now) }
    ensures reads { OnOk result (reads.new
        ≡ reads.old ++ tried (B.looks bundle.now) (item_cells key.now.side (ext_of key.now.name) name.now)) }
{
    let cells = item_cells(alloc, key.side, ext_of(key.name.as_str()), name)?;
    match resolve(bundle, cells.as_slice(), reads)? {
        Some(Cell::Exists(parent)) => Ok(Some(parent.try_clone()?)),
        _ => Ok(None),
    }
}

/// The fault of a parent that isn't there.
fn blame_parent(key: &Key, name: &Text, least: &mut Option<Fault>) -> Result<(), AllocError>
    ensures { OnOk result (least.new ≡ least_from least.old (fault ParentUnknown (key_text key.now) name.now ∷ [])) }
{
    let subject = key.to_text()?;
    let name = name.copy()?;
    let fault = Fault {
        code: Code::ParentUnknown,
        subject,
        name,
    };
    let before = least.take();
    *least = lesser_fault(before, fault);
    Ok(())
}

/// The key's parent, with the least fault so far and its own. The cells tried are read.
fn parent_of<B: Shows>(
    alloc: Global,
    bundle: &B,
    key: &Key,
    least: &mut Option<Fault>,
    reads: &mut Row<Cell>,
) -> Result<Option<Key>, AllocError>
    ensures found { IfOk result (λ made. made ≡ parent (B.looks bundle.now) key.now) }
    ensures least { OnOk result (least.new ≡ least_from least.old (parent_fault (B.looks bundle.now) key.now)) }
    ensures reads { OnOk result (reads.new ≡ reads.old ++ parent_reads (B.looks bundle.now) key.now) }
{
    let name = written_parent(bundle, key)?;
    let Some(name) = name else {
        return Ok(None);
    };
    match parent_named(alloc, bundle, key, name.as_str(), reads)? {
        Some(parent) => Ok(Some(parent)),
        None => {
            blame_parent(key, name, least)?;
            Ok(None)
        }
    }
}

/// The cells of the key that are read whatever its file says.
fn read_key(key: &Key, reads: &mut Row<Cell>) -> Result<(), AllocError>
    ensures { OnOk result (reads.new ≡ reads.old ++ item_cell key.now ∷ patches_cell key.now ∷ []) }
{
    reads.push(Cell::Item(key.try_clone()?))?;
    reads.push(Cell::Patches(key.try_clone()?))?;
    Ok(())
}

/// The key's parent, with the least fault so far and its own. The cells of the key are read.
fn climb<B: Shows>(
    alloc: Global,
    bundle: &B,
    key: &Key,
    least: &mut Option<Fault>,
    reads: &mut Row<Cell>,
) -> Result<Option<Key>, AllocError>
    ensures found { IfOk result (λ made. made ≡ parent (B.looks bundle.now) key.now) }
    ensures least { OnOk result (least.new ≡ least_from least.old (parent_fault (B.looks bundle.now) key.now)) }
    ensures reads { OnOk result (reads.new ≡ reads.old ++ key_reads (B.looks bundle.now) key.now) }
{
    read_key(key, reads)?;
    parent_of(alloc, bundle, key, least, reads)
}

/// The keys of the chain, up to 33, and the least fault of a parent that isn't there.
#[derive(Drop)]
pub struct Chain {
    pub keys: Row<Key>,
    pub least: Option<Fault>,
}

/// The chain of an item. The cells of its keys are read.
pub fn chain_of<B: Shows>(
    alloc: Global,
    bundle: &B,
    key: &Key,
    reads: &mut Row<Cell>,
) -> Result<Chain, AllocError>
    ensures keys { IfOk result (λ made. made.keys ≡ chain (B.looks bundle.now) key.now) }
    ensures least { IfOk result (λ made. made.least
        ≡ least_fault (flat_map (parent_fault (B.looks bundle.now)) (chain (B.looks bundle.now) key.now))) }
    ensures reads { OnOk result (reads.new
        ≡ reads.old ++ flat_map (key_reads (B.looks bundle.now)) (chain (B.looks bundle.now) key.now)) }
{
    let mut keys = Row::new(alloc);
    let mut least = None;
    let mut now = key.try_clone()?;
    let mut left: u32 = 33;
    while left > 0 {
        left -= 1;
        let parent = climb(alloc, bundle, &now, &mut least, reads)?;
        keys.push(now)?;
        match parent {
            Some(parent) => now = parent,
            None => return Ok(Chain { keys, least }),
        }
    }
    Ok(Chain { keys, least })
}
