// The items of a bundle, and the least of their faults.
ghost use Rattle.std.specs.Prelude.{◌≡◌, ◌+◌, ◌≤◌, None, IfOk, IfErr, OnOk, filter_map, length};
ghost use Rattle.std.specs.Result.{result_ok, result_err};
ghost use Rattle.ocsf_tree.specs.LeastFault.{least_fault};
ghost use Rattle.ocsf_bundle.specs.FilesLook.{looks};
ghost use Rattle.ocsf_bundle.specs.Listing.{listing};
ghost use Rattle.ocsf_rules.specs.ItemFaults.{item_fault};
ghost use Rattle.ocsf_rules.specs.PrintedSchema.{items};
ghost use Rattle.ocsf_compiler.specs.Building.{sound_item, IsLeast};

use crate::compile_error::CompileError;
use ocsf_bundle::Bundle;
use ocsf_item::{BuildError, build_item};
use ocsf_schema::{Piece, Steps};
use ocsf_tree::{Fault, Key, Row, Shared, lesser_fault};
use std::alloc::{AllocError, Global};
use std::sync::ledger::Ledger;

/// The item of the key, or its least fault.
fn item_or_fault<L: Ledger>(
    alloc: Global,
    bundle: &Bundle,
    key: &Key,
    steps: &mut Steps<L>,
) -> Result<Result<Shared<Piece>, Fault>, AllocError>
    ensures item { IfOk result (λ made. result_ok made
        ≡ sound_item (looks bundle.now.files bundle.now.enabled) key.now) }
    ensures fault { IfOk result (λ made. result_err made
        ≡ item_fault (looks bundle.now.files bundle.now.enabled) key.now) }
    ensures step { steps.new ≡ steps.old + 1 }
{
    match build_item(alloc, bundle, key, steps) {
        Ok(built) => {
            let piece = built.piece().share()?;
            Ok(Ok(piece))
        }
        Err(BuildError::Fault(fault)) => Ok(Err(fault)),
        Err(BuildError::Memory) => Err(AllocError),
    }
}

/// The items that were built, and the least fault of the others.
#[derive(Drop)]
struct Found {
    pieces: Row<Shared<Piece>>,
    least: Option<Fault>,
}

fn found_items<L: Ledger>(
    alloc: Global,
    bundle: &Bundle,
    steps: &mut Steps<L>,
) -> Result<Found, AllocError>
    ensures pieces { IfOk result (λ found. found.pieces
        ≡ filter_map (sound_item (looks bundle.now.files bundle.now.enabled)) (listing bundle.now).items) }
    ensures least { IfOk result (λ found. found.least ≡ least_fault
        (filter_map (item_fault (looks bundle.now.files bundle.now.enabled)) (listing bundle.now).items)) }
    ensures steps { OnOk result (steps.new ≡ steps.old + length (listing bundle.now).items) }
    ensures most_steps { steps.new ≤ steps.old + length (listing bundle.now).items }
{
    let keys = bundle.keys();
    let mut pieces = Row::with_capacity(alloc, keys.len())?;
    let mut least = None;
    for key in keys {
        match item_or_fault(alloc, bundle, key, steps)? {
            Ok(piece) => pieces.push(piece)?,
            Err(fault) => least = lesser_fault(least, fault),
        }
    }
    Ok(Found { pieces, least })
}

/// The items of all active keys, in order, or the least of their faults.
pub fn items_of<L: Ledger>(
    alloc: Global,
    bundle: &Bundle,
    steps: &mut Steps<L>,
) -> Result<Row<Shared<Piece>>, CompileError>
    ensures items { IfOk result (λ made. made
        ≡ items (looks bundle.now.files bundle.now.enabled) (listing bundle.now)) }
    ensures sound { OnOk result
        (least_fault (filter_map (item_fault (looks bundle.now.files bundle.now.enabled)) (listing bundle.now).items)
        ≡ None) }
    ensures fault { IfErr result (IsLeast (least_fault
        (filter_map (item_fault (looks bundle.now.files bundle.now.enabled)) (listing bundle.now).items))) }
    ensures steps { OnOk result (steps.new ≡ steps.old + length (listing bundle.now).items) }
    ensures most_steps { steps.new ≤ steps.old + length (listing bundle.now).items }
{
    let Found { pieces, least } = found_items(alloc, bundle, steps)?;
    match least {
        Some(fault) => Err(CompileError::Fault(fault)),
        None => Ok(pieces),
    }
}
