// A bundle compiled from scratch.
ghost use Rattle.std.specs.Prelude.{◌≡◌, ◌+◌, ◌≤◌, true, None, is_some, IfOk, IfErr, OnOk, All, length};
ghost use Rattle.ocsf_lists.specs.ByName.{IsByName};
ghost use Rattle.ocsf_raw.specs.Ordered.{IsTypeValid};
ghost use Rattle.ocsf_bundle.specs.BundleFaults.{own_fault};
ghost use Rattle.ocsf_bundle.specs.Listing.{listing};
ghost use Rattle.ocsf_rules.specs.Compilation.{IsCompilation};
ghost use Rattle.ocsf_rules.specs.Verdict.{types_of, bundle_fault, IsFaultless, IsPatternVerdict, IsVerdict};
ghost use Rattle.ocsf_compiler.specs.Building.{IsLeast, fault_in};
ghost use Rattle.ocsf_compiler.specs.Compiles.{IsRefusedFor, IsPatternRefusal};

use crate::compile_error::CompileError;
use crate::items::items_of;
use crate::parts::{parts_of, types_of};
use crate::patterns::pattern_fault;
use crate::schema_fault::schema_fault;
use ocsf_bundle::Bundle;
use ocsf_raw::TypeEntry;
use ocsf_schema::{Piece, Schema, Steps};
use ocsf_tree::{Shared, TryClone};
use std::alloc::Global;
use std::sync::ledger::Ledger;

/// Refuses a bundle whose files as a whole, or whose types, have a fault.
fn sound_files(bundle: &Bundle) -> Result<(), CompileError>
    ensures sound { OnOk result (own_fault bundle.now.files bundle.now.enabled ≡ None) }
    ensures fault { IfErr result (IsLeast (own_fault bundle.now.files bundle.now.enabled)) }
{
    match bundle.own_fault()? {
        Some(fault) => Err(CompileError::Fault(fault)),
        None => Ok(()),
    }
}

/// Refuses a schema that has a fault as a whole.
fn sound_schema(
    alloc: Global,
    schema: &Schema,
    pieces: &[Shared<Piece>],
) -> Result<(), CompileError>
    ensures sound { OnOk result (fault_in schema.now pieces.now ≡ None) }
    ensures fault { IfErr result (IsLeast (fault_in schema.now pieces.now)) }
{
    match schema_fault(alloc, schema, pieces)? {
        Some(fault) => Err(CompileError::Fault(fault)),
        None => Ok(()),
    }
}

/// Refuses types of which one has a pattern that `regex` doesn't take.
fn sound_patterns(alloc: Global, types: &[TypeEntry]) -> Result<(), CompileError>
    ensures sound { OnOk result (IsPatternVerdict types.now None) }
    ensures fault { IfErr result (IsPatternRefusal types.now) }
{
    match pattern_fault(alloc, types)? {
        Some(fault) => Err(CompileError::Fault(fault)),
        None => Ok(()),
    }
}

/// The schema of a bundle whose listed types, merged, are these. Patterns are passed by.
fn schema_of<L: Ledger>(
    alloc: Global,
    bundle: &Bundle,
    types: &[TypeEntry],
    steps: &mut Steps<L>,
) -> Result<Schema, CompileError>
    requires types { types.now ≡ types_of bundle.now }
    requires by_name { IsByName (λ entry. entry.name) types.now }
    requires valid { All IsTypeValid types.now }
    ensures schema { IfOk result (IsCompilation bundle.now) }
    ensures faultless { OnOk result (IsFaultless bundle.now) }
    ensures fault { IfErr result (IsLeast (bundle_fault bundle.now)) }
    ensures steps { OnOk result (steps.new ≡ steps.old + length (listing bundle.now).items) }
    ensures most_steps { steps.new ≤ steps.old + length (listing bundle.now).items }
    ensures no_step { is_some (own_fault bundle.now.files bundle.now.enabled) ≡ true → steps.new ≡ steps.old }
{
    sound_files(bundle)?;
    let pieces = items_of(alloc, bundle, steps)?;
    let items = pieces.try_clone()?;
    let parts = parts_of(alloc, bundle, types, pieces)?;
    let schema = Schema::of(alloc, parts)?;
    sound_schema(alloc, &schema, items.as_slice())?;
    Ok(schema)
}

/// The schema that the bundle is compiled to, from its files alone. It is refused by its least fault,
/// and where it has none by the first type whose pattern `regex` doesn't take. A step is counted for each
/// item that is compiled or refused, and none where the files as a whole, or their types, have a fault.
pub fn compile<L: Ledger>(
    alloc: Global,
    bundle: &Bundle,
    steps: &mut Steps<L>,
) -> Result<Schema, CompileError>
    ensures schema { IfOk result (IsCompilation bundle.now) }
    ensures clean { OnOk result (IsVerdict bundle.now None) }
    ensures refused { IfErr result (IsRefusedFor bundle.now) }
    ensures steps { OnOk result (steps.new ≡ steps.old + length (listing bundle.now).items) }
    ensures most_steps { steps.new ≤ steps.old + length (listing bundle.now).items }
    ensures no_step { is_some (own_fault bundle.now.files bundle.now.enabled) ≡ true → steps.new ≡ steps.old }
{
    let types = types_of(alloc, bundle)?;
    let schema = schema_of(alloc, bundle, types.as_slice(), steps)?;
    sound_patterns(alloc, types.as_slice())?;
    Ok(schema)
}
