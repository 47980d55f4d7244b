// A line is judged.
ghost use Rattle.std.specs.Prelude.{◌≡◌, ◌<◌, ◌≤◌, true, false, length, Err, All, IfOk};
ghost use Rattle.ocsf_tree.specs.Valid.{IsValid};
ghost use Rattle.ocsf_bundle.specs.Edits.{IsValidChange};
ghost use Rattle.ocsf_rules.specs.Judgement.{last_revision};
ghost use Rattle.ocsf_rules.specs.Verdict.{IsVerdict};
ghost use Rattle.ocsf_tool.specs.Edits.{IsChangesOutcome, IsTreeOutcome, IsLineOutcome, IsLineJudgement, line_fault};
ghost use Rattle.ocsf_tool.specs.Judging.{IsBundleOutcome};
ghost use Rattle.ocsf_tool.specs.Outcomes.{outcome_of, NumbersNext};

use crate::compilation::{Compilation, schema_of};
use crate::outcome::Outcome;
use ocsf_bundle::{Bundle, Edit, edit_of};
use ocsf_compiler::CompileError;
use ocsf_raw::RawError;
use ocsf_tree::{Code, Fault, Text, Tree, TreeError, pointer, read};
use std::alloc::{AllocError, Global};

/// The most bytes of an edit's line.
pub const MOST_EDIT: usize = 1 << 24;

/// A fault without a subject.
pub fn line_fault_of(alloc: Global, code: Code, name: Text) -> Result<Fault, AllocError>
    ensures { IfOk result (λ fault. fault ≡ line_fault code name) }
{
    let subject = Text::of(alloc, "")?;
    Ok(Fault {
        code,
        subject,
        name,
    })
}

/// The verdict on a bundle.
fn verdict_on(alloc: Global, bundle: &Bundle) -> Result<Option<Fault>, AllocError>
    ensures { IfOk result (λ verdict. IsVerdict bundle.now verdict) }
{
    let refusal = schema_of(alloc, bundle).err();
    match refusal {
        None => Ok(None),
        Some(CompileError::Fault(fault)) => Ok(Some(fault)),
        Some(CompileError::Memory) => Err(AllocError),
    }
}

/// Why the bundle isn't accepted where no revision is left: its own fault comes first.
fn last_fault(alloc: Global, bundle: &Bundle) -> Result<Fault, AllocError>
    ensures { IfOk result (λ fault. IsBundleOutcome last_revision bundle.now (Err fault)) }
{
    if let Some(fault) = verdict_on(alloc, bundle)? {
        return Ok(fault);
    }
    let name = Text::of(alloc, "4294967295")?;
    let fault = line_fault_of(alloc, Code::LastRevision, name)?;
    Ok(fault)
}

/// Judges the bundle that an edit would leave, at the revision before it.
fn judge_bundle(alloc: Global, bundle: Bundle, revision: u32) -> Result<Outcome, AllocError>
    ensures outcome { IfOk result (λ outcome. IsBundleOutcome revision bundle (outcome_of outcome)) }
    ensures next { IfOk result (NumbersNext revision) }
{
    if revision == u32::MAX {
        let fault = last_fault(alloc, &bundle)?;
        return Ok(Outcome::Refused(fault));
    }
    match Compilation::of(alloc, bundle, revision + 1) {
        Ok(next) => Ok(Outcome::Accepted(next)),
        Err(CompileError::Fault(fault)) => Ok(Outcome::Refused(fault)),
        Err(CompileError::Memory) => Err(AllocError),
    }
}

/// Judges the changes of an edit.
fn judge_edit(alloc: Global, now: &Compilation, edit: &Edit) -> Result<Outcome, AllocError>
    requires { All IsValidChange edit.now.changes }
    ensures outcome { IfOk result (λ outcome. IsChangesOutcome
        (record { bundle = now.now.bundle; revision = now.now.revision }) edit.now.changes (outcome_of outcome)) }
    ensures next { IfOk result (NumbersNext now.now.revision) }
{
    match now.bundle.after(edit) {
        Ok(bundle) => {
            let outcome = judge_bundle(alloc, bundle, now.revision)?;
            Ok(outcome)
        }
        Err(RawError::Fault(fault)) => Ok(Outcome::Refused(fault)),
        Err(RawError::Memory) => Err(AllocError),
    }
}

/// Judges a tree as an edit.
fn judge_tree(alloc: Global, now: &Compilation, tree: &Tree) -> Result<Outcome, AllocError>
    requires { IsValid tree.now }
    ensures outcome { IfOk result (λ outcome. IsTreeOutcome
        (record { bundle = now.now.bundle; revision = now.now.revision }) tree.now (outcome_of outcome)) }
    ensures next { IfOk result (NumbersNext now.now.revision) }
{
    match edit_of(alloc, tree) {
        Ok(edit) => {
            let outcome = judge_edit(alloc, now, &edit)?;
            Ok(outcome)
        }
        Err(RawError::Fault(fault)) => Ok(Outcome::Refused(fault)),
        Err(RawError::Memory) => Err(AllocError),
    }
}

/// Judges a line that isn't too long.
fn judge_text(alloc: Global, now: &Compilation, line: &[u8]) -> Result<Outcome, AllocError>
    ensures outcome { IfOk result (λ outcome. IsLineOutcome
        (record { bundle = now.now.bundle; revision = now.now.revision }) line.now (outcome_of outcome)) }
    ensures next { IfOk result (NumbersNext now.now.revision) }
{
    match read(alloc, line) {
        Ok(tree) => {
            let outcome = judge_tree(alloc, now, &tree)?;
            Ok(outcome)
        }
        Err(TreeError::NotJson) => {
            let name = Text::of(alloc, "")?;
            let fault = line_fault_of(alloc, Code::NotJson, name)?;
            Ok(Outcome::Refused(fault))
        }
        Err(TreeError::NumberNotWhole(place)) => {
            let name = pointer(alloc, &place)?;
            let fault = line_fault_of(alloc, Code::NumberNotWhole, name)?;
            Ok(Outcome::Refused(fault))
        }
        Err(TreeError::Memory) => Err(AllocError),
    }
}

/// Whether the line has more bytes.
pub fn is_longer(line: &[u8], most: usize) -> bool
    ensures longer { result ≡ true → most < length line.now }
    ensures no_longer { result ≡ false → length line.now ≤ most }
{
    line.len() > most
}

/// Judges a line. What stands now stays as it is.
pub fn judge(alloc: Global, now: &Compilation, line: &[u8]) -> Result<Outcome, AllocError>
    ensures judgement { IfOk result (λ outcome. IsLineJudgement
        (record { bundle = now.now.bundle; revision = now.now.revision }) line.now (outcome_of outcome)) }
    ensures next { IfOk result (NumbersNext now.now.revision) }
{
    if is_longer(line, MOST_EDIT) {
        let name = Text::of(alloc, "edit")?;
        let fault = line_fault_of(alloc, Code::Limit, name)?;
        return Ok(Outcome::Refused(fault));
    }
    let outcome = judge_text(alloc, now, line)?;
    Ok(outcome)
}
