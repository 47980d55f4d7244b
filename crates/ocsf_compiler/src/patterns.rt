// The patterns of types, as `regex` takes them.
ghost use Rattle.std.specs.Prelude.{◌≡◌, true, false, IfOk, IsSomeAnd};
ghost use Rattle.ocsf_pattern.specs.Readings.{IsRead, IsGood};
ghost use Rattle.ocsf_rules.specs.Verdict.{HasReadPattern, pattern_refused, IsPatternVerdict};

use ocsf_pattern::{PatternError, Patterns};
use ocsf_raw::TypeEntry;
use ocsf_tree::{Code, Fault, Text};
use std::alloc::{AllocError, Global};

/// Whether the text is admitted as a pattern. A ceiling on memory counts as want of memory.
fn is_admitted(patterns: &mut Patterns, text: &str) -> Result<bool, AllocError>
    ensures read { IfOk result (λ is_so. is_so ≡ true → IsRead text.now) }
    ensures refused { IfOk result (λ is_so. is_so ≡ false → IsGood text.now → ⊥) }
{
    match patterns.admit(text) {
        Ok(()) => Ok(true),
        Err(PatternError::Refused) => Ok(false),
        Err(PatternError::Memory) => Err(AllocError),
    }
}

/// Whether the pattern of the type, where it has one, is admitted.
fn has_admitted_pattern(patterns: &mut Patterns, entry: &TypeEntry) -> Result<bool, AllocError>
    ensures read { IfOk result (λ is_so. is_so ≡ true → HasReadPattern entry.now) }
    ensures refused { IfOk result (λ is_so. is_so ≡ false → IsSomeAnd entry.now.pattern (λ text. IsGood text → ⊥)) }
{
    match &entry.pattern {
        Some(pattern) => is_admitted(patterns, pattern.as_str()),
        None => Ok(true),
    }
}

fn refusal(alloc: Global, entry: &TypeEntry) -> Result<Fault, AllocError>
    ensures { IfOk result (λ made. made ≡ pattern_refused entry.now) }
{
    let mut subject = String::from_str(alloc, "type:")?;
    subject.push_str(entry.name.as_str())?;
    let name = Text::of(alloc, "")?;
    Ok(Fault {
        code: Code::PatternRefused,
        subject: Text::from_string(subject)?,
        name,
    })
}

/// The refusal of the first of these types whose pattern `regex` doesn't take.
pub fn pattern_fault(alloc: Global, types: &[TypeEntry]) -> Result<Option<Fault>, AllocError>
    ensures { IfOk result (IsPatternVerdict types.now) }
{
    let mut patterns = Patterns::new(alloc)?;
    for entry in types {
        if !has_admitted_pattern(&mut patterns, entry)? {
            let fault = refusal(alloc, entry)?;
            return Ok(Some(fault));
        }
    }
    Ok(None)
}
