// What is judged by a kind: the base, the limits and the enumeration.
ghost use Rattle.std.specs.Prelude.{◌≡◌, OnOk, IfOk, IfSome, IsSomeAnd, IsTrue, ◌↔◌, false, is_ok, Some, None};
ghost use Rattle.jiff.specs.Words.{parse_timestamp};
ghost use Rattle.ocsf_tree.specs.Valid.{IsValid};
ghost use Rattle.ocsf_event.specs.declared.violation.Wrong.TheVariants as code;
ghost use Rattle.ocsf_event_rules.specs.Conditions.{IsOfBase, IsInstant, HasPattern, is_key};
ghost use Rattle.ocsf_event_rules.specs.EventClass.{kind_named};
ghost use Rattle.ocsf_event_rules.specs.Violations.{span_text};
ghost use Rattle.ocsf_event.specs.Noted.{Noted};
ghost use Rattle.ocsf_event.specs.Walk.{IsBroken, InLimit, InLimits, IsStrange, IsNoKeyHere, InKind};

use crate::members::is_null;
use crate::notes::Notes;
use crate::violation::Wrong;
use itoa::Buffer;
use jiff::Timestamp;
use ocsf_kind::{Which, breaks, fits_base};
use ocsf_pattern::Patterns;
use ocsf_schema::{Attr, Kind, Limit, Schema};
use ocsf_tree::{EnumMember, Span, Text, Tree};
use std::alloc::{AllocError, Global};

fn is_of_base(kind: &Kind, value: &Tree) -> bool
    ensures { IsTrue result ↔ IsOfBase kind.now.base value.now }
{
    !is_null(value) && fits_base(kind, value)
}

fn judge_length(limit: &Limit, value: &Tree, notes: &mut Notes) -> Result<(), AllocError>
    requires valid { IsValid value.now }
    ensures { OnOk result (Noted (IsBroken code.TooLong limit.now value.now) notes.old notes.new) }
{
    if !breaks(limit, value, Which::MaxLen) {
        return Ok(());
    }
    match limit.max_len {
        Some(most) => {
            let detail = most.to_string(notes.allocator())?;
            notes.add(Wrong::TooLong, detail.as_str())
        }
        None => Ok(()),
    }
}

fn span_text(alloc: Global, span: Span) -> Result<Text, AllocError>
    ensures { IfOk result (λ made. made ≡ span_text span) }
{
    let mut out = span.low.to_string(alloc)?;
    let high = span.high.to_string(alloc)?;
    out.push_str("..")?;
    out.push_str(high.as_str())?;
    Text::from_string(out)
}

fn judge_range(limit: &Limit, value: &Tree, notes: &mut Notes) -> Result<(), AllocError>
    requires valid { IsValid value.now }
    ensures { OnOk result (Noted (IsBroken code.OutOfRange limit.now value.now) notes.old notes.new) }
{
    if !breaks(limit, value, Which::Range) {
        return Ok(());
    }
    match limit.range {
        Some(span) => {
            let detail = span_text(notes.allocator(), span)?;
            notes.add(Wrong::OutOfRange, detail.as_str())
        }
        None => Ok(()),
    }
}

fn is_not_found(patterns: &mut Patterns, limit: &Limit, value: &Tree) -> Result<bool, AllocError>
    ensures { IfOk result (λ missed. (missed ≡ false) ↔ HasPattern limit.now value.now) }
{
    match (&limit.pattern, value) {
        (Some(pattern), Tree::Words(text)) => Ok(!patterns.matches(
            pattern.as_str(),
            text.as_str(),
        )?),
        _ => Ok(false),
    }
}

fn judge_pattern(
    patterns: &mut Patterns,
    limit: &Limit,
    value: &Tree,
    notes: &mut Notes,
) -> Result<(), AllocError>
    ensures { OnOk result (Noted (IsBroken code.Pattern limit.now value.now) notes.old notes.new) }
{
    if !is_not_found(patterns, limit, value)? {
        return Ok(());
    }
    notes.add(Wrong::Pattern, limit.type_name.as_str())
}

fn is_instant(text: &str) -> bool
    ensures { result ≡ is_ok (parse_timestamp text.now) }
{
    text.parse::<Timestamp>().is_ok()
}

fn is_no_instant(limit: &Limit, value: &Tree) -> bool
    ensures { (result ≡ false) ↔ IsInstant limit.now value.now }
{
    match (limit.instant, value) {
        (true, Tree::Words(text)) => !is_instant(text.as_str()),
        _ => false,
    }
}

fn judge_instant(limit: &Limit, value: &Tree, notes: &mut Notes) -> Result<(), AllocError>
    ensures { OnOk result (Noted (IsBroken code.NotAnInstant limit.now value.now) notes.old notes.new) }
{
    if !is_no_instant(limit, value) {
        return Ok(());
    }
    notes.add(Wrong::NotAnInstant, limit.type_name.as_str())
}

fn judge_values(limit: &Limit, value: &Tree, notes: &mut Notes) -> Result<(), AllocError>
    requires valid { IsValid value.now }
    ensures { OnOk result (Noted (IsBroken code.NotAValue limit.now value.now) notes.old notes.new) }
{
    if !breaks(limit, value, Which::Values) {
        return Ok(());
    }
    notes.add(Wrong::NotAValue, limit.type_name.as_str())
}

fn judge_limit(
    patterns: &mut Patterns,
    limit: &Limit,
    value: &Tree,
    notes: &mut Notes,
) -> Result<(), AllocError>
    requires valid { IsValid value.now }
    ensures { OnOk result (Noted (InLimit limit.now value.now) notes.old notes.new) }
{
    judge_length(limit, value, notes)?;
    judge_range(limit, value, notes)?;
    judge_pattern(patterns, limit, value, notes)?;
    judge_instant(limit, value, notes)?;
    judge_values(limit, value, notes)
}

fn judge_limits(
    patterns: &mut Patterns,
    limits: &[Limit],
    value: &Tree,
    notes: &mut Notes,
) -> Result<(), AllocError>
    requires valid { IsValid value.now }
    ensures { OnOk result (Noted (InLimits limits.now value.now) notes.old notes.new) }
{
    for limit in limits {
        judge_limit(patterns, limit, value, notes)?;
    }
    Ok(())
}

fn is_key(members: &[EnumMember], name: &str) -> bool
    ensures { result ≡ is_key members.now name.now }
{
    for member in members {
        if name == member.key.as_str() {
            return true;
        }
    }
    false
}

fn judge_word(members: &[EnumMember], word: &str, notes: &mut Notes) -> Result<(), AllocError>
    ensures { OnOk result (Noted (IsStrange members.now word.now) notes.old notes.new) }
{
    if is_key(members, word) {
        return Ok(());
    }
    notes.add(Wrong::EnumUnknown, word)
}

/// A whole number or a text has to be a key of the enumeration. It takes no memory where it is one.
fn judge_key(attr: &Attr, value: &Tree, notes: &mut Notes) -> Result<(), AllocError>
    ensures { OnOk result (Noted (IsNoKeyHere attr.now value.now) notes.old notes.new) }
{
    if attr.members.is_empty() {
        return Ok(());
    }
    let members = attr.members.as_slice();
    match value {
        Tree::Whole(whole) => {
            let mut buffer = Buffer::new();
            judge_word(members, buffer.format(*whole), notes)
        }
        Tree::Words(text) => judge_word(members, text.as_str(), notes),
        _ => Ok(()),
    }
}

/// The kind of that name, where the value is of its base.
pub(crate) fn kind_of<'a>(schema: &'a Schema, name: &str, value: &Tree) -> Option<&'a Kind>
    ensures known { IfSome result (λ kind. kind_named schema.now name.now ≡ Some kind.now) }
    ensures based { IfSome result (λ kind. IsOfBase kind.now.base value.now) }
    ensures none { result ≡ None
        → IsSomeAnd (kind_named schema.now name.now) (λ kind. IsOfBase kind.base value.now) → ⊥ }
{
    match schema.kind(name) {
        Some(kind) if is_of_base(kind, value) => Some(kind),
        _ => None,
    }
}

/// What is judged by a kind of whose base the value is.
pub(crate) fn judge_kind(
    patterns: &mut Patterns,
    kind: &Kind,
    attr: &Attr,
    value: &Tree,
    notes: &mut Notes,
) -> Result<(), AllocError>
    requires valid { IsValid value.now }
    ensures { OnOk result (Noted (InKind kind.now attr.now value.now) notes.old notes.new) }
{
    judge_limits(patterns, kind.limits.as_slice(), value, notes)?;
    judge_key(attr, value, notes)
}
