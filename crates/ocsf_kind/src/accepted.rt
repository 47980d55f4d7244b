// The values that a base and a limit take.
ghost use Rattle.std.specs.Prelude.{◌≡◌, IsTrue, ◌↔◌, false, length, Contains};
ghost use Rattle.std.specs.Str.{chars};
ghost use Rattle.ocsf_tree.specs.Valid.{IsValid};
ghost use Rattle.ocsf_tree.specs.declared.tree.Tree.{out-Tree};
ghost use Rattle.ocsf_kind.specs.Accepted.{IsSigned64, FitsBase, IsWithinLength, IsWithinRange, IsListed, Meets};

use ocsf_schema::{Base, Kind, Limit};
use ocsf_tree::{Row, Span, Tree, is_same};

/// The parts of a limit that are judged without more; a pattern and an instant are judged elsewhere.
#[derive(Clone, Copy, Debug, PartialEq, Eq)]
pub enum Which {
    /// The length of a text, in Unicode characters.
    MaxLen,
    /// The range of a whole number, both ends included.
    Range,
    /// The values listed, of any sort.
    Values,
}

fn is_signed_64(whole: i128) -> bool
    ensures { IsTrue result ↔ IsSigned64 whole }
{
    i128::from(i64::MIN) <= whole && whole <= i128::from(i64::MAX)
}

/// Whether the value is of the kind's base: a truth value, a text, a signed 64-bit whole number, any whole
/// number, or, under `json_t`, any value, `null` too. No other base takes `null`; that an event's value isn't
/// `null` is for the caller to ask. It takes no memory.
pub fn fits_base(kind: &Kind, value: &Tree) -> bool
    ensures { IsTrue result ↔ FitsBase kind.now.base value.now }
{
    match (kind.base, value) {
        (Base::Boolean, Tree::Flag(_)) => true,
        (Base::Words, Tree::Words(_)) => true,
        (Base::Integer | Base::Long, Tree::Whole(whole)) => is_signed_64(*whole),
        (Base::Float, Tree::Whole(_)) => true,
        (Base::Json, _) => true,
        _ => false,
    }
}

fn char_count(text: &str) -> usize
    ensures { result ≡ length (chars text.now) }
{
    text.chars().count()
}

fn is_longer(most: Option<u64>, value: &Tree) -> bool
    ensures { (result ≡ false) ↔ IsWithinLength most (out-Tree value.now) }
{
    match (most, value) {
        (Some(most), Tree::Words(text)) => most < char_count(text.as_str()) as u64,
        _ => false,
    }
}

fn is_outside(span: Option<Span>, value: &Tree) -> bool
    ensures { (result ≡ false) ↔ IsWithinRange span (out-Tree value.now) }
{
    match (span, value) {
        (Some(span), Tree::Whole(whole)) => *whole < span.low || span.high < *whole,
        _ => false,
    }
}

fn contains(values: &[Tree], value: &Tree) -> bool
    requires { IsValid value.now }
    ensures { IsTrue result ↔ Contains values.now value.now }
{
    for listed in values {
        if is_same(value, listed) {
            return true;
        }
    }
    false
}

fn is_unlisted(values: &Option<Row<Tree>>, value: &Tree) -> bool
    requires { IsValid value.now }
    ensures { (result ≡ false) ↔ IsListed values.now value.now }
{
    match values {
        Some(values) => !contains(values.as_slice(), value),
        None => false,
    }
}

/// Whether that part of the limit is given and the value breaks it. It takes no memory.
pub fn breaks(limit: &Limit, value: &Tree, which: Which) -> bool
    requires { IsValid value.now }
    ensures { (result ≡ false) ↔ Meets which limit.now value.now }
{
    match which {
        Which::MaxLen => is_longer(limit.max_len, value),
        Which::Range => is_outside(limit.range, value),
        Which::Values => is_unlisted(&limit.values, value),
    }
}
