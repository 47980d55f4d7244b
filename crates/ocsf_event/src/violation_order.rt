// Violations go by place, then by rank, then by the detail's bytes.
ghost use Rattle.std.specs.Prelude.{◌≡◌, Some};
ghost use Rattle.std.specs.Ordering.{eq_by_cmp};
ghost use Rattle.std.specs.Cmp as Cmp;
ghost use Rattle.std.specs.Cmp.{eq_by_cmp_equiv, po};
ghost use Rattle.std.proofs.Common.{refl};
ghost use Rattle.ocsf_event.specs.Code.{rank, violation_order};
ghost use Rattle.ocsf_event.specs.ViolationOrder.{violation_order_total};

use crate::violation::{Violation, Wrong};
use ocsf_tree::place_order;
use std::cmp::Ordering;

fn rank(code: Wrong) -> u8
    ensures { result ≡ rank code }
{
    match code {
        Wrong::ClassUnknown => 1,
        Wrong::AttributeUnknown => 2,
        Wrong::ProfileInactive => 3,
        Wrong::RequiredMissing => 4,
        Wrong::WrongType => 5,
        Wrong::TooLong => 6,
        Wrong::OutOfRange => 7,
        Wrong::Pattern => 8,
        Wrong::NotAnInstant => 9,
        Wrong::NotAValue => 10,
        Wrong::EnumUnknown => 11,
        Wrong::AtLeastOne => 12,
        Wrong::JustOne => 13,
        Wrong::NumberMismatch => 14,
        Wrong::ProfileUnknown => 15,
    }
}

fn compare(v: &Violation, w: &Violation) -> Ordering
    ensures { result ≡ violation_order v.now w.now }
{
    let places = place_order(&v.place, &w.place);
    if places != Ordering::Equal {
        return places;
    }
    let ranks = rank(v.code).cmp(&rank(w.code));
    if ranks != Ordering::Equal {
        return ranks;
    }
    v.detail.as_str().cmp(&w.detail.as_str())
}

impl PartialEq for Violation {
    ghost eq = { eq_by_cmp violation_order };

    ghost laws = { Cmp.partial_equiv_from_equiv (eq_by_cmp_equiv violation_order_total) };

    fn eq(&self, other: &Violation) -> bool {
        compare(self, other) == Ordering::Equal
    }
}

impl Eq for Violation {
    ghost laws = { eq_by_cmp_equiv violation_order_total };
}

impl PartialOrd for Violation {
    ghost partial_cmp = { λ x y. Some (violation_order x y) };

    ghost laws = { po violation_order_total (λ x y. refl) };

    fn partial_cmp(&self, other: &Violation) -> Option<Ordering> {
        Some(compare(self, other))
    }
}

impl Ord for Violation {
    ghost cmp = { violation_order };

    ghost total = { violation_order_total };

    ghost matches_partial_cmp = { λ x y. refl };

    ghost matches_eq = { λ x y. refl };

    fn cmp(&self, other: &Violation) -> Ordering {
        compare(self, other)
    }
}
