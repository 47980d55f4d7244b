// A report as it is answered.
ghost use Rattle.std.specs.Prelude.{◌≡◌, IfOk, map};
ghost use Rattle.ocsf_tree.specs.Valid.{IsValid};
ghost use Rattle.ocsf_event.specs.Answer.{code_words, word, violation_tree, report_tree};
ghost use Rattle.ocsf_event.specs.Code.{rank, told_violation};

use crate::violation::{Violation, Wrong};
use ocsf_tree::{Member, Row, Text, Tree, pointer};
use std::alloc::{AllocError, Global};

impl Wrong {
    /// The code as reports name it.
    pub fn as_str(self) -> &'static str
        ensures { result.now ≡ code_words (rank self) }
    {
        match self {
            Wrong::ClassUnknown => "class_unknown",
            Wrong::AttributeUnknown => "attribute_unknown",
            Wrong::ProfileInactive => "profile_inactive",
            Wrong::RequiredMissing => "required_missing",
            Wrong::WrongType => "wrong_type",
            Wrong::TooLong => "too_long",
            Wrong::OutOfRange => "out_of_range",
            Wrong::Pattern => "pattern",
            Wrong::NotAnInstant => "not_an_instant",
            Wrong::NotAValue => "not_a_value",
            Wrong::EnumUnknown => "enum_unknown",
            Wrong::AtLeastOne => "at_least_one",
            Wrong::JustOne => "just_one",
            Wrong::NumberMismatch => "number_mismatch",
            Wrong::ProfileUnknown => "profile_unknown",
        }
    }
}

fn word(alloc: Global, name: &str, text: Text) -> Result<Member, AllocError>
    ensures { IfOk result (λ made. made ≡ word name.now text) }
{
    Ok(Member {
        name: Text::of(alloc, name)?,
        value: Tree::Words(text),
    })
}

fn violation_tree(alloc: Global, violation: &Violation) -> Result<Tree, AllocError>
    ensures { IfOk result (λ made. made ≡ violation_tree (told_violation violation.now)) }
{
    let code = Text::of(alloc, violation.code.as_str())?;
    let place = pointer(alloc, &violation.place)?;
    let mut members = Row::new(alloc);
    members.push(word(alloc, "code", code)?)?;
    members.push(word(alloc, "detail", violation.detail.copy()?)?)?;
    members.push(word(alloc, "place", place)?)?;
    Ok(Tree::Members(members))
}

fn violation_trees(alloc: Global, report: &[Violation]) -> Result<Row<Tree>, AllocError>
    ensures { IfOk result (λ made. made ≡ map violation_tree (map told_violation report.now)) }
{
    let mut made = Row::new(alloc);
    for violation in report {
        made.push(violation_tree(alloc, violation)?)?;
    }
    Ok(made)
}

/// The report as it is answered: an object whose one member `violations` lists the violations, each an object of
/// `code`, `detail` and `place`, the place as a JSON Pointer.
pub fn report_tree(alloc: Global, report: &[Violation]) -> Result<Tree, AllocError>
    ensures tree { IfOk result (λ made. made ≡ report_tree (map told_violation report.now)) }
    ensures valid { IfOk result IsValid }
{
    let name = Text::of(alloc, "violations")?;
    let value = Tree::List(violation_trees(alloc, report)?);
    let mut members = Row::new(alloc);
    members.push(Member { name, value })?;
    Ok(Tree::Members(members))
}
