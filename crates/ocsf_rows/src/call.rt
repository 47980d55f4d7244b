// What a row calls.
use crate::edits::{push_edit, push_files};
use crate::faults::push_fault_after;
use crate::kinds::{push_breaks, push_kind, push_limits, push_numbers, push_takes};
use crate::layers::{push_folded, push_picked};
use crate::looks::push_looks;
use crate::shapes::{push_fields, push_form, push_shape, push_words};
use crate::trees::{push_order, push_quoted, push_read};
use ocsf_table::halves;
use std::alloc::{AllocError, Global};

/// What a row calls, by its first word.
enum Call {
    Read,
    Order,
    Quote,
    Form,
    Words,
    Shape,
    Fields,
    Edit,
    Files,
    Fault,
    Looks,
    Fold,
    Pick,
    Kind,
    Limits,
    Takes,
    Breaks,
    Numbers,
}

impl Call {
    fn of_a_value(word: &str) -> Option<Call> {
        match word {
            "read" => Some(Call::Read),
            "order" => Some(Call::Order),
            "quote" => Some(Call::Quote),
            "kind" => Some(Call::Kind),
            "limits" => Some(Call::Limits),
            "takes" => Some(Call::Takes),
            "breaks" => Some(Call::Breaks),
            "numbers" => Some(Call::Numbers),
            _ => None,
        }
    }

    fn of_files(word: &str) -> Option<Call> {
        match word {
            "form" => Some(Call::Form),
            "words" => Some(Call::Words),
            "shape" => Some(Call::Shape),
            "fields" => Some(Call::Fields),
            "edit" => Some(Call::Edit),
            "files" => Some(Call::Files),
            "fault" => Some(Call::Fault),
            "looks" => Some(Call::Looks),
            "fold" => Some(Call::Fold),
            "pick" => Some(Call::Pick),
            _ => None,
        }
    }

    fn named(word: &str) -> Option<Call> {
        match Call::of_a_value(word) {
            Some(call) => Some(call),
            None => Call::of_files(word),
        }
    }
}

// A row that calls nothing is written with a mark, so that it can't be as wanted.
fn push_unknown(out: &mut String, row: &str) -> Result<(), AllocError> {
    out.push_str("? ")?;
    out.push_str(row)
}

fn push_answer(
    alloc: Global,
    out: &mut String,
    given: &str,
    call: Call,
    rest: &str,
) -> Result<(), AllocError> {
    match call {
        Call::Read => push_read(alloc, out, rest),
        Call::Order => push_order(alloc, out, rest),
        Call::Quote => push_quoted(alloc, out, rest),
        Call::Form => push_form(out, rest),
        Call::Words => push_words(out, rest),
        Call::Shape => push_shape(alloc, out, rest),
        Call::Fields => push_fields(alloc, out, rest),
        Call::Edit => push_edit(alloc, out, rest),
        Call::Files => push_files(alloc, out, rest),
        Call::Fault => push_fault_after(alloc, out, given, rest),
        Call::Looks => push_looks(alloc, out, given, rest),
        Call::Fold => push_folded(alloc, out, rest),
        Call::Pick => push_picked(alloc, out, given, rest),
        Call::Kind => push_kind(alloc, out, given, rest),
        Call::Limits => push_limits(alloc, out, rest),
        Call::Takes => push_takes(alloc, out, rest),
        Call::Breaks => push_breaks(alloc, out, rest),
        Call::Numbers => push_numbers(alloc, out, rest),
    }
}

/// Writes what is answered where the row is called. Some rows read what is given for all rows near them.
pub fn answer(alloc: Global, out: &mut String, given: &str, row: &str) -> Result<(), AllocError> {
    let (word, rest) = halves(row, " | ");
    match Call::named(word) {
        Some(call) => push_answer(alloc, out, given, call, rest),
        None => push_unknown(out, row),
    }
}
