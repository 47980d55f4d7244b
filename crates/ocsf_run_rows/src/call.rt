// What a row calls.
use crate::commands::{push_cut_anywhere, push_edits, push_run};
use crate::items::{push_item, push_item_reads, push_length, push_picked};
use crate::lookups::push_found;
use crate::schemas::push_schema;
use ocsf_table::halves;
use std::alloc::{AllocError, Global};

/// What a row calls, by its first word.
enum Call {
    Item,
    Reads,
    Length,
    Pick,
    Schema,
    Find,
    Edits,
    Cuts,
    Run,
}

impl Call {
    fn named(word: &str) -> Option<Call> {
        match word {
            "item" => Some(Call::Item),
            "reads" => Some(Call::Reads),
            "length" => Some(Call::Length),
            "pick" => Some(Call::Pick),
            "schema" => Some(Call::Schema),
            "find" => Some(Call::Find),
            "edits" => Some(Call::Edits),
            "cuts" => Some(Call::Cuts),
            "run" => Some(Call::Run),
            _ => None,
        }
    }
}

// A row that calls nothing is written with a mark, so that it can't be as wanted.
fn push_unknown(out: &mut String, row: &str) -> Result<(), AllocError> {
    out.push_str("? ")?;
    out.push_str(row)
}

fn push_answer(
    alloc: Global,
    out: &mut String,
    given: &str,
    call: Call,
    rest: &str,
) -> Result<(), AllocError> {
    match call {
        Call::Item => push_item(alloc, out, given, rest),
        Call::Reads => push_item_reads(alloc, out, given, rest),
        Call::Length => push_length(alloc, out, given, rest),
        Call::Pick => push_picked(alloc, out, given, rest),
        Call::Schema => push_schema(alloc, out, rest),
        Call::Find => push_found(alloc, out, rest),
        Call::Edits => push_edits(alloc, out, rest),
        Call::Cuts => push_cut_anywhere(alloc, out, rest),
        Call::Run => push_run(alloc, out, given, rest),
    }
}

/// Writes what is answered where the row is called. Some rows read what is given for all rows near them.
pub fn answer(alloc: Global, out: &mut String, given: &str, row: &str) -> Result<(), AllocError> {
    let (word, rest) = halves(row, " | ");
    match Call::named(word) {
        Some(call) => push_answer(alloc, out, given, call, rest),
        None => push_unknown(out, row),
    }
}
