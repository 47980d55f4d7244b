// The rows of a table, and how what is written about them is laid out.
use crate::{expanded, halves};
use std::alloc::{AllocError, Global};

// Of a row that is written out as many letters as show which one it is.
const SHOWN: usize = 100;

fn push_front(out: &mut String, row: &str) -> Result<(), AllocError> {
    for letter in row.chars().take(SHOWN) {
        out.push(letter)?;
    }
    out.push('\n')
}

fn push_line(out: &mut String, line: &str) -> Result<(), AllocError> {
    out.push_str(line)?;
    out.push('\n')
}

/// Ends the last line, if something was written since the last line ended.
pub fn end_line(out: &mut String) -> Result<(), AllocError> {
    if out.ends_with('\n') {
        return Ok(());
    }
    out.push('\n')
}

/// Writes the bytes, which are a text.
pub fn push_bytes(out: &mut String, bytes: &[u8]) -> Result<(), AllocError> {
    match str::from_utf8(bytes) {
        Ok(text) => out.push_str(text),
        Err(_) => out.push_str("? no text"),
    }
}

// A line `given | ..` gives a text, and a line `also | ..` one more line of it. It is told whether this was one.
fn is_given(given: &mut String, row: &str) -> Result<bool, AllocError> {
    let (word, text) = halves(row, " | ");
    match word {
        "given" => given.clear(),
        "also" => given.push('\n')?,
        _ => return Ok(false),
    }
    given.push_str(text)?;
    Ok(true)
}

/// The row of this line, with what its marks stand for, if the line is one that is to be answered. The front of the
/// row is written, and each title, a line that begins with `##`. A line that begins with `#` is a comment.
pub fn next_row(
    alloc: Global,
    line: &str,
    given: &mut String,
    out: &mut String,
) -> Result<Option<String>, AllocError> {
    if line.starts_with("##") {
        push_line(out, line)?;
    }
    if line.is_empty() || line.starts_with('#') {
        return Ok(None);
    }
    let row = expanded(alloc, line)?;
    if is_given(given, row.as_str())? {
        return Ok(None);
    }
    push_front(out, line)?;
    Ok(Some(row))
}
