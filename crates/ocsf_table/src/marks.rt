// The marks of a row, which stand for text that is long or that a line can't hold.
use crate::halves;
use std::alloc::{AllocError, Global};

fn push_number(text: &mut String, number: u64) -> Result<(), AllocError> {
    let digits = format!(in *text.allocator(); "{number}")?;
    text.push_str(digits.as_str())
}

// The template, with the number in place of `#` and the next one of `+`.
fn push_numbered(text: &mut String, template: &str, number: u64) -> Result<(), AllocError> {
    for letter in template.chars() {
        match letter {
            '#' => push_number(text, number)?,
            '+' => push_number(text, number.wrapping_add(1))?,
            _ => text.push(letter)?,
        }
    }
    Ok(())
}

fn push_each(text: &mut String, from: u64, to: u64, template: &str) -> Result<(), AllocError> {
    for number in from..to {
        push_numbered(text, template, number)?;
    }
    Ok(())
}

fn push_times(text: &mut String, count: u64, part: &str) -> Result<(), AllocError> {
    for _ in 0..count {
        text.push_str(part)?;
    }
    Ok(())
}

// What stands for the word: `3 ab` for the text three times, `10..13 x#,` for the text with each number.
fn push_meant(text: &mut String, word: &str) -> Result<(), AllocError> {
    let (count, part) = halves(word, " ");
    let (from, to) = halves(count, "..");
    let from = from.parse::<u64>().unwrap_or(0);
    match to.parse::<u64>() {
        Ok(to) => push_each(text, from, to, part),
        Err(_) => push_times(text, from, part),
    }
}

/// The row with what its marks stand for. `«3 ab»` is the text three times; `«10..13 x#+,»` is the text for each
/// number from 10 up to and without 13, with the number in place of `#` and the next one in place of `+`.
pub fn expanded(alloc: Global, row: &str) -> Result<String, AllocError> {
    let mut text = String::new(alloc);
    for part in row.split('«') {
        match part.split_once('»') {
            Some((word, rest)) => {
                push_meant(&mut text, word)?;
                text.push_str(rest)?;
            }
            None => text.push_str(part)?,
        }
    }
    Ok(text)
}

// The letter that the picture of a control character stands for; any other stands for itself.
fn pictured(letter: char) -> char {
    match letter {
        '␉' => '\t',
        '␊' => '\n',
        '␍' => '\r',
        '␟' => '\u{1f}',
        '␡' => '\u{7f}',
        _ => letter,
    }
}

fn push_pictured(bytes: &mut Vec<u8>, part: &str) -> Result<(), AllocError> {
    let mut text = String::new(*bytes.allocator());
    for letter in part.chars() {
        text.push(pictured(letter))?;
    }
    bytes.extend_from_slice(text.as_bytes())
}

/// The bytes that a field stands for: the pictures of control characters stand for these, and `�` for the byte 255,
/// which is in no text.
pub fn bytes_of(alloc: Global, field: &str) -> Result<Vec<u8>, AllocError> {
    let mut bytes = Vec::new(alloc);
    let mut parts = field.split('�');
    push_pictured(&mut bytes, parts.next().unwrap_or_default())?;
    for part in parts {
        bytes.push(255)?;
        push_pictured(&mut bytes, part)?;
    }
    Ok(bytes)
}
