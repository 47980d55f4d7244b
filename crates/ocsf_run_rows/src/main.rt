//! Reads a table from standard input, a row a line, calls what each row names, and writes what is answered. The
//! rows are of items, schemas and the commands, over objects in memory; the file `stdout` holds what is wanted.
#![tactic(auto)]

mod bundles;
mod call;
mod commands;
mod items;
mod lookups;
mod objects;
mod reads;
mod schemas;
mod small_sink;

use call::answer;
use commands::push_of_the_system;
use ocsf_table::{end_line, next_row};
use std::alloc::AllocError;
use std::io;

// A row `system` is answered over the folders of the system, and any other in memory.
fn answer_row(
    rt: &HostRuntime,
    out: &mut String,
    given: &str,
    row: &str,
) -> Result<(), AllocError> {
    match row.strip_prefix("system | ") {
        Some(rest) => push_of_the_system(rt, out, rest),
        None => answer(rt.alloc(), out, given, row),
    }
}

fn answers(rt: &HostRuntime, table: &str) -> Result<String, AllocError> {
    let mut out = String::new(rt.alloc());
    let mut given = String::new(rt.alloc());
    for line in table.lines() {
        if let Some(row) = next_row(rt.alloc(), line, &mut given, &mut out)? {
            answer_row(rt, &mut out, given.as_str(), row.as_str())?;
            end_line(&mut out)?;
        }
    }
    Ok(out)
}

fn main(rt: HostRuntime) -> io::Result<()> {
    let table = io::read_to_string(rt.alloc(), rt.reader())?;
    let written = answers(&rt, table.as_str())?;
    rt.print(written.as_str())
}
