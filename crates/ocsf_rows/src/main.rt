//! Reads a table from standard input, a row a line, calls what each row names, and writes what is answered. The
//! rows are of trees, files, edits, bundles and kinds; the file `stdout` holds what is wanted.
#![tactic(auto)]

mod call;
mod edits;
mod faults;
mod kinds;
mod layers;
mod looks;
mod shapes;
mod trees;

use call::answer;
use ocsf_table::{end_line, next_row};
use std::alloc::{AllocError, Global};
use std::io;

fn answers(alloc: Global, table: &str) -> Result<String, AllocError> {
    let mut out = String::new(alloc);
    let mut given = String::new(alloc);
    for line in table.lines() {
        if let Some(row) = next_row(alloc, line, &mut given, &mut out)? {
            answer(alloc, &mut out, given.as_str(), row.as_str())?;
            end_line(&mut out)?;
        }
    }
    Ok(out)
}

fn main(rt: HostRuntime) -> io::Result<()> {
    let table = io::read_to_string(rt.alloc(), rt.reader())?;
    let written = answers(rt.alloc(), table.as_str())?;
    rt.print(written.as_str())
}
