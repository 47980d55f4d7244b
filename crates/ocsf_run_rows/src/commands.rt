// The commands over objects in memory: how they end, and what they write.
use crate::objects::{folder, no_store, numbers, source, words};
use crate::small_sink::SmallSink;
use ocsf_edge::{
    Bytes, DirFolder, Folder, MemorySink, MemorySource, Seq, Sink, Source, SureFolder,
};
use ocsf_table::{bytes_of, end_line, field, halves, number, push_bytes};
use ocsf_tool::{Status, run};
use ocsf_tree::{Row, Text};
use std::alloc::{AllocError, Global};

fn push_end(out: &mut String, status: Status, written: &[u8]) -> Result<(), AllocError> {
    let told = format!(in *out.allocator(); "status {}\n", status.code())?;
    out.push_str(told.as_str())?;
    push_bytes(out, written)?;
    end_line(out)
}

fn run_over<S: Source, K: Sink, F: Folder>(
    alloc: Global,
    words: &[Text],
    source: &mut S,
    sink: &mut K,
    folder: &mut F,
) -> Status {
    let mut keeper = no_store(alloc);
    run(alloc, words, source, sink, folder, &mut keeper)
}

// ---- a command over the objects that the row names

fn run_between<K: Sink, F: Folder>(
    alloc: Global,
    rest: &str,
    sink: &mut K,
    folder: &mut F,
) -> Result<Status, AllocError> {
    let words = words(alloc, rest)?;
    let mut source = source(alloc, rest)?;
    Ok(run_over(alloc, words.as_slice(), &mut source, sink, folder))
}

fn run_into<K: Sink>(
    alloc: Global,
    given: &str,
    rest: &str,
    sink: &mut K,
) -> Result<Status, AllocError> {
    let mut folder = folder(alloc, given, rest)?;
    run_between(alloc, rest, sink, &mut folder)
}

fn push_run_in_full(
    alloc: Global,
    out: &mut String,
    given: &str,
    rest: &str,
) -> Result<(), AllocError> {
    let mut sink = MemorySink::new(alloc, numbers(alloc, rest, "sink ")?);
    let status = run_into(alloc, given, rest, &mut sink)?;
    push_end(out, status, sink.written())
}

fn push_run_in_small(
    alloc: Global,
    out: &mut String,
    given: &str,
    rest: &str,
) -> Result<(), AllocError> {
    let most = field(rest, "takes ").parse::<usize>().unwrap_or(1);
    let mut sink = SmallSink::new(alloc, most);
    let status = run_into(alloc, given, rest, &mut sink)?;
    push_end(out, status, sink.written())
}

/// Writes how the row's command ends over the row's objects, and what it writes. With a field `takes ..` the sink
/// takes at most so many bytes a call.
pub fn push_run(
    alloc: Global,
    out: &mut String,
    given: &str,
    rest: &str,
) -> Result<(), AllocError> {
    if field(rest, "takes ").is_empty() {
        push_run_in_full(alloc, out, given, rest)
    } else {
        push_run_in_small(alloc, out, given, rest)
    }
}

/// Writes how the row's command ends over the folders of the system, and what it writes.
pub fn push_of_the_system(
    rt: &HostRuntime,
    out: &mut String,
    rest: &str,
) -> Result<(), AllocError> {
    let mut sink = MemorySink::new(rt.alloc(), Seq::new(rt.alloc()));
    let mut folder = DirFolder::new(rt);
    let status = run_between(rt.alloc(), rest, &mut sink, &mut folder)?;
    push_end(out, status, sink.written())
}

// ---- edits, in pieces

fn edits_word(alloc: Global) -> Result<Row<Text>, AllocError> {
    let mut words = Row::new(alloc);
    words.push(Text::of(alloc, "edits")?)?;
    Ok(words)
}

// What is written of the edits of these bytes, that are given in pieces of these sizes and then in one.
fn edited(alloc: Global, bytes: &[u8], sizes: Seq<u64>) -> Result<String, AllocError> {
    let words = edits_word(alloc)?;
    let mut source = MemorySource::new(Bytes::of(alloc, bytes)?, sizes, Seq::new(alloc));
    let mut sink = MemorySink::new(alloc, Seq::new(alloc));
    let mut folder = SureFolder::new(Seq::new(alloc));
    let status = run_over(alloc, words.as_slice(), &mut source, &mut sink, &mut folder);
    let mut out = String::new(alloc);
    push_end(&mut out, status, sink.written())?;
    Ok(out)
}

// Writes what comes of these pieces, where it isn't what comes of one.
fn push_if_other(
    out: &mut String,
    whole: &str,
    bytes: &[u8],
    sizes: Seq<u64>,
) -> Result<(), AllocError> {
    let cut = edited(*out.allocator(), bytes, sizes)?;
    if cut.as_str() == whole {
        return Ok(());
    }
    out.push_str("? cut otherwise\n")?;
    out.push_str(cut.as_str())
}

// The lines of the row, each with a line feed.
fn joined(alloc: Global, lines: &str) -> Result<String, AllocError> {
    let mut text = String::new(alloc);
    for line in lines.split(" | ") {
        text.push_str(line)?;
        text.push('\n')?;
    }
    Ok(text)
}

fn one(alloc: Global, number: u64) -> Result<Seq<u64>, AllocError> {
    let mut numbers = Seq::new(alloc);
    numbers.push(number)?;
    Ok(numbers)
}

fn push_cuts(alloc: Global, out: &mut String, bytes: &[u8]) -> Result<(), AllocError> {
    let whole = edited(alloc, bytes, Seq::new(alloc))?;
    out.push_str(whole.as_str())?;
    let mut at = 0u64;
    for _ in bytes {
        at = at.saturating_add(1);
        push_if_other(out, whole.as_str(), bytes, one(alloc, at)?)?;
    }
    Ok(())
}

/// Writes how a run over the row's edits ends, and what it writes. Where they come in two pieces and that
/// changes anything, what comes of it is written too.
pub fn push_edits(alloc: Global, out: &mut String, rest: &str) -> Result<(), AllocError> {
    let (_, lines) = halves(rest, " | ");
    let text = joined(alloc, lines)?;
    push_cuts(alloc, out, text.as_bytes())
}

// The sizes of pieces that end behind each byte whose bit is set.
fn sizes_of(alloc: Global, count: usize, cuts: u64) -> Result<Seq<u64>, AllocError> {
    let mut sizes = Seq::new(alloc);
    let mut size = 0u64;
    let mut left = cuts;
    for _ in 0..count {
        size = size.saturating_add(1);
        if left % 2 == 1 {
            sizes.push(size)?;
            size = 0;
        }
        left /= 2;
    }
    Ok(sizes)
}

/// Writes the same where the row's bytes are cut behind any of their bytes, in each of so many ways.
pub fn push_cut_anywhere(alloc: Global, out: &mut String, rest: &str) -> Result<(), AllocError> {
    let (count, text) = halves(rest, " | ");
    let bytes = bytes_of(alloc, text)?;
    let whole = edited(alloc, &bytes, Seq::new(alloc))?;
    out.push_str(whole.as_str())?;
    for cuts in 0..number(count) {
        let sizes = sizes_of(alloc, bytes.len(), cuts)?;
        push_if_other(out, whole.as_str(), &bytes, sizes)?;
    }
    Ok(())
}
