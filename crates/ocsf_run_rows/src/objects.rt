// The objects in memory that a row names, over which a command runs.
use ocsf_edge::{Bytes, Keeper, Kept, KeptFile, MemoryFolder, MemorySource, Move, Seq, SureKeeper};
use ocsf_table::{bytes_of, field, number};
use ocsf_tree::{Row, Text};
use std::alloc::{AllocError, Global};

/// The numbers of the fields that begin with that word.
pub fn numbers(alloc: Global, rest: &str, word: &str) -> Result<Seq<u64>, AllocError> {
    let mut numbers = Seq::new(alloc);
    for field in rest.split(" | ") {
        if let Some(digits) = field.strip_prefix(word) {
            numbers.push(number(digits))?;
        }
    }
    Ok(numbers)
}

/// The words of the fields `word ..`.
pub fn words(alloc: Global, rest: &str) -> Result<Row<Text>, AllocError> {
    let mut words = Row::new(alloc);
    for field in rest.split(" | ") {
        if let Some(word) = field.strip_prefix("word ") {
            words.push(Text::of(alloc, word)?)?;
        }
    }
    Ok(words)
}

/// A source of the bytes of the field `read ..`, in pieces of the sizes `size ..`, whose calls `source ..` fail.
pub fn source(alloc: Global, rest: &str) -> Result<MemorySource, AllocError> {
    let bytes = bytes_of(alloc, field(rest, "read "))?;
    let sizes = numbers(alloc, rest, "size ")?;
    let failing = numbers(alloc, rest, "source ")?;
    Ok(MemorySource::new(Bytes::from(bytes), sizes, failing))
}

/// A store that holds nothing.
pub fn no_store(alloc: Global) -> SureKeeper {
    SureKeeper::new(Kept {
        files: Seq::new(alloc),
        enabled: Seq::new(alloc),
        revision: 0,
    })
}

// A file of the folder `v`.
fn put_of(alloc: Global, path: &str, text: &str) -> Result<Move, AllocError> {
    let mut place = String::from_str(alloc, "v/")?;
    place.push_str(path)?;
    let path = Bytes::of(alloc, place.as_bytes())?;
    let body = Bytes::of(alloc, text.as_bytes())?;
    Ok(Move::Put(KeptFile { path, body }))
}

fn push_put(alloc: Global, puts: &mut Seq<Move>, line: &str) -> Result<(), AllocError> {
    if let Some((path, text)) = line.split_once(' ') {
        puts.push(put_of(alloc, path, text)?)?;
    }
    Ok(())
}

// The files of the fields `file ..`, each a path and a text; with a field `over` also those that are given.
fn puts_of(alloc: Global, given: &str, rest: &str) -> Result<Seq<Move>, AllocError> {
    let mut puts = Seq::new(alloc);
    for field in rest.split(" | ") {
        if let Some(line) = field.strip_prefix("file ") {
            push_put(alloc, &mut puts, line)?;
        }
        if field == "over" {
            push_given(alloc, &mut puts, given)?;
        }
    }
    Ok(puts)
}

fn push_given(alloc: Global, puts: &mut Seq<Move>, given: &str) -> Result<(), AllocError> {
    for line in given.lines() {
        push_put(alloc, puts, line)?;
    }
    Ok(())
}

fn stored(alloc: Global, puts: &Seq<Move>) -> Result<SureKeeper, AllocError> {
    let mut keeper = no_store(alloc);
    if keeper.commit(puts.as_slice(), 0).is_err() {
        return Err(AllocError);
    }
    Ok(keeper)
}

fn folder_over(keeper: &mut SureKeeper, failing: Seq<u64>) -> Result<MemoryFolder, AllocError> {
    match keeper.load() {
        Ok(kept) => Ok(MemoryFolder::new(kept.files, failing)),
        Err(_) => Err(AllocError),
    }
}

/// A folder of the row's files, whose calls `folder ..` fail.
pub fn folder(alloc: Global, given: &str, rest: &str) -> Result<MemoryFolder, AllocError> {
    let puts = puts_of(alloc, given, rest)?;
    let failing = numbers(alloc, rest, "folder ")?;
    let mut keeper = stored(alloc, &puts)?;
    folder_over(&mut keeper, failing)
}
