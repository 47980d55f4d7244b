// The outside in memory and of the system.
use ocsf_edge::{
    Bytes, DirFolder, Folder, Keeper, Kept, KeptFile, MemoryFolder, MemorySink, MemorySource, Move,
    Seq, Sink, Source, StdSink, StdSource, SureFolder, SureKeeper, SureSink, SureSource, write_all,
    write_both,
};
use ocsf_table::halves;
use std::alloc::{AllocError, Global};
use std::io::Read;
use std::os::unix::fs::symlink;
use std::process::Abort;
use std::test::Fail;
use std::{fs, io};

fn numbers(alloc: Global, values: &[u64]) -> Result<Seq<u64>, AllocError> {
    Ok(Seq::from_vec(values.to_vec(alloc)?))
}

// A call moves so many bytes, or fails where the word is no number.
fn moves(source: &mut impl Source, words: &str) -> bool {
    let mut buffer = [0u8; 4];
    for word in words.split(' ') {
        if source.read(&mut buffer).ok() != word.parse::<usize>().ok() {
            return false;
        }
    }
    true
}

// Sizes 2 and 0, and then no bound; the call that fails moves no size on.
fn memory_moves(alloc: Global) -> Result<bool, AllocError> {
    let sizes = numbers(alloc, &[2, 0])?;
    let failing = numbers(alloc, &[2])?;
    let mut source = MemorySource::new(Bytes::of(alloc, b"abcdef")?, sizes, failing);
    Ok(moves(&mut source, "2 fails 1 3 0"))
}

fn sure_moves(alloc: Global) -> Result<bool, AllocError> {
    let sizes = numbers(alloc, &[2, 0])?;
    let mut source = SureSource::new(Bytes::of(alloc, b"abcdef")?, sizes);
    Ok(moves(&mut source, "2 1 3 0"))
}

#[test]
fn sources_move_pieces(rt: HostRuntime) -> Result<(), Fail> {
    assert!(rt; memory_moves(rt.alloc())?);
    assert!(rt; sure_moves(rt.alloc())?);
    Ok(())
}

fn keeps_bytes(sink: &mut MemorySink) -> bool {
    sink.write(b"ab").ok() == Some(2)
        && sink.write(b"cd").is_err()
        && write_both(sink, b"ef", b"gh").is_ok()
        && sink.written() == b"abefgh".as_slice()
}

fn sink_keeps_bytes(alloc: Global) -> Result<bool, AllocError> {
    let mut sink = MemorySink::new(alloc, numbers(alloc, &[2])?);
    Ok(keeps_bytes(&mut sink))
}

#[test]
fn sinks_keep_bytes(rt: HostRuntime) -> Result<(), Fail> {
    assert!(rt; sink_keeps_bytes(rt.alloc())?);
    assert_eq!(rt; SureSink::new().write(b"ab").ok(), Some(2));
    Ok(())
}

// Gives one byte, and then fails at each call.
#[derive(Drop)]
struct Broken {
    given: bool,
}

impl Read for Broken {
    fn read(&mut self, into: &mut [u8]) -> io::Result<usize> {
        if self.given || into.is_empty() {
            return Err(io::ErrorKind::Other.into());
        }
        self.given = true;
        into[0] = b'x';
        Ok(1)
    }
}

#[test]
fn std_readers(rt: HostRuntime) {
    assert!(rt; moves(&mut StdSource::new(b"abcdef".as_slice()), "4 2 0"));
    assert!(rt; moves(&mut StdSource::new(Broken { given: false }), "1 fails"));
}

// A full slice takes nothing, which is a fault of the writer unless nothing was to be written.
fn fills(buffer: &mut [u8]) -> bool {
    let mut sink = StdSink::new(buffer);
    write_all(&mut sink, b"abcd").is_ok()
        && sink.write(b"").ok() == Some(0)
        && sink.write(b"e").is_err()
}

#[test]
fn std_writers(rt: HostRuntime) {
    let mut sink = StdSink::new(Vec::new(rt.alloc()));
    assert!(rt; write_all(&mut sink, b"abc").is_ok());
    let mut buffer = [0u8; 4];
    assert!(rt; fills(buffer.as_mut_slice()));
}

// `enable`, `disable` and `remove` with a name, or `put` with a path and a body
fn move_of(alloc: Global, row: &str) -> Result<Move, AllocError> {
    let (kind, rest) = halves(row, " ");
    let (path, body) = halves(rest, " ");
    match kind {
        "enable" => Ok(Move::Enable(Bytes::of(alloc, rest.as_bytes())?)),
        "disable" => Ok(Move::Disable(Bytes::of(alloc, rest.as_bytes())?)),
        "remove" => Ok(Move::Remove(Bytes::of(alloc, rest.as_bytes())?)),
        _ => {
            let path = Bytes::of(alloc, path.as_bytes())?;
            let body = Bytes::of(alloc, body.as_bytes())?;
            Ok(Move::Put(KeptFile { path, body }))
        }
    }
}

// Puts of which one replaces, enabling twice, and taking away what isn't there
const MOVES: &str = "put d/b 1
put d/a 2
put d/b 34
put dd/c 5
remove d/x
enable w
enable w
disable v";

fn moves_of(alloc: Global) -> Result<Seq<Move>, AllocError> {
    let mut moves = Seq::new(alloc);
    for row in MOVES.lines() {
        moves.push(move_of(alloc, row)?)?;
    }
    Ok(moves)
}

fn empty(alloc: Global) -> SureKeeper {
    SureKeeper::new(Kept {
        files: Seq::new(alloc),
        enabled: Seq::new(alloc),
        revision: 0,
    })
}

fn store(alloc: Global, keeper: &mut SureKeeper) -> Result<(), Fail> {
    let moves = moves_of(alloc)?;
    Ok(keeper.commit(moves.as_slice(), 7)?)
}

fn stored(alloc: Global, keeper: &mut SureKeeper) -> Result<Kept, Fail> {
    store(alloc, keeper)?;
    Ok(keeper.load()?)
}

fn is_file(file: &KeptFile, path: &str, body: &str) -> bool {
    file.path.as_slice() == path.as_bytes() && file.body.as_slice() == body.as_bytes()
}

fn is_kept(kept: &Kept) -> bool {
    let [first, second, third] = kept.files.as_slice() else {
        return false;
    };
    let [word] = kept.enabled.as_slice() else {
        return false;
    };
    kept.revision == 7
        && is_file(first, "d/a", "2")
        && is_file(second, "d/b", "34")
        && is_file(third, "dd/c", "5")
        && word.as_slice() == b"w".as_slice()
}

fn keeper_commits(alloc: Global) -> Result<bool, Fail> {
    let mut keeper = empty(alloc);
    let kept = stored(alloc, &mut keeper)?;
    Ok(is_kept(&kept))
}

#[test]
fn keepers_commit_moves(rt: HostRuntime) -> Result<(), Fail> {
    assert!(rt; keeper_commits(rt.alloc())?);
    Ok(())
}

fn lists(folder: &mut impl Folder, base: &str, paths: &str) -> bool {
    let Ok(found) = folder.list(base) else {
        return false;
    };
    let mut words = paths.split(' ');
    for path in found.as_slice() {
        if words.next().unwrap_or_default().as_bytes() != path.as_slice() {
            return false;
        }
    }
    words.next().is_none()
}

fn reads(folder: &mut impl Folder, path: (&str, &[u8]), most: usize, body: &str) -> bool {
    match folder.read_file(path.0, path.1, most) {
        Ok(read) => read.as_slice() == body.as_bytes(),
        Err(_) => false,
    }
}

fn is_sure(folder: &mut SureFolder) -> bool {
    lists(folder, "d", "a b")
        && reads(folder, ("d", b"b"), 9, "34")
        && reads(folder, ("d", b"b"), 1, "3")
        && reads(folder, ("d", b"x"), 9, "")
}

// A store after the moves.
fn filled(alloc: Global) -> Result<SureKeeper, Fail> {
    let mut keeper = empty(alloc);
    store(alloc, &mut keeper)?;
    Ok(keeper)
}

fn sure_folder(alloc: Global) -> Result<bool, Fail> {
    let mut keeper = filled(alloc)?;
    let mut folder = SureFolder::new(keeper.load()?.files);
    Ok(is_sure(&mut folder))
}

// The second and the fourth call fail, and each that reads where no file is.
fn fails(folder: &mut MemoryFolder) -> bool {
    lists(folder, "d", "a b")
        && folder.list("d").is_err()
        && reads(folder, ("d", b"b"), 9, "34")
        && folder.read_file("d", b"b", 9).is_err()
        && folder.read_file("d", b"x", 9).is_err()
        && reads(folder, ("d", b"b"), 1, "3")
}

fn failing_folder(alloc: Global) -> Result<bool, Fail> {
    let failing = numbers(alloc, &[2, 4])?;
    let mut keeper = filled(alloc)?;
    let mut folder = MemoryFolder::new(keeper.load()?.files, failing);
    Ok(fails(&mut folder))
}

#[test]
fn folders_list_and_read(rt: HostRuntime) -> Result<(), Fail> {
    assert!(rt; sure_folder(rt.alloc())?);
    assert!(rt; failing_folder(rt.alloc())?);
    Ok(())
}

// Two files, one of them empty, two in folders below, and links to a file and to a folder.
fn make_files(rt: &HostRuntime) -> io::Result<()> {
    fs::create_dir_all(rt, "dir_folder/b/c")?;
    fs::create_dir_all(rt, "dir_folder/empty")?;
    fs::write(rt, "dir_folder/b.json", "0123456789")?;
    fs::write(rt, "dir_folder/a", "")?;
    fs::write(rt, "dir_folder/b/x", "x")?;
    fs::write(rt, "dir_folder/b/c/y", "yy")?;
    symlink(rt, "a", "dir_folder/link")?;
    symlink(rt, "b", "dir_folder/linked")?;
    Ok(())
}

fn is_of_the_system(folder: &mut impl Folder) -> bool {
    lists(folder, "dir_folder", "a b.json b/c/y b/x")
        && reads(folder, ("dir_folder", b"a"), 9, "")
        && reads(folder, ("dir_folder", b"b.json"), 10, "0123456789")
        && reads(folder, ("dir_folder", b"b.json"), 4, "0123")
        && reads(folder, ("dir_folder", b"b/c/y"), 9, "yy")
        && folder.read_file("dir_folder", b"none", 9).is_err()
        && folder.read_file("dir_folder", b"b", 9).is_err()
        && folder.read_file("dir_folder", b"\xff", 9).is_err()
        && folder.list("dir_folder/none").is_err()
}

#[test]
fn folders_of_the_system(rt: HostRuntime) -> Result<(), Fail> {
    let _ = fs::remove_dir_all(&rt, "dir_folder");
    make_files(&rt)?;
    let mut folder = DirFolder::new(&rt);
    assert!(rt; is_of_the_system(&mut folder));
    fs::remove_dir_all(&rt, "dir_folder")?;
    Ok(())
}
