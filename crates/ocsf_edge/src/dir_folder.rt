// The folders of the file system.
ghost use Rattle.std.specs.Prelude.{◌≡◌, IfOk, IfSome, IsSorted, None, take};
ghost use Rattle.std.specs.Cmp.Lexicographic.{slice_cmp};
ghost use Rattle.std.specs.Ordering.{nat_cmp};
ghost use Rattle.ocsf_edge.specs.Faults.{HasCauseOrMemory};

use crate::{Bytes, Fail, Folder, Seq};
use std::alloc::{AllocError, Global};
use std::fs;
use std::fs::File;
use std::io::Read;
use std::rt::Files;

/// The folders of the file system. It tells nothing of the files, and counts each error as a fault.
#[derive(Drop)]
pub struct DirFolder<'a, R> {
    rt: &'a R,
    faults: u64,
}

impl<'a, R: Files + AllocGlobal + Clone + Drop> DirFolder<'a, R> {
    pub fn new(rt: &'a R) -> DirFolder<'a, R>
        ensures files { ⟦<DirFolder<'a, R> as Folder>⟧.files result ≡ None }
        ensures faults { ⟦<DirFolder<'a, R> as Folder>⟧.folder_faults result ≡ 0 }
    {
        DirFolder { rt, faults: 0 }
    }

    /// Counts an answer that is a fault.
    fn count<T>(&mut self, answer: &Result<T, Fail>)
        ensures { HasCauseOrMemory self.old.faults self.new.faults answer.now }
    {
        if matches!(answer, Err(Fail::Failed)) {
            self.faults = self.faults.saturating_add(1);
        }
    }
}

/// The base, a slash, and the path.
fn joined(alloc: Global, base: &str, path: &str) -> Result<String, AllocError> {
    let mut place = String::from_str(alloc, base)?;
    place.push('/')?;
    place.push_str(path)?;
    Ok(place)
}

/// Adds the files and the folders of one folder by their paths below the base, those of folders with a
/// slash behind; the folder itself is given so too, the base as the empty text. Links aren't followed.
fn list_one<R: Files + AllocGlobal + Clone + Drop>(
    rt: &R,
    base: &str,
    folder: &str,
    folders: &mut Vec<String>,
    files: &mut Vec<Bytes>,
) -> Result<(), Fail> {
    let place = joined(rt.alloc(), base, folder)?;
    for entry in fs::read_dir(rt, place.as_str())? {
        let entry = entry?;
        let kind = entry.file_type()?;
        let mut path = String::from_str(rt.alloc(), folder)?;
        path.push_str(entry.file_name())?;
        if kind.is_dir() {
            path.push('/')?;
            folders.push(path)?;
        } else if kind.is_file() {
            files.push(Bytes::of(rt.alloc(), path.as_bytes())?)?;
        }
    }
    Ok(())
}

/// The paths of the files below the base, in any order.
fn unsorted_paths<R: Files + AllocGlobal + Clone + Drop>(
    rt: &R,
    base: &str,
) -> Result<Vec<Bytes>, Fail> {
    let mut files = Vec::new(rt.alloc());
    let mut folders = Vec::new(rt.alloc());
    folders.push(String::new(rt.alloc()))?;
    for _ in 0..u64::MAX {
        let Some(folder) = folders.pop() else {
            return Ok(files);
        };
        list_one(rt, base, folder.as_str(), &mut folders, &mut files)?;
    }
    Err(Fail::Failed)
}

fn sorted_paths<R: Files + AllocGlobal + Clone + Drop>(
    rt: &R,
    base: &str,
) -> Result<Seq<Bytes>, Fail>
    ensures { IfOk result (IsSorted (slice_cmp nat_cmp)) }
{
    let mut paths = unsorted_paths(rt, base)?;
    paths.sort_unstable();
    Ok(Seq::from_vec(paths))
}

/// The first bytes that are left, at most so many.
fn first_bytes<F: Read + Drop>(alloc: Global, file: F, most: usize) -> Result<Bytes, Fail>
    ensures { IfOk result (λ bytes. IfSome (F.remaining file) (λ left. bytes ≡ take most left)) }
{
    let mut bytes = Vec::new(alloc);
    file.take(most as u64).read_to_end(&mut bytes)?;
    Ok(Bytes::from(bytes))
}

fn read_front<R: Files + AllocGlobal>(
    rt: &R,
    base: &str,
    path: &[u8],
    most: usize,
) -> Result<Bytes, Fail> {
    let Ok(path) = str::from_utf8(path) else {
        return Err(Fail::Failed);
    };
    let place = joined(rt.alloc(), base, path)?;
    let file = File::open(rt, place.as_str())?;
    first_bytes(rt.alloc(), file, most)
}

impl<R: Files + AllocGlobal + Clone + Drop> Folder for DirFolder<'_, R> {
    ghost files = { λ f. None };

    ghost folder_faults = { λ f. f.faults };

    fn list(&mut self, base: &str) -> Result<Seq<Bytes>, Fail> {
        let paths = sorted_paths(self.rt, base);
        self.count(&paths);
        paths
    }

    fn read_file(&mut self, base: &str, path: &[u8], most: usize) -> Result<Bytes, Fail> {
        let bytes = read_front(self.rt, base, path, most);
        self.count(&bytes);
        bytes
    }
}
