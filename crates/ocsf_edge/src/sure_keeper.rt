// A keeper in memory.
ghost use Rattle.std.specs.Prelude.{◌≡◌, ◌++◌, ◌∷◌, [], Some, IfOk, bytes_eq};
ghost use Rattle.std.specs.List.{list_any};
ghost use Rattle.ocsf_edge.specs.Tables.{HasNoRepeats, files_after, moved, names_after, with_name, without_name};
ghost use Rattle.ocsf_edge.specs.Tables.{without_path};

use crate::{Bytes, Fail, Keeper, Kept, KeptFile, Move, Seq};
use std::alloc::{AllocError, Global};

/// Tables in memory. It never fails.
#[derive(Drop)]
pub struct SureKeeper {
    kept: Kept,
    ghost no_repeats: { HasNoRepeats kept },
}

impl SureKeeper {
    pub fn new(kept: Kept) -> SureKeeper
        requires { HasNoRepeats kept }
        ensures tables { ⟦<SureKeeper as Keeper>⟧.tables result ≡ Some kept }
        ensures faults { ⟦<SureKeeper as Keeper>⟧.keeper_faults result ≡ 0 }
    {
        SureKeeper { kept }
    }

    pub fn kept(&self) -> &Kept
        ensures { Some result.now ≡ ⟦<SureKeeper as Keeper>⟧.tables self.now }
    {
        &self.kept
    }
}

fn copy_file(alloc: Global, file: &KeptFile) -> Result<KeptFile, AllocError>
    ensures { IfOk result (λ copy. copy ≡ file.now) }
{
    Ok(KeptFile {
        path: Bytes::of(alloc, file.path.as_slice())?,
        body: Bytes::of(alloc, file.body.as_slice())?,
    })
}

fn copy_files(alloc: Global, files: &[KeptFile]) -> Result<Seq<KeptFile>, AllocError>
    ensures { IfOk result (λ copy. copy ≡ files.now) }
{
    let mut copy = Seq::new(alloc);
    for file in files {
        copy.push(copy_file(alloc, file)?)?;
    }
    Ok(copy)
}

fn copy_names(alloc: Global, names: &[Bytes]) -> Result<Seq<Bytes>, AllocError>
    ensures { IfOk result (λ copy. copy ≡ names.now) }
{
    let mut copy = Seq::new(alloc);
    for name in names {
        copy.push(Bytes::of(alloc, name.as_slice())?)?;
    }
    Ok(copy)
}

fn copy_kept(kept: &Kept) -> Result<Kept, AllocError>
    ensures { IfOk result (λ copy. copy ≡ kept.now) }
{
    Ok(Kept {
        files: copy_files(kept.files.allocator(), kept.files.as_slice())?,
        enabled: copy_names(kept.enabled.allocator(), kept.enabled.as_slice())?,
        revision: kept.revision,
    })
}

fn remove_path(files: Seq<KeptFile>, path: &[u8]) -> Result<Seq<KeptFile>, AllocError>
    ensures { IfOk result (λ others. others ≡ without_path path.now files) }
{
    let mut others = Seq::new(files.allocator());
    for file in files.into_vec() {
        if file.path.as_slice() != path {
            others.push(file)?;
        }
    }
    Ok(others)
}

fn remove_name(names: Seq<Bytes>, name: &[u8]) -> Result<Seq<Bytes>, AllocError>
    ensures { IfOk result (λ others. others ≡ without_name name.now names) }
{
    let mut others = Seq::new(names.allocator());
    for other in names.into_vec() {
        if other.as_slice() != name {
            others.push(other)?;
        }
    }
    Ok(others)
}

fn has_name(names: &[Bytes], name: &[u8]) -> bool
    ensures { result ≡ list_any (λ other. bytes_eq other name.now) names.now }
{
    names.iter().any(|other| other.as_slice() == name)
}

fn add_name(mut names: Seq<Bytes>, name: &[u8]) -> Result<Seq<Bytes>, AllocError>
    ensures { IfOk result (λ all. all ≡ with_name name.now names) }
{
    if !has_name(names.as_slice(), name) {
        let copy = Bytes::of(names.allocator(), name)?;
        names.push(copy)?;
    }
    Ok(names)
}

fn put_file(files: Seq<KeptFile>, file: &KeptFile) -> Result<Seq<KeptFile>, AllocError>
    ensures { IfOk result (λ all. all ≡ without_path file.now.path files ++ file.now ∷ []) }
{
    let copy = copy_file(files.allocator(), file)?;
    let mut all = remove_path(files, file.path.as_slice())?;
    all.push(copy)?;
    Ok(all)
}

fn move_files(files: Seq<KeptFile>, step: &Move) -> Result<Seq<KeptFile>, AllocError>
    ensures { IfOk result (λ all. all ≡ files_after step.now files) }
{
    match step {
        Move::Put(file) => put_file(files, file),
        Move::Remove(path) => remove_path(files, path.as_slice()),
        Move::Enable(_) | Move::Disable(_) => Ok(files),
    }
}

fn move_names(names: Seq<Bytes>, step: &Move) -> Result<Seq<Bytes>, AllocError>
    ensures { IfOk result (λ all. all ≡ names_after step.now names) }
{
    match step {
        Move::Enable(name) => add_name(names, name.as_slice()),
        Move::Disable(name) => remove_name(names, name.as_slice()),
        Move::Put(_) | Move::Remove(_) => Ok(names),
    }
}

fn move_all(mut kept: Kept, moves: &[Move]) -> Result<Kept, AllocError>
    ensures { IfOk result (λ after. after ≡ moved moves.now kept) }
{
    for step in moves {
        kept = Kept {
            files: move_files(kept.files, step)?,
            enabled: move_names(kept.enabled, step)?,
            revision: kept.revision,
        };
    }
    Ok(kept)
}

impl Keeper for SureKeeper {
    ghost tables = { λ k. Some k.kept };

    ghost keeper_faults = { λ k. 0 };

    ghost no_repeats = { λ k. k.no_repeats };

    fn load(&mut self) -> Result<Kept, Fail> {
        Ok(copy_kept(&self.kept)?)
    }

    fn commit(&mut self, moves: &[Move], revision: u32) -> Result<(), Fail> {
        let copy = copy_kept(&self.kept)?;
        let mut next = move_all(copy, moves)?;
        next.revision = revision;
        self.kept = next;
        Ok(())
    }
}
