// A folder in memory.
ghost use Rattle.std.specs.Prelude.{◌≡◌, ◌∷◌, ◌++◌, [], Some, IfOk, OnOk, is_some};
ghost use Rattle.std.specs.Option.{option_copied};
ghost use Rattle.ocsf_edge.specs.Folder.{HasNoRepeatedPath, path_below, paths_below, file_at, body_at};

use crate::{Bytes, Fail, Folder, KeptFile, Seq};
use std::alloc::{AllocError, Global};

/// Files in memory. It never fails, and gives no bytes at a path without a file.
#[derive(Drop)]
pub struct SureFolder {
    files: Seq<KeptFile>,
}

impl SureFolder {
    pub fn new(files: Seq<KeptFile>) -> SureFolder
        requires { HasNoRepeatedPath files }
        ensures files { ⟦<SureFolder as Folder>⟧.files result ≡ Some files }
        ensures faults { ⟦<SureFolder as Folder>⟧.folder_faults result ≡ 0 }
    {
        SureFolder { files }
    }

    /// Whether a file stands at the path below the base.
    pub(crate) fn has_file(&self, base: &str, path: &[u8]) -> bool
        ensures { result ≡ is_some (file_at base.now path.now self.now.files) }
    {
        find_file(base.as_bytes(), path, self.files.as_slice()).is_some()
    }
}

// What stands behind the base and a slash.
fn below<'a>(base: &[u8], path: &'a [u8]) -> Option<&'a [u8]>
    ensures { option_copied result ≡ path_below base.now path.now }
{
    if !path.starts_with(base) {
        return None;
    }
    let rest = &path[base.len()..];
    if !rest.starts_with(b"/") {
        return None;
    }
    Some(&rest[1..])
}

fn push_below(
    alloc: Global,
    base: &[u8],
    file: &KeptFile,
    paths: &mut Vec<Bytes>,
) -> Result<(), AllocError>
    ensures { OnOk result (paths.new.items ≡ paths.old.items ++ paths_below base.now (file.now ∷ [])) }
{
    if let Some(path) = below(base, file.path.as_slice()) {
        paths.push(Bytes::of(alloc, path)?)?;
    }
    Ok(())
}

fn unsorted_paths(alloc: Global, base: &[u8], files: &[KeptFile]) -> Result<Vec<Bytes>, AllocError>
    ensures { IfOk result (λ paths. paths.items ≡ paths_below base.now files.now) }
{
    let mut paths = Vec::new(alloc);
    for file in files {
        push_below(alloc, base, file, &mut paths)?;
    }
    Ok(paths)
}

fn find_file<'a>(base: &[u8], path: &[u8], files: &'a [KeptFile]) -> Option<&'a KeptFile>
    ensures { option_copied result ≡ file_at base.now path.now files.now }
{
    for file in files {
        if let Some(rest) = below(base, file.path.as_slice())
            && rest == path
        {
            return Some(file);
        }
    }
    None
}

fn find_body<'a>(base: &[u8], path: &[u8], files: &'a [KeptFile]) -> &'a [u8]
    ensures { result.now ≡ body_at base.now path.now files.now }
{
    match find_file(base, path, files) {
        Some(file) => file.body.as_slice(),
        None => &[],
    }
}

impl Folder for SureFolder {
    ghost files = { λ f. Some f.files };

    ghost folder_faults = { λ f. 0 };

    fn list(&mut self, base: &str) -> Result<Seq<Bytes>, Fail> {
        let alloc = self.files.allocator();
        let mut paths = unsorted_paths(alloc, base.as_bytes(), self.files.as_slice())?;
        paths.sort_unstable();
        Ok(Seq::from_vec(paths))
    }

    fn read_file(&mut self, base: &str, path: &[u8], most: usize) -> Result<Bytes, Fail> {
        let body = find_body(base.as_bytes(), path, self.files.as_slice());
        let size = most.min(body.len());
        Ok(Bytes::of(self.files.allocator(), &body[..size])?)
    }
}
