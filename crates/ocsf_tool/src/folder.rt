// The files of a folder are read and compiled.
ghost use Rattle.std.specs.Prelude.{◌≡◌, ℕ, List, filter_map, map, IfOk, IfSome};
ghost use Rattle.std.specs.Option.{option_copied};
ghost use Rattle.ocsf_edge.specs.Folder.{body_at};
ghost use Rattle.ocsf_lists.specs.ByName.{IsByName};
ghost use Rattle.ocsf_raw.specs.Forms.{has_form};
ghost use Rattle.ocsf_bundle.specs.Stored.{stored_path, IsStoredSound, AreFilesSound};
ghost use Rattle.ocsf_bundle.specs.Listing.{in_byte_order};
ghost use Rattle.ocsf_tool.specs.Folders.{file_fault, extension_name, IsWritten, IsFile, IsCompiled};
ghost use Rattle.ocsf_tool.specs.FolderParts.{
  HasFolderCause,
  formed,
  if_formed,
  IsMade,
  IsGot,
  AreFilesOrFault,
  IsBundleOrFault,
};

use crate::compilation::schema_of;
use crate::folder_error::FolderError;
use ocsf_bundle::{Bundle, StoredFile};
use ocsf_compiler::CompileError;
use ocsf_edge::{Bytes, Folder};
use ocsf_raw::{RawError, RawFile, has_form};
use ocsf_schema::Schema;
use ocsf_tree::{Code, Fault, Row, Shared, Text, TreeError, pointer, read};
use std::alloc::{AllocError, Global};

/// The most bytes of a file as it lies.
const MOST_FILE: usize = 1 << 22;

/// The fault of the file at a path.
fn file_fault(alloc: Global, code: Code, path: &Text, name: &str) -> Result<RawError, AllocError>
    ensures { IfOk result (λ made. made ≡ RawError.Fault (file_fault code path.now name.now)) }
{
    let subject = path.copy()?;
    let name = Text::of(alloc, name)?;
    Ok(RawError::Fault(Fault {
        code,
        subject,
        name,
    }))
}

/// The file of bytes that aren't too many.
fn file_of_text(alloc: Global, path: &Text, bytes: &[u8]) -> Result<StoredFile, RawError>
    ensures file { IsMade (IsWritten path.now bytes.now) result }
    ensures path { IfOk result (λ file. file.path ≡ path.now) }
    ensures sound { IfOk result IsStoredSound }
{
    match read(alloc, bytes) {
        Ok(tree) => StoredFile::of(alloc, path, &tree),
        Err(TreeError::NotJson) => Err(file_fault(alloc, Code::NotJson, path, "")?),
        Err(TreeError::NumberNotWhole(place)) => {
            let name = pointer(alloc, &place)?;
            Err(file_fault(alloc, Code::NumberNotWhole, path, name.as_str())?)
        }
        Err(TreeError::Memory) => Err(RawError::Memory),
    }
}

/// The file of these bytes.
fn file_of(alloc: Global, path: &Text, bytes: &[u8]) -> Result<StoredFile, RawError>
    ensures file { IsMade (IsFile path.now bytes.now) result }
    ensures path { IfOk result (λ file. file.path ≡ path.now) }
    ensures sound { IfOk result IsStoredSound }
{
    if bytes.len() > MOST_FILE {
        return Err(file_fault(alloc, Code::Limit, path, "file")?);
    }
    file_of_text(alloc, path, bytes)
}

/// The file at the path, read and judged.
fn file_at<F: Folder>(
    alloc: Global,
    folder: &mut F,
    dir: &str,
    path: &Text,
) -> Result<StoredFile, FolderError>
    ensures file { IfSome (F.files folder.old) (λ lying.
        IsGot (IsFile path.now (body_at dir.now path.now lying)) result) }
    ensures path { IfOk result (λ file. file.path ≡ path.now) }
    ensures sound { IfOk result IsStoredSound }
    ensures same { F.files folder.new ≡ F.files folder.old }
    ensures cause { HasFolderCause (F.folder_faults folder.old) (F.folder_faults folder.new) result }
{
    let bytes = folder.read_file(dir, path.as_str().as_bytes(), MOST_FILE + 1)?;
    let file = file_of(alloc, path, bytes.as_slice())?;
    Ok(file)
}

/// The files at these paths. Each is judged before the next one is read.
fn files_at<F: Folder>(
    alloc: Global,
    folder: &mut F,
    dir: &str,
    paths: &[Text],
) -> Result<Row<Shared<StoredFile>>, FolderError>
    ensures files { IfSome (F.files folder.old) (λ lying.
        IsGot (AreFilesOrFault dir.now lying paths.now) result) }
    ensures paths { IfOk result (λ files. map stored_path files ≡ paths.now) }
    ensures sound { IfOk result AreFilesSound }
    ensures same { F.files folder.new ≡ F.files folder.old }
    ensures cause { HasFolderCause (F.folder_faults folder.old) (F.folder_faults folder.new) result }
{
    let mut files = Row::with_capacity(alloc, paths.len())?;
    for path in paths {
        let file = file_at(alloc, folder, dir, path)?;
        files.push(Shared::new(alloc, file)?)?;
    }
    Ok(files)
}

/// The path as a text, where a file of a schema may stand there.
fn formed_path(path: &[u8]) -> Option<&str>
    ensures { option_copied result ≡ if_formed path.now }
{
    let Ok(text) = str::from_utf8(path) else {
        return None;
    };
    if has_form(text) { Some(text) } else { None }
}

/// Of these paths those at which a file of a schema may stand, in byte order and each once.
fn formed_paths(alloc: Global, listed: &[Bytes]) -> Result<Row<Text>, AllocError>
    ensures paths { IfOk result (λ paths. paths ≡ formed listed.now) }
    ensures by_name { IfOk result (λ paths. IsByName (λ (path : List ℕ). path) paths) }
{
    let mut paths = Row::new(alloc);
    for path in listed {
        let Some(path) = formed_path(path.as_slice()) else {
            continue;
        };
        paths.put(Text::of(alloc, path)?)?;
    }
    Ok(paths)
}

/// The name of the extension that the file describes.
fn extension_name(file: &StoredFile) -> Option<&Text>
    ensures { option_copied result ≡ extension_name file.now }
{
    match &file.raw {
        RawFile::Extension(extension) => Some(&extension.name),
        _ => None,
    }
}

/// The names of the extensions that these files describe, in byte order and each once.
fn extensions_of(alloc: Global, files: &[Shared<StoredFile>]) -> Result<Row<Text>, AllocError>
    ensures names { IfOk result (λ names. names ≡ in_byte_order (filter_map extension_name files.now)) }
    ensures by_name { IfOk result (λ names. IsByName (λ (name : List ℕ). name) names) }
{
    let mut names = Row::new(alloc);
    for file in files {
        let Some(name) = extension_name(file.get()) else {
            continue;
        };
        names.put(name.copy()?)?;
    }
    Ok(names)
}

/// The files of the folder, with every extension enabled that they have.
fn bundle_of<F: Folder>(alloc: Global, folder: &mut F, dir: &str) -> Result<Bundle, FolderError>
    ensures bundle { IfSome (F.files folder.old) (λ lying. IsGot (IsBundleOrFault dir.now lying) result) }
    ensures cause { HasFolderCause (F.folder_faults folder.old) (F.folder_faults folder.new) result }
{
    let listed = folder.list(dir)?;
    let paths = formed_paths(alloc, listed.as_slice())?;
    let files = files_at(alloc, folder, dir, paths.as_slice())?;
    let enabled = extensions_of(alloc, files.as_slice())?;
    let bundle = Bundle::of(alloc, files, enabled)?;
    Ok(bundle)
}

/// The schema that the folder's files are compiled to, with every extension enabled that they have.
/// Paths at which no file of a schema may stand are passed by. The others are read in byte order, and each
/// file is judged before the next one is read. The fault is that of the first file that has one, or else
/// the least that the files have together.
pub fn compile_folder<F: Folder>(
    alloc: Global,
    folder: &mut F,
    dir: &str,
) -> Result<Schema, FolderError>
    ensures schema { IfSome (F.files folder.old) (λ lying. IsGot (IsCompiled dir.now lying) result) }
    ensures cause { HasFolderCause (F.folder_faults folder.old) (F.folder_faults folder.new) result }
{
    let bundle = bundle_of(alloc, folder, dir)?;
    match schema_of(alloc, &bundle) {
        Ok(schema) => Ok(schema),
        Err(CompileError::Fault(fault)) => Err(FolderError::Fault(fault)),
        Err(CompileError::Memory) => Err(FolderError::Memory),
    }
}
