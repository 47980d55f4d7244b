// The files that count: those of core, and those of the folders whose extension is enabled, in layers.
ghost use Rattle.std.specs.Prelude.{◌≡◌, IfOk};
ghost use Rattle.std.specs.Option.{option_copied};
ghost use Rattle.ocsf_lists.specs.Among.{is_among};
ghost use Rattle.ocsf_lists.specs.ByName.{IsByName};
ghost use Rattle.ocsf_bundle.specs.Stored.{stored_path};
ghost use Rattle.ocsf_bundle.specs.Active.{is_of_extension, extension_folder, path_below, extension_path, is_enabled};
ghost use Rattle.ocsf_bundle.specs.Active.{extension_said, extension_in, active_file, active_files, extension_of};
ghost use Rattle.ocsf_bundle.specs.Active.{extension_name, extension_uid, in_layers};

use crate::stored::{ActiveFile, StoredFile};
use ocsf_raw::{ExtFile, RawFile, below, folder};
use ocsf_tree::{Row, Shared, Text, TryClone, find_by_name};
use std::alloc::{AllocError, Global};

fn is_of_extension(path: &str) -> bool
    ensures { result ≡ is_of_extension path.now }
{
    folder(path) == "extensions"
}

fn extension_folder(path: &str) -> &str
    ensures { result.now ≡ extension_folder path.now }
{
    folder(below(path))
}

pub fn path_below(path: &str) -> &str
    ensures { result.now ≡ path_below path.now }
{
    if is_of_extension(path) {
        below(below(path))
    } else {
        path
    }
}

fn extension_path(alloc: Global, name: &str) -> Result<Text, AllocError>
    ensures { IfOk result (λ made. made ≡ extension_path name.now) }
{
    let mut path = String::from_str(alloc, "extensions/")?;
    path.push_str(name)?;
    path.push_str("/extension.json")?;
    Text::from_string(path)
}

pub fn extension_said(raw: &RawFile) -> Option<&ExtFile>
    ensures { option_copied result ≡ extension_said raw.now }
{
    match raw {
        RawFile::Extension(ext) => Some(ext),
        _ => None,
    }
}

pub fn is_among(name: &str, names: &[Text]) -> bool
    requires { IsByName (λ n. n) names.now }
    ensures { result ≡ is_among name.now names.now }
{
    find_by_name(names, name).is_some()
}

fn is_enabled(enabled: &[Text], file: &StoredFile) -> bool
    requires { IsByName (λ n. n) enabled.now }
    ensures { result ≡ is_enabled enabled.now file.now }
{
    match extension_said(&file.raw) {
        Some(ext) => is_among(ext.name.as_str(), enabled),
        None => false,
    }
}

fn extension_in(
    alloc: Global,
    files: &[Shared<StoredFile>],
    enabled: &[Text],
    name: &str,
) -> Result<Option<Shared<StoredFile>>, AllocError>
    requires files { IsByName stored_path files.now }
    requires enabled { IsByName (λ n. n) enabled.now }
    ensures { IfOk result (λ found. found ≡ extension_in files.now enabled.now name.now) }
{
    let path = extension_path(alloc, name)?;
    match find_by_name(files, path.as_str()) {
        Some(file) => {
            if is_enabled(enabled, file.get()) {
                Ok(Some(file.share()?))
            } else {
                Ok(None)
            }
        }
        None => Ok(None),
    }
}

fn active_file(
    alloc: Global,
    files: &[Shared<StoredFile>],
    enabled: &[Text],
    file: &Shared<StoredFile>,
) -> Result<Option<ActiveFile>, AllocError>
    requires files { IsByName stored_path files.now }
    requires enabled { IsByName (λ n. n) enabled.now }
    ensures { IfOk result (λ active. active ≡ active_file files.now enabled.now file.now) }
{
    let path = file.get().path.as_str();
    if !is_of_extension(path) {
        return Ok(Some(ActiveFile {
            file: file.share()?,
            ext: None,
        }));
    }
    match extension_in(alloc, files, enabled, extension_folder(path))? {
        Some(ext) => Ok(Some(ActiveFile {
            file: file.share()?,
            ext: Some(ext),
        })),
        None => Ok(None),
    }
}

/// The files that count, by path.
pub fn active_files(
    alloc: Global,
    files: &[Shared<StoredFile>],
    enabled: &[Text],
) -> Result<Row<ActiveFile>, AllocError>
    requires files { IsByName stored_path files.now }
    requires enabled { IsByName (λ n. n) enabled.now }
    ensures { IfOk result (λ made. made ≡ active_files files.now enabled.now) }
{
    let mut made = Row::new(alloc);
    for file in files {
        let Some(active) = active_file(alloc, files, enabled, file)? else {
            continue;
        };
        made.push(active)?;
    }
    Ok(made)
}

impl TryClone for ActiveFile {
    fn try_clone(&self) -> Result<ActiveFile, AllocError> {
        Ok(ActiveFile {
            file: self.file.share()?,
            ext: self.ext.try_clone()?,
        })
    }
}

impl ActiveFile {
    /// What its extension says of itself; nothing for a file of core.
    pub fn extension(&self) -> Option<&ExtFile>
        ensures { option_copied result ≡ extension_of self.now }
    {
        match &self.ext {
            Some(file) => extension_said(&file.get().raw),
            None => None,
        }
    }

    /// The name of its extension, empty for core.
    pub fn extension_name(&self) -> &str
        ensures { result.now ≡ extension_name self.now }
    {
        match self.extension() {
            Some(ext) => ext.name.as_str(),
            None => "",
        }
    }

    /// The uid of its extension, 0 for core.
    pub fn extension_uid(&self) -> u32
        ensures { result ≡ extension_uid self.now }
    {
        match self.extension() {
            Some(ext) => ext.uid,
            None => 0,
        }
    }
}

/// The files core first, then those of the extensions by ascending uid; what has one uid keeps its order.
pub fn in_layers(alloc: Global, files: &[ActiveFile]) -> Result<Row<ActiveFile>, AllocError>
    ensures { IfOk result (λ made. made ≡ in_layers files.now) }
{
    let mut layered = Row::of(alloc, files)?.into_vec();
    layered.sort_by_key(|file| file.extension_uid())?;
    Ok(Row::from_vec(layered))
}
