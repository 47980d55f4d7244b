// A bundle: the files with the enabled extensions, and what is asked of them.
ghost use Rattle.std.specs.Prelude.{◌≡◌, ℕ, List, [], All, IfOk, slice_get, length, ◌≤◌, IfSome};
ghost use Rattle.std.specs.Option.{option_copied, option_map};
ghost use Rattle.ocsf_lists.specs.ByName.{IsByName};
ghost use Rattle.ocsf_bundle.specs.Stored.{stored_path, AreFilesSound};
ghost use Rattle.ocsf_bundle.specs.Active.{active_files};
ghost use Rattle.ocsf_bundle.specs.Keys.{active_keys};
ghost use Rattle.ocsf_bundle.specs.Edits.{IsValidChange};
ghost use Rattle.ocsf_bundle.specs.After.{IsAfter};
ghost use Rattle.ocsf_bundle.specs.BundleFaults.{own_fault};
ghost use Rattle.ocsf_bundle.specs.FilesLook.{looks};
ghost use Rattle.ocsf_bundle.specs.Listing.{listing};
ghost use Rattle.ocsf_bundle.specs.Looks.{look};
ghost use Rattle.ocsf_bundle.specs.Shown.{shown, IsShownOrdered, AreNumbersInRange};
ghost use Rattle.ocsf_bundle.specs.declared.cells.Cell.{Cell};

use crate::active::active_files;
use crate::cells::{Cell, Part};
use crate::draft::{enabled_after, files_after};
use crate::edit::Edit;
use crate::index::{Index, index_of};
use crate::listing::{attribute_names, category_keys, group_names, type_names, version_said};
use crate::look::found;
use crate::own_fault::own_fault;
use crate::shows::Shows;
use crate::stored::StoredFile;
use ocsf_raw::RawError;
use ocsf_tree::{Fault, Key, Row, Shared, Text, find_by_name};
use std::alloc::{AllocError, Global};
use std::marker::Model;

/// The files from which everything is compiled, and the names of the enabled extensions.
#[derive(Debug)]
pub struct Bundle {
    files: Row<Shared<StoredFile>>,
    enabled: Row<Text>,
    index: Index,
}

impl Drop for Bundle {
    fn drop(self) {
        let Bundle {
            files: _,
            enabled: _,
            index: _,
        } = self;
    }
}

impl Model for Bundle {
    ghost use Rattle.ocsf_bundle.specs.Stored.{Stored};
    ghost use Rattle.ocsf_tree.specs.contracts.tree.Tree as tree;
    ghost use Rattle.std.specs.Coded.{codes};

    ghost Value = { Stored };

    ghost coded = { Prim.hlevel (codes, tree.the_row.coded) };

    ghost use Rattle.ocsf_bundle.specs.Indexed.{stored, IsIndexed};

    ghost view = { stored };

    ghost invariant = { IsIndexed };
}

fn key_at(keys: &[Key], k: usize) -> Option<&Key>
    ensures { option_copied result ≡ slice_get keys.now k }
{
    keys.get(k)
}

impl Bundle {
    /// No files, and no extension enabled. It takes no memory.
    pub fn empty(alloc: Global) -> Bundle
        ensures files { result.files ≡ [] }
        ensures enabled { result.enabled ≡ [] }
    {
        Bundle {
            files: Row::new(alloc),
            enabled: Row::new(alloc),
            index: Index::empty(alloc),
        }
    }

    /// The files, in byte order of their paths.
    pub fn files(&self) -> &[Shared<StoredFile>]
        ensures files { result.now ≡ self.now.files }
        ensures by_path { IsByName stored_path result.now }
        ensures sound { AreFilesSound result.now }
    {
        self.files.as_slice()
    }

    /// The names of the enabled extensions, in byte order.
    pub fn enabled(&self) -> &[Text]
        ensures enabled { result.now ≡ self.now.enabled }
        ensures by_name { IsByName (λ name. name) result.now }
    {
        self.enabled.as_slice()
    }

    /// The bundle of these files and enabled extensions.
    pub fn of(
        alloc: Global,
        files: Row<Shared<StoredFile>>,
        enabled: Row<Text>,
    ) -> Result<Bundle, AllocError>
        requires by_path { IsByName stored_path files }
        requires by_name { IsByName (λ (name : List ℕ). name) enabled }
        requires ordered { AreFilesSound files }
        ensures files { IfOk result (λ made. made.files ≡ files) }
        ensures enabled { IfOk result (λ made. made.enabled ≡ enabled) }
    {
        let active = active_files(alloc, files.as_slice(), enabled.as_slice())?;
        let index = index_of(alloc, active.as_slice())?;
        Ok(Bundle {
            files,
            enabled,
            index,
        })
    }

    /// The bundle after the edit: at each path stands what the last change of it says, or else what stood
    /// there, and likewise each extension is enabled or not. A file that no change names is shared, not
    /// copied. The fault is that of the first change that has one: of a put that of [`shape`], of a
    /// removal `absent` where no file stands at the path after the changes before it.
    ///
    /// [`shape`]: ocsf_raw::shape
    pub fn after(&self, edit: &Edit) -> Result<Bundle, RawError>
        requires trees { All IsValidChange edit.now.changes }
        ensures after { IsAfter self.now edit.now.changes result }
    {
        let alloc = self.files.allocator();
        let changes = edit.changes.as_slice();
        let files = files_after(alloc, self.files.as_slice(), changes)?;
        let enabled = enabled_after(alloc, self.enabled.as_slice(), changes)?;
        Ok(Bundle::of(alloc, files, enabled)?)
    }

    /// The key at position `k` of the active full keys in order, each once. It takes no memory.
    pub fn key_at(&self, k: usize) -> Option<&Key>
        ensures { option_copied result ≡ slice_get (active_keys (active_files self.now.files self.now.enabled)) k }
    {
        key_at(self.index.keys.as_slice(), k)
    }

    /// The active full keys in order, each once. It takes no memory.
    pub fn keys(&self) -> &[Key]
        ensures { result.now ≡ (listing self.now).items }
    {
        self.index.keys.as_slice()
    }

    /// The least of the faults that the files have as a whole: by their number, their keys and numbers,
    /// and their patches, and, where there are none of these, by the types of their dictionaries.
    pub fn own_fault(&self) -> Result<Option<Fault>, AllocError>
        ensures { IfOk result (λ fault. fault ≡ own_fault self.now.files self.now.enabled) }
    {
        let alloc = self.files.allocator();
        let fault = own_fault(
            alloc,
            self.files.as_slice(),
            self.enabled.as_slice(),
            &self.index,
        )?;
        Ok(fault)
    }

    /// The attributes of the dictionaries, in byte order, each once.
    pub fn attribute_names(&self) -> Result<Row<Text>, AllocError>
        ensures { IfOk result (λ made. made ≡ (listing self.now).attributes) }
    {
        attribute_names(self.files.allocator(), self.index.dictionaries.as_slice())
    }

    /// The types of the dictionaries, in byte order, each once.
    pub fn type_names(&self) -> Result<Row<Text>, AllocError>
        ensures { IfOk result (λ made. made ≡ (listing self.now).types) }
    {
        type_names(self.files.allocator(), self.index.dictionaries.as_slice())
    }

    /// The keys of the categories, in byte order, each once. That of the built-in one is among them.
    pub fn category_keys(&self) -> Result<Row<Text>, AllocError>
        ensures { IfOk result (λ made. made ≡ (listing self.now).categories) }
    {
        category_keys(self.files.allocator(), self.index.categories.as_slice())
    }

    /// The keys of the profiles, in byte order, each once.
    pub fn profile_keys(&self) -> Result<Row<Text>, AllocError>
        ensures { IfOk result (λ made. made ≡ (listing self.now).profiles) }
    {
        group_names(self.files.allocator(), self.index.profiles.as_slice())
    }

    /// The part at position `k` of what the cell shows, and nothing where it shows no more than `k` parts. It takes
    /// no memory.
    pub fn look(&self, cell: &Cell, k: usize) -> Option<Part<'_>>
        ensures part { option_map shown result
            ≡ slice_get (look (looks self.now.files self.now.enabled) cell.now) k }
        ensures ordered { IfSome result (λ part. IsShownOrdered (shown part)) }
        ensures numbers { IfSome result (λ part. AreNumbersInRange (shown part)) }
    {
        found(&self.index, cell, k)
    }

    /// The version of the schema, empty where no file gives it. It takes no memory.
    pub fn version(&self) -> &str
        ensures { result.now ≡ (listing self.now).version }
    {
        match find_by_name(self.files.as_slice(), "version.json") {
            Some(file) => match version_said(&file.get().raw) {
                Some(version) => version.as_str(),
                None => "",
            },
            None => "",
        }
    }
}

impl Shows for Bundle {
    ghost looks = { λ bundle. looks bundle.files bundle.enabled };

    fn look<'a>(&'a self, cell: &Cell, k: usize) -> Option<Part<'a>> {
        Bundle::look(self, cell, k)
    }

    fn most(&self) -> usize {
        self.files.as_slice().len() + 1
    }
}
