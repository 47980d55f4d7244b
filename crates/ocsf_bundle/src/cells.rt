// Cells, and the parts that they show.
use ocsf_raw::{CategoryEntry, DictEntry, ExtFile, ItemFile, ProfileFile, RawAttr, TypeEntry};
use ocsf_tree::{Key, Text, TryClone};
use std::alloc::AllocError;

/// A question to the files of a bundle. What it shows is a list of parts. Cells are ordered by their
/// kind, and then by their texts' bytes.
#[derive(Debug, PartialEq, Eq, PartialOrd, Ord, Drop)]
pub enum Cell {
    /// The active item files with that full key, by path.
    Item(Key),
    /// Whether there is such a file.
    Exists(Key),
    /// The active patches of that item, by the uid of their extension, then by path.
    Patches(Key),
    /// The active profile files with that key, by path.
    Profile(Text),
    /// The active include and profile files at that path below the folder of the extension of that
    /// name, of core where the name is empty.
    Include { from: Text, path: Text },
    /// What the dictionaries say of that attribute, by layer.
    Dict(Text),
    /// What the dictionaries say of that type, by layer.
    Kind(Text),
    /// The category of that key.
    Category(Text),
    /// The active extension file of that name.
    Ext(Text),
}

/// What a cell shows: plain content, without the text of the file.
#[derive(Debug, Drop)]
pub enum Part<'a> {
    /// Such a file is there.
    There,
    Item(&'a ItemFile),
    /// The extension that patches, and its patch.
    Patch(&'a ExtFile, &'a ItemFile),
    Profile(&'a ProfileFile),
    /// The entries of an include file.
    Include(&'a [RawAttr]),
    /// The name of the extension, empty for core, and its entry.
    Dict(&'a str, &'a DictEntry),
    Kind(&'a TypeEntry),
    /// The uid of the category's extension, 0 for core, and its entry.
    Category(u32, &'a CategoryEntry),
    /// The built-in category.
    Other,
    Ext(&'a ExtFile),
}

impl TryClone for Cell {
    fn try_clone(&self) -> Result<Cell, AllocError> {
        match self {
            Cell::Item(key) => Ok(Cell::Item(key.try_clone()?)),
            Cell::Exists(key) => Ok(Cell::Exists(key.try_clone()?)),
            Cell::Patches(key) => Ok(Cell::Patches(key.try_clone()?)),
            Cell::Profile(key) => Ok(Cell::Profile(key.copy()?)),
            Cell::Include { from, path } => Ok(Cell::Include {
                from: from.copy()?,
                path: path.copy()?,
            }),
            Cell::Dict(name) => Ok(Cell::Dict(name.copy()?)),
            Cell::Kind(name) => Ok(Cell::Kind(name.copy()?)),
            Cell::Category(key) => Ok(Cell::Category(key.copy()?)),
            Cell::Ext(name) => Ok(Cell::Ext(name.copy()?)),
        }
    }
}
