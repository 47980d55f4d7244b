// Edits, and the edit that a tree says.
ghost use Rattle.std.specs.Prelude.{◌≡◌, IfOk, All, option_map};
ghost use Rattle.std.specs.List.{filter_map};
ghost use Rattle.std.specs.Option.{option_copied};
ghost use Rattle.ocsf_tree.specs.declared.tree.Tree.{out-Tree};
ghost use Rattle.ocsf_tree.specs.Valid.{IsValid, IsValidList};
ghost use Rattle.ocsf_bundle.specs.EditContent.{change_of, changes_of};
ghost use Rattle.ocsf_bundle.specs.Edits.{IsEdit, IsValidChange};

use ocsf_raw::{RawError, edit_fault, text_at};
use ocsf_tree::{Row, Text, Tree, TryClone};
use std::alloc::{AllocError, Global};

/// One change of a bundle.
#[derive(Debug, Drop)]
pub enum Change {
    /// The tree becomes the file at that path. The text need not be a path.
    Put { path: Text, tree: Tree },
    /// The file at that path goes. The text need not be a path.
    Remove { path: Text },
    /// The extension of that name is taken in.
    Enable { name: Text },
    /// The extension of that name is left out.
    Disable { name: Text },
}

/// The changes of a bundle that are accepted or refused together, in their order.
#[derive(Debug, Drop)]
pub struct Edit {
    pub changes: Row<Change>,
}

impl TryClone for Change {
    fn try_clone(&self) -> Result<Change, AllocError> {
        match self {
            Change::Put { path, tree } => Ok(Change::Put {
                path: path.copy()?,
                tree: tree.copy()?,
            }),
            Change::Remove { path } => Ok(Change::Remove { path: path.copy()? }),
            Change::Enable { name } => Ok(Change::Enable { name: name.copy()? }),
            Change::Disable { name } => Ok(Change::Disable { name: name.copy()? }),
        }
    }
}

impl TryClone for Edit {
    fn try_clone(&self) -> Result<Edit, AllocError> {
        Ok(Edit {
            changes: self.changes.try_clone()?,
        })
    }
}

fn put_of(path: &Text, body: Option<&Tree>) -> Result<Option<Change>, AllocError>
    ensures { IfOk result (λ found. found ≡
        option_map (λ tree. Change.Put path.now tree) (option_copied body.entry)) }
{
    match body {
        Some(tree) => Ok(Some(Change::Put {
            path: path.copy()?,
            tree: tree.copy()?,
        })),
        None => Ok(None),
    }
}

fn change_of(change: &Tree) -> Result<Option<Change>, AllocError>
    requires { IsValid change.now }
    ensures { IfOk result (λ found. found ≡ change_of change.now) }
{
    if let Some(path) = text_at("put", change) {
        return put_of(path, change.at("body"));
    }
    if let Some(path) = text_at("remove", change) {
        return Ok(Some(Change::Remove { path: path.copy()? }));
    }
    if let Some(name) = text_at("enable", change) {
        return Ok(Some(Change::Enable { name: name.copy()? }));
    }
    if let Some(name) = text_at("disable", change) {
        return Ok(Some(Change::Disable { name: name.copy()? }));
    }
    Ok(None)
}

fn changes_in(alloc: Global, items: &[Tree]) -> Result<Row<Change>, AllocError>
    requires { IsValidList items.now }
    ensures { IfOk result (λ made. made ≡ filter_map change_of items.now) }
{
    let mut made = Row::new(alloc);
    for item in items {
        let Some(change) = change_of(item)? else {
            continue;
        };
        made.push(change)?;
    }
    Ok(made)
}

fn changes_of(alloc: Global, tree: &Tree) -> Result<Row<Change>, AllocError>
    requires { IsValid tree.now }
    ensures { IfOk result (λ made. made ≡ changes_of (out-Tree tree.now)) }
{
    match tree {
        Tree::List(items) => changes_in(alloc, items.as_slice()),
        _ => Ok(Row::new(alloc)),
    }
}

/// The edit that the tree says: a list of changes, each an object with exactly one of the members `put`,
/// `remove`, `enable` and `disable`. A fault is `Code::Shape` with an empty subject, and names the first
/// place that isn't as it is wanted.
pub fn edit_of(alloc: Global, tree: &Tree) -> Result<Edit, RawError>
    requires valid { IsValid tree.now }
    ensures edit { IsEdit tree.now result }
    ensures trees { IfOk result (λ edit. All IsValidChange edit.changes) }
{
    if let Some(fault) = edit_fault(alloc, tree)? {
        return Err(RawError::Fault(fault));
    }
    Ok(Edit {
        changes: changes_of(alloc, tree)?,
    })
}
