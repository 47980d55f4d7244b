// Files in groups by key, each group in the order that its cell shows.
ghost use Rattle.std.specs.Prelude.{◌≡◌, ℕ, List, IfOk, OnOk, Some};
ghost use Rattle.std.specs.BTreeMap.{get, IsOrdered};
ghost use Rattle.ocsf_lists.specs.ByName.{IsByName, text_cmp};
ghost use Rattle.ocsf_bundle.specs.Groups.{group_name, groups_of, given_by, group_at, grown_at, groups_in};

use crate::keys::{GroupBy, given_by};
use crate::stored::ActiveFile;
use ocsf_tree::{Named, Row, Text, TryClone, find_by_name};
use std::alloc::{AllocError, Global};
use std::collections::BTreeMap;

/// The files that give one key.
#[derive(Debug)]
pub struct Group {
    pub name: Text,
    pub files: Row<ActiveFile>,
}

impl Drop for Group {
    fn drop(self) {
        let Group { name: _, files: _ } = self;
    }
}

impl Named for Group {
    ghost name_of = { group_name };

    fn name(&self) -> &str {
        self.name.as_str()
    }
}

fn push_file(
    alloc: Global,
    groups: &mut BTreeMap<Text, Row<ActiveFile>>,
    name: Text,
    file: ActiveFile,
) -> Result<(), AllocError>
    ensures { OnOk result ((q : List ℕ) → get text_cmp groups.new q ≡ grown_at (get text_cmp groups.old) name file q) }
{
    let mut files = match groups.remove(&name) {
        Some(files) => files,
        None => Row::new(alloc),
    };
    files.push(file)?;
    groups.insert(name, files)?;
    Ok(())
}

fn groups_in(alloc: Global, map: BTreeMap<Text, Row<ActiveFile>>) -> Result<Row<Group>, AllocError>
    ensures groups { IfOk result (λ made. made ≡ groups_in map) }
    ensures ordered { IfOk result (λ _. IsOrdered text_cmp map) }
{
    let mut made = Row::with_capacity(alloc, map.len())?;
    for (name, files) in map {
        made.push(Group { name, files })?;
    }
    Ok(made)
}

/// The files by the key of that kind that they give, strictly by that key.
pub fn groups_of(alloc: Global, by: GroupBy, files: &[ActiveFile]) -> Result<Row<Group>, AllocError>
    ensures { IfOk result (λ made. made ≡ groups_of (given_by by) files.now) }
{
    let mut map: BTreeMap<Text, Row<ActiveFile>> = BTreeMap::new(alloc);
    for file in files {
        let Some(name) = given_by(alloc, by, file)? else {
            continue;
        };
        push_file(alloc, &mut map, name, file.try_clone()?)?;
    }
    let groups = groups_in(alloc, map)?;
    Ok(groups)
}

/// The files that give that key.
pub fn group_at<'a>(groups: &'a [Group], name: &str) -> &'a [ActiveFile]
    requires { IsByName group_name groups.now }
    ensures { result.now ≡ group_at name.now groups.now }
{
    match find_by_name(groups, name) {
        Some(group) => group.files.as_slice(),
        None => &[],
    }
}
