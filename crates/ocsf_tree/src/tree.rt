// A JSON tree.
ghost use Rattle.std.specs.Prelude.{◌≡◌, IfOk};
ghost use Rattle.std.specs.Option.{IfSome, option_copied};
ghost use Rattle.ocsf_tree.specs.Lookup.{member_at, member_in};
ghost use Rattle.ocsf_tree.specs.Valid.{IsValid, IsValidMembers};

use crate::text::Text;
use ocsf_lists::{Named, Row, TryClone, find_by_name};
use std::alloc::AllocError;

/// A JSON value. It is valid (`IsValid`) where at every depth whole numbers are signed or unsigned 64-bit
/// ones and the members of an object stand strictly in the order of their names' bytes. Every call that
/// takes a tree asks for a valid one, and every tree that a call gives is valid.
#[cycle(tree)]
#[derive(Debug, Drop)]
pub enum Tree {
    Null,
    Flag(bool),
    Whole(i128),
    Words(Text),
    List(Row<Tree>),
    Members(Row<Member>),
}

/// A member of an object.
#[cycle(tree)]
#[derive(Debug, Drop)]
pub struct Member {
    pub name: Text,
    pub value: Tree,
}

impl Tree {
    /// The value of the member of that name. It takes time logarithmic in the number of members.
    pub fn at(&self, name: &str) -> Option<&Tree>
        requires { IsValid self.now }
        ensures found { option_copied result ≡ member_at name.now self.now }
        ensures valid { IfSome result (λ tree. IsValid tree.now) }
    {
        match self {
            Tree::Members(members) => find(members.as_slice(), name),
            _ => None,
        }
    }

    /// An equal tree, from the allocators of this one.
    #[cycle(copy)]
    pub fn copy(&self) -> Result<Tree, AllocError>
        ensures { IfOk result (λ made. made ≡ self.now) }
    {
        match self {
            Tree::Null => Ok(Tree::Null),
            Tree::Flag(flag) => Ok(Tree::Flag(*flag)),
            Tree::Whole(whole) => Ok(Tree::Whole(*whole)),
            Tree::Words(words) => Ok(Tree::Words(words.copy()?)),
            Tree::List(items) => Ok(Tree::List(copy_items(items)?)),
            Tree::Members(members) => Ok(Tree::Members(copy_members(members)?)),
        }
    }
}

impl TryClone for Tree {
    fn try_clone(&self) -> Result<Tree, AllocError> {
        self.copy()
    }
}

impl TryClone for Member {
    fn try_clone(&self) -> Result<Member, AllocError> {
        Ok(Member {
            name: self.name.copy()?,
            value: self.value.copy()?,
        })
    }
}

fn find<'a>(members: &'a [Member], name: &str) -> Option<&'a Tree>
    requires { IsValidMembers members.now }
    ensures { option_copied result ≡ member_in name.now members.now }
{
    match find_by_name(members, name) {
        Some(member) => Some(&member.value),
        None => None,
    }
}

#[cycle(copy)]
fn copy_items(items: &Row<Tree>) -> Result<Row<Tree>, AllocError>
    ensures { IfOk result (λ made. made ≡ items.now) }
{
    let mut made = Row::with_capacity(items.allocator(), items.len())?;
    for item in items.as_slice() {
        made.push(item.copy()?)?;
    }
    Ok(made)
}

#[cycle(copy)]
fn copy_members(members: &Row<Member>) -> Result<Row<Member>, AllocError>
    ensures { IfOk result (λ made. made ≡ members.now) }
{
    let mut made = Row::with_capacity(members.allocator(), members.len())?;
    for member in members.as_slice() {
        let name = member.name.copy()?;
        let value = member.value.copy()?;
        made.push(Member { name, value })?;
    }
    Ok(made)
}

impl Named for Member {
    ghost name_of = { λ member. member.name };

    fn name(&self) -> &str {
        self.name.as_str()
    }
}
