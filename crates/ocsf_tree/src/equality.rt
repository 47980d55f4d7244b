// Whether two trees are the same.
ghost use Rattle.std.specs.Prelude.{◌≡◌, IsTrue, ◌↔◌, length, true};
ghost use Rattle.ocsf_tree.specs.Data.{data_of, list_data, members_data};
ghost use Rattle.ocsf_tree.specs.Valid.{IsValid};
ghost use Rattle.ocsf_tree.specs.Equality.{same, same_items, same_members};

use crate::tree::{Member, Tree};

/// Whether two trees are equal.
pub fn is_same(a: &Tree, b: &Tree) -> bool
    requires { IsValid a.now }
    ensures { IsTrue result ↔ (a.now ≡ b.now) }
{
    compare(a, b)
}

#[cycle(compare)]
fn compare(a: &Tree, b: &Tree) -> bool
    ensures { result ≡ same (data_of a.now) (data_of b.now) }
{
    match (a, b) {
        (Tree::Null, Tree::Null) => true,
        (Tree::Flag(x), Tree::Flag(y)) => *x == *y,
        (Tree::Whole(x), Tree::Whole(y)) => *x == *y,
        (Tree::Words(x), Tree::Words(y)) => x.as_str() == y.as_str(),
        (Tree::List(x), Tree::List(y)) => compare_items(x.as_slice(), y.as_slice()),
        (Tree::Members(x), Tree::Members(y)) => compare_members(x.as_slice(), y.as_slice()),
        _ => false,
    }
}

#[cycle(compare)]
fn compare_items(a: &[Tree], b: &[Tree]) -> bool
    ensures { result ≡ same_items (list_data a.now) (list_data b.now) }
{
    if a.len() != b.len() {
        return false;
    }
    for index in 0..a.len() {
        if !compare(&a[index], &b[index]) {
            return false;
        }
    }
    true
}

#[cycle(compare)]
fn compare_members(a: &[Member], b: &[Member]) -> bool
    ensures { result ≡ same_members (members_data a.now) (members_data b.now) }
{
    if a.len() != b.len() {
        return false;
    }
    for index in 0..a.len() {
        let left = &a[index];
        let right = &b[index];
        if left.name.as_str() != right.name.as_str() {
            return false;
        }
        if !compare(&left.value, &right.value) {
            return false;
        }
    }
    true
}
