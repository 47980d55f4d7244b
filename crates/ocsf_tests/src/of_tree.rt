// Lists, keys and trees that are made and copied.
use ocsf_tree::{Key, Member, Row, Shared, Side, Text, Tree, TryClone, is_same, read};
use std::alloc::{AllocError, Global};
use std::test::Fail;

fn rows_change(alloc: Global) -> Result<bool, AllocError> {
    let mut items = Row::of(alloc, &[2u8])?;
    items.insert(0, 1)?;
    items.replace(1, 3);
    Ok(items.as_slice() == [1, 3].as_slice())
}

fn keys_are_copied(alloc: Global) -> Result<bool, AllocError> {
    let key = Key {
        side: Side::Object,
        name: Text::of(alloc, "user")?,
    };
    let copy = key.try_clone()?;
    Ok(copy.to_text()?.as_str() == "object:user")
}

fn trees_are_made(alloc: Global) -> Result<bool, Fail> {
    let mut members = Row::new(alloc);
    members.push(Member {
        name: Text::of(alloc, "b")?,
        value: Tree::Whole(7),
    })?;
    let tree = read(alloc, b"{\"b\":7}")?;
    Ok(is_same(&tree, &Tree::Members(members)))
}

fn trees_are_shared(alloc: Global) -> Result<bool, Fail> {
    let tree = read(alloc, b"{\"b\":7}")?;
    let shared = Shared::new(alloc, tree.copy()?)?.try_clone()?;
    Ok(is_same(&tree, shared.get()) && matches!(tree.at("b"), Some(Tree::Whole(7))))
}

// Each call that takes memory succeeds where there is some.
#[test]
fn makes_and_copies(rt: HostRuntime) -> Result<(), Fail> {
    assert!(rt; rows_change(rt.alloc())?);
    assert!(rt; keys_are_copied(rt.alloc())?);
    assert!(rt; trees_are_made(rt.alloc())?);
    assert!(rt; trees_are_shared(rt.alloc())?);
    Ok(())
}
