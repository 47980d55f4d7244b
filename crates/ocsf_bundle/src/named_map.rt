// Maps by a name, and their items in order.
ghost use Rattle.std.specs.Prelude.{◌≡◌, ℕ, List, IfOk, OnOk, Some, None, is_some};
ghost use Rattle.std.specs.BTreeMap.{get, IsOrdered};
ghost use Rattle.ocsf_lists.specs.ByName.{IsByName, at_name, text_cmp};
ghost use Rattle.ocsf_bundle.specs.NamedMap.{values_in, with_item};

use ocsf_tree::{Named, Row, Text, TryClone};
use std::alloc::{AllocError, Global};
use std::collections::BTreeMap;

/// The items by their names.
pub fn map_of<T: Named + TryClone>(
    alloc: Global,
    items: &[T],
) -> Result<BTreeMap<Text, T>, AllocError>
    requires { IsByName T.name_of items.now }
    ensures { IfOk result (λ made. (q : List ℕ) → get text_cmp made q ≡ at_name T.name_of q items.now) }
{
    let mut made: BTreeMap<Text, T> = BTreeMap::new(alloc);
    for item in items {
        made.insert(Text::of(alloc, item.name())?, item.try_clone()?)?;
    }
    Ok(made)
}

/// The items of the map, in byte order of their names.
pub fn values_in<T: Drop>(alloc: Global, items: BTreeMap<Text, T>) -> Result<Row<T>, AllocError>
    ensures values { IfOk result (λ made. made ≡ values_in items) }
    ensures ordered { IfOk result (λ _. IsOrdered text_cmp items) }
{
    let mut made = Row::with_capacity(alloc, items.len())?;
    for (_, item) in items {
        made.push(item)?;
    }
    Ok(made)
}

/// Puts the item at that name.
pub fn put_item<T: Drop>(
    items: &mut BTreeMap<Text, T>,
    name: Text,
    item: T,
) -> Result<(), AllocError>
    ensures { OnOk result ((q : List ℕ) → get text_cmp items.new q ≡ with_item name (Some item) items.old q) }
{
    items.insert(name, item)?;
    Ok(())
}

/// Takes away the item at that name. It tells whether there was one.
pub fn take_item<T: Drop>(items: &mut BTreeMap<Text, T>, name: &Text) -> bool
    ensures there { result ≡ is_some (get text_cmp items.old name.now) }
    ensures rest { (q : List ℕ) → get text_cmp items.new q ≡ with_item name.now None items.old q }
{
    items.remove(name).is_some()
}
