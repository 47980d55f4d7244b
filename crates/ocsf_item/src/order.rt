// In order, each once.
ghost use Rattle.std.specs.Prelude.{◌≡◌, IfOk};
ghost use Rattle.ocsf_rules.specs.InOrder.{in_order};

use ocsf_tree::Row;
use std::alloc::{AllocError, Global};
use std::collections::BTreeSet;

/// These items in order, each once.
pub(crate) fn in_order<T: Ord + Drop>(alloc: Global, items: Row<T>) -> Result<Row<T>, AllocError>
    ensures { IfOk result (λ made. made ≡ in_order T.cmp items) }
{
    let mut set = BTreeSet::new(alloc);
    let mut left = items.into_vec();
    while let Some(item) = left.pop() {
        set.insert(item)?;
    }
    let made: Vec<T> = set.into_iter().collect(alloc)?;
    Ok(Row::from_vec(made))
}
