// What holds of all files and cells. The functions do nothing: each contract is a law.
ghost use Rattle.std.specs.Prelude.{List};
ghost use Rattle.ocsf_bundle.specs.CellOrder.{IsCellOrder};
ghost use Rattle.ocsf_bundle.specs.Laws.{AreKeysOfItems};
ghost use Rattle.ocsf_bundle.specs.declared.stored.ActiveFile.{ActiveFile};

use crate::cells::Cell;

/// Cells go by their kind, and those of one kind by their texts' bytes.
pub fn cells_are_ordered()
    ensures { IsCellOrder ⟦<Cell as Ord>⟧.cmp }
{}

/// The active keys stand strictly by their printed forms, and are just those of which there is an item.
pub fn keys_are_those_of_items()
    ensures { (files : List ActiveFile) → AreKeysOfItems files }
{}
