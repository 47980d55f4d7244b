// What shows cells: the trait by which compiling asks the files.
ghost use Rattle.std.specs.Prelude.{◌≡◌, ◌≤◌, length, slice_get, IfSome};
ghost use Rattle.std.specs.Option.{option_map};
ghost use Rattle.ocsf_bundle.specs.declared.cells.Cell.{Cell};
ghost use Rattle.ocsf_bundle.specs.Looks.{Looks, look};
ghost use Rattle.ocsf_bundle.specs.Shown.{shown, IsShownOrdered, AreNumbersInRange};

use crate::cells::{Cell, Part};

/// Files that answer what their cells show. Whatever is compiled is compiled by these answers alone.
pub trait Shows {
    /// What every cell shows.
    ghost looks: { Self → Looks };

    /// The part at position `k` of what the cell shows, and nothing where it shows no more than `k`
    /// parts. It takes no memory.
    fn look<'a>(&'a self, cell: &Cell, k: usize) -> Option<Part<'a>>
        ensures part { option_map shown result ≡ slice_get (look (looks self.now) cell.now) k }
        ensures ordered { IfSome result (λ part. IsShownOrdered (shown part)) }
        ensures numbers { IfSome result (λ part. AreNumbersInRange (shown part)) };

    /// A number of parts that no cell passes.
    fn most(&self) -> usize
        ensures { (cell : Cell) → length (look (looks self.now) cell) ≤ result };
}
