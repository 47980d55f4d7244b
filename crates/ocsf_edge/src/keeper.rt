// Where tables are kept.
ghost use Rattle.std.specs.Prelude.{◌≡◌, ℕ, IfOk, OnOk, OnErr, IfSome, option_map};
ghost use Rattle.std.specs.declared.option.Option.{Option};
ghost use Rattle.ocsf_edge.specs.Faults.{HasCauseOrMemory};
ghost use Rattle.ocsf_edge.specs.Tables.{HasNoRepeats, committed};
ghost use Rattle.ocsf_edge.specs.declared.records.Kept.{Kept};

use crate::{Fail, Kept, Move};

/// Where tables are kept.
pub trait Keeper {
    /// The tables, where the keeper tells them.
    ghost tables: { Self → Option Kept };

    /// How often a call has failed.
    ghost keeper_faults: { Self → ℕ };

    /// The tables, which stay as they are.
    fn load(&mut self) -> Result<Kept, Fail>
        ensures tables { IfOk result (λ kept. IfSome (tables self.old) (λ told. kept ≡ told)) }
        ensures same { tables self.new ≡ tables self.old }
        ensures cause { HasCauseOrMemory (keeper_faults self.old) (keeper_faults self.new) result };

    /// Applies the moves in order and sets the revision, all or nothing.
    fn commit(&mut self, moves: &[Move], revision: u32) -> Result<(), Fail>
        ensures ok { OnOk result (tables self.new
            ≡ option_map (committed moves.now revision) (tables self.old)) }
        ensures err { OnErr result (tables self.new ≡ tables self.old) }
        ensures cause { HasCauseOrMemory (keeper_faults self.old) (keeper_faults self.new) result };

    // No path and no enabled name stands twice.
    ghost no_repeats: { (keeper : Self) → IfSome (tables keeper) HasNoRepeats };
}
