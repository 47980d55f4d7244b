// Why answering stops before the source does.
use crate::LinesEnd;
use ocsf_edge::Failed;
use std::alloc::{AllocError, AllocFailed};

/// Why answering stops before the source does.
#[derive(Clone, Copy, Debug, PartialEq, Eq)]
pub enum Stop {
    WriteFault,
    Memory,
}

impl From<AllocError> for Stop {
    ghost use Rattle.std.specs.Prelude.{◌≡◌};
    ghost use Rattle.ocsf_lines.specs.declared.stop.Stop.TheVariants.{Memory};

    ghost from_gives = { λ _ stop. stop ≡ Memory };

    fn from(_: AllocError) -> Self {
        Stop::Memory
    }
}

impl<T: Drop> From<AllocFailed<T>> for Stop {
    ghost use Rattle.std.specs.Prelude.{◌≡◌};
    ghost use Rattle.ocsf_lines.specs.declared.stop.Stop.TheVariants.{Memory};

    ghost from_gives = { λ _ stop. stop ≡ Memory };

    fn from(_: AllocFailed<T>) -> Self {
        Stop::Memory
    }
}

impl From<Failed> for Stop {
    ghost use Rattle.std.specs.Prelude.{◌≡◌};
    ghost use Rattle.ocsf_lines.specs.declared.stop.Stop.TheVariants.{WriteFault};

    ghost from_gives = { λ _ stop. stop ≡ WriteFault };

    fn from(_: Failed) -> Self {
        Stop::WriteFault
    }
}

impl From<Stop> for LinesEnd {
    ghost use Rattle.std.specs.Prelude.{◌≡◌};
    ghost use Rattle.ocsf_lines.specs.Ends.{end_of};

    ghost from_gives = { λ stop end. end ≡ end_of stop };

    fn from(stop: Stop) -> Self {
        match stop {
            Stop::WriteFault => LinesEnd::WriteFault,
            Stop::Memory => LinesEnd::Memory,
        }
    }
}
