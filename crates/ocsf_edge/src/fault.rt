// What a call on the outside answers in place of a value.
use std::alloc::{AllocError, AllocFailed};
use std::io;
use std::io::ErrorKind;

/// The object has failed, and has counted it.
#[derive(Clone, Copy, Debug, PartialEq, Eq)]
pub struct Failed;

/// The object has failed and has counted it, or there was no memory.
#[derive(Clone, Copy, Debug, PartialEq, Eq)]
pub enum Fail {
    Failed,
    Memory,
}

impl From<AllocError> for Fail {
    ghost use Rattle.std.specs.Prelude.{◌≡◌};
    ghost use Rattle.ocsf_edge.specs.declared.fault.Fail.TheVariants.{Memory};

    ghost from_gives = { λ _ fail. fail ≡ Memory };

    fn from(_: AllocError) -> Self {
        Fail::Memory
    }
}

impl<T: Drop> From<AllocFailed<T>> for Fail {
    ghost use Rattle.std.specs.Prelude.{◌≡◌};
    ghost use Rattle.ocsf_edge.specs.declared.fault.Fail.TheVariants.{Memory};

    ghost from_gives = { λ _ fail. fail ≡ Memory };

    fn from(_: AllocFailed<T>) -> Self {
        Fail::Memory
    }
}

impl From<io::Error> for Fail {
    ghost use Rattle.std.specs.Prelude.{◌≡◌, ◌≢◌};
    ghost use Rattle.std.specs.IoError.{error_kind};
    ghost use Rattle.std.specs.declared.io.ErrorKind.TheVariants.{OutOfMemory};
    ghost use Rattle.ocsf_edge.specs.declared.fault.Fail.TheVariants.{Failed, Memory};

    ghost from_gives = { λ error fail. (error_kind error ≡ OutOfMemory → fail ≡ Memory)
        × (error_kind error ≢ OutOfMemory → fail ≡ Failed) };

    fn from(error: io::Error) -> Self {
        match error.kind() {
            ErrorKind::OutOfMemory => Fail::Memory,
            _ => Fail::Failed,
        }
    }
}
