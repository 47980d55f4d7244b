// Why an item isn't built.
use ocsf_tree::Fault;
use std::alloc::AllocError;

/// Why an item wasn't built.
#[derive(Debug, Drop)]
pub enum BuildError {
    /// The least fault of the item.
    Fault(Fault),
    /// Want of memory.
    Memory,
}

impl From<AllocError> for BuildError {
    ghost use Rattle.std.specs.Prelude.{◌≡◌};
    ghost use Rattle.ocsf_item.specs.declared.build_error.BuildError.TheVariants.{Memory};

    ghost from_gives = { λ e made. made ≡ Memory };

    fn from(_e: AllocError) -> BuildError {
        BuildError::Memory
    }
}
