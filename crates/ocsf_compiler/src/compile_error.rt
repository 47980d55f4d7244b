// Why a bundle isn't compiled.
use ocsf_tree::Fault;
use std::alloc::AllocError;

/// Why a bundle has no compilation.
#[derive(Debug, Drop)]
pub enum CompileError {
    /// The least fault of the bundle.
    Fault(Fault),
    /// Want of memory.
    Memory,
}

impl From<AllocError> for CompileError {
    ghost use Rattle.std.specs.Prelude.{◌≡◌};
    ghost use Rattle.ocsf_compiler.specs.declared.compile_error.CompileError.TheVariants.{Memory};

    ghost from_gives = { λ e made. made ≡ Memory };

    fn from(_e: AllocError) -> CompileError {
        CompileError::Memory
    }
}
