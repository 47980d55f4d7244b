// Why a folder isn't compiled.
use ocsf_edge::Fail;
use ocsf_raw::RawError;
use ocsf_tree::Fault;
use std::alloc::AllocError;

/// Why a folder isn't compiled.
#[derive(Debug, Drop)]
pub enum FolderError {
    /// A file has this fault, or the files have it together.
    Fault(Fault),
    /// The folder failed.
    FolderFault,
    /// There was no memory.
    Memory,
}

impl From<AllocError> for FolderError {
    ghost use Rattle.std.specs.Prelude.{◌≡◌};
    ghost use Rattle.ocsf_tool.specs.declared.folder_error.FolderError.TheVariants.{Memory};

    ghost from_gives = { λ _ made. made ≡ Memory };

    fn from(_: AllocError) -> FolderError {
        FolderError::Memory
    }
}

impl From<Fail> for FolderError {
    ghost use Rattle.std.specs.Prelude.{◌≡◌};
    ghost use Rattle.ocsf_tool.specs.FolderParts.{of_fail};

    ghost from_gives = { λ fail made. made ≡ of_fail fail };

    fn from(fail: Fail) -> FolderError {
        match fail {
            Fail::Failed => FolderError::FolderFault,
            Fail::Memory => FolderError::Memory,
        }
    }
}

impl From<RawError> for FolderError {
    ghost use Rattle.std.specs.Prelude.{◌≡◌};
    ghost use Rattle.ocsf_tool.specs.FolderParts.{of_raw};

    ghost from_gives = { λ error made. made ≡ of_raw error };

    fn from(error: RawError) -> FolderError {
        match error {
            RawError::Fault(fault) => FolderError::Fault(fault),
            RawError::Memory => FolderError::Memory,
        }
    }
}
