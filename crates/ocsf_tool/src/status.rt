// How a run of the program ends.

/// How a run of the program ends. The first of these that happens ends it.
#[derive(Clone, Copy, Debug, PartialEq, Eq)]
pub enum Status {
    /// All was answered, and nothing was refused.
    Done,
    /// All was answered, and an input was refused.
    Flawed,
    /// The words name no command.
    Usage,
    /// The files of a folder or a store have a fault, or a session met a broken request.
    InputRefused,
    /// The source failed.
    ReadFault,
    /// The sink failed.
    WriteFault,
    /// There was no memory.
    Memory,
    /// The keeper failed.
    KeeperFault,
    /// The folder failed.
    FolderFault,
    /// The source gave 2^40 bytes, the most that a run takes.
    Limit,
    /// The acceptor failed.
    AcceptFault,
}

impl Status {
    ghost use Rattle.std.specs.Prelude.{◌≡◌};
    ghost use Rattle.ocsf_tool.specs.ExitCodes.{exit_code};

    /// The exit status of the program.
    pub fn code(self) -> u8
        ensures { result ≡ exit_code self }
    {
        match self {
            Status::Done => 0,
            Status::Flawed => 1,
            Status::Usage => 2,
            Status::InputRefused => 3,
            Status::ReadFault => 4,
            Status::WriteFault => 5,
            Status::Memory => 6,
            Status::KeeperFault => 7,
            Status::FolderFault => 8,
            Status::Limit => 9,
            Status::AcceptFault => 10,
        }
    }
}
