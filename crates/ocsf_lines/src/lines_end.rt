// How a run over the lines of a source ends.

/// How a run over the lines of a source ends.
#[derive(Clone, Copy, Debug, PartialEq, Eq)]
pub enum LinesEnd {
    /// The source has ended and all was written. Tells whether a line was at fault.
    Ended { flawed: bool },
    /// A read failed.
    ReadFault,
    /// A write failed.
    WriteFault,
    /// There was no memory.
    Memory,
    /// The source gave 2^40 bytes, the most that a run takes.
    Limit,
}
