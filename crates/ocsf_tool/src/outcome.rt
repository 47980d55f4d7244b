// How a line was judged.
use crate::compilation::Compilation;
use ocsf_tree::Fault;

/// How a line was judged.
#[derive(Drop)]
pub enum Outcome {
    /// The edit leaves this.
    Accepted(Compilation),
    Refused(Fault),
}
