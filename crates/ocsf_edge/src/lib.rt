//! The outside of the programs as traits, each with a count of its faults, and forms of them in
//! memory and over std.
//!
//! A call answers that its object failed only where the object's count of faults rose in it, so
//! a contract that says "only where the count rose" keeps generic code from giving up by itself.
#![tactic(auto)]

mod bytes;
mod dir_folder;
mod fault;
mod folder;
mod keeper;
mod memory_folder;
mod memory_sink;
mod memory_source;
mod records;
mod sink;
mod source;
mod std_forms;
mod sure_folder;
mod sure_keeper;
mod write;

pub use bytes::Bytes;
pub use dir_folder::DirFolder;
pub use fault::{Fail, Failed};
pub use folder::Folder;
pub use keeper::Keeper;
pub use memory_folder::MemoryFolder;
pub use memory_sink::{MemorySink, SureSink};
pub use memory_source::{MemorySource, SureSource};
pub use ocsf_lists::Row as Seq;
pub use records::{Kept, KeptFile, Move};
pub use sink::Sink;
pub use source::Source;
pub use std_forms::{StdSink, StdSource};
pub use sure_folder::SureFolder;
pub use sure_keeper::SureKeeper;
pub use write::{write_all, write_both};
