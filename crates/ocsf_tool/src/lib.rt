//! The commands of the program `ocsf`.
#![tactic(auto)]

mod command;
mod compilation;
mod edits;
mod edits_run;
mod event_judgement;
mod events;
mod events_run;
mod folder;
mod folder_error;
mod folder_run;
mod judgement;
mod laws;
mod outcome;
mod replies;
mod status;
mod words;

pub use command::run;
pub use laws::{
    a_folder_comes_to_one_schema_or_one_fault, a_line_has_one_outcome, the_limit_takes_its_bytes,
};
pub use status::Status;
