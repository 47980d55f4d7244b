//! What an event may be, told over files: it goes down the event with questions to what the files show, and knows no
//! compiled record. The definition stands in `specs/`. The function does nothing: its contract is the law that the
//! report over a compilation is empty just where the files allow the event.
#![tactic(auto)]

mod file_laws;

pub use file_laws::a_report_is_empty_where_files_allow_the_event;
