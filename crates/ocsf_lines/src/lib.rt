//! The loop over the lines of a source: each line is answered as it comes, and the last state is
//! printed at the end. A machine says what answers a line, so a command is a machine of its own
//! and its promises follow from those of `run_lines`.
#![tactic(auto)]

mod closing;
mod feeding;
mod lines_end;
mod machine;
mod reading;
mod stop;

pub use lines_end::LinesEnd;
pub use machine::{LineMachine, Reply};
pub use reading::run_lines;
