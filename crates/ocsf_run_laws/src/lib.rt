//! What holds of whole runs, whatever program runs. The functions do nothing: each contract is a law.
#![tactic(auto)]

mod laws;

pub use laws::{
    a_folder_comes_to_something, compile_has_one_output, edits_has_one_output,
    validate_has_one_output,
};
