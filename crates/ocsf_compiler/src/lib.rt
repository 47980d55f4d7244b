//! What a bundle is compiled to.
#![tactic(auto)]

mod attributes;
mod compile_error;
mod compiling;
mod items;
mod kinds;
mod no_files;
mod parts;
mod patterns;
mod schema_fault;
mod sections;
mod tables;
mod types;

pub use compile_error::CompileError;
pub use compiling::compile;
pub use no_files::empty_schema;
