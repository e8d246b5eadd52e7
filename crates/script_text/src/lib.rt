//! Scripts: what their bytes ask for, or which of their lines is refused first.
//!
//! A script is lines of text. Each asks for an operation, for a step with a group of patches, or for the start of
//! the trace; an empty line and a comment, which begins with `#`, ask for nothing.
#![tactic(auto)]

mod line;
mod lines;
mod operands;
pub mod script;
mod verb;
mod words;

pub use script::{Script, read_script};
