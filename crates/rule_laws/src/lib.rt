//! What holds of orderings as lists of rules: laws, and no code that runs.
#![tactic(auto)]

pub mod laws;
