//! What the definitions determine once something is given, and no code that runs: a script has at most one reading or
//! refusal, a trace at most one graph, and steps demand at most one thing.
//!
//! Proofs of the program use this. That there is always one is not proved: a run shows it.
#![tactic(auto)]

pub mod laws;
