//! How the promises of a script are found step by step. Laws alone.
//!
//! A promise that stands at a place of a script is carried from step to step (`specs/Underway.antt`). The laws say that
//! what it is behind the last step is what `crash_model` defines for the whole script, in `specs/Promises.antt`.
#![tactic(auto)]

pub mod laws;
