//! The promises of a script: what each allows, with which ids it begins, and what ends it.
//!
//! They are defined in the crate `crash_model`, in `specs/Promises.antt`. They are found step by step, beside a trace.
#![tactic(auto)]

mod asking;
mod lasting;
mod place;
mod promising;
mod underway;

pub use asking::{demands_under, place_of, promises, take};
pub use place::Place;
pub use promising::Promising;
