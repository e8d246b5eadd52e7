//! Which sets of rules are enough, and which groups of rules are needed, asked of an oracle.
//!
//! A set of rules is a set of ids below 128, written as in `patch_sets`. An oracle says whether a set of rules is
//! enough. If it isn't, the oracle gives a group of other rules, of which each set that is enough has one.
#![tactic(auto)]

mod asking;
mod blocking;
mod oracle;
mod sets;

pub use blocking::blocking_groups;
pub use oracle::Oracle;
pub use sets::{EnoughSets, enough_sets, sets_of};
