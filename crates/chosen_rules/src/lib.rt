//! Some of an ordering's rules: the ordering with only these, and the rules that exclude a set of patches.
//!
//! A set of rules is the set of their places in the ordering's list, written as sets of patches are in `patch_sets`. A
//! rule excludes a set of patches if it makes one of them wait for a patch outside the set. The same is here of the
//! lines of a script that wait: a line excludes a fault of a set.
#![tactic(auto)]

mod choosing;
mod excluding;
pub mod laws;
mod lines;

pub use choosing::{all_rules, rules_in};
pub use excluding::excluding_rules;
pub use lines::excluding_lines;
