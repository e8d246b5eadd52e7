//! The patches of a trace: what each of them is of its operation, which wait for which, and why.
//!
//! A patch has a label, which says where it comes from and what part of its operation it is. The rules of an ordering
//! and the links of groups need only labels.
#![tactic(auto)]

mod labels;
mod reasons;
mod traced;

pub use labels::{
    Label, Link, Origin, Wait, applies, forced_before, is_forced, is_in_group, waits,
};
pub use reasons::{Reason, Reasons};
pub use traced::Traced;
