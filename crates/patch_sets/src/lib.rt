//! Sets of patches as words of 128 bits, and what a graph of patches allows of them.
//!
//! A patch has an id, its place in the graph from 0 on. A set of patches is the number with bit p for
//! each id p that is in it.
#![tactic(auto)]

pub mod ends;
pub mod explored;
pub mod iter;
pub mod laws;
pub mod leading;
pub mod order;
pub mod set;
pub mod write;
