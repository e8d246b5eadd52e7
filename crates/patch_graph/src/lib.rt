//! Graphs of patches, and the sets of them that a crash can leave.
//!
//! A patch is a change to bytes of one block together with the patches that it depends on (Frost et al.,
//! "Generalized File System Dependencies", SOSP 2007). Its id is its place in the graph, from 0 on, and a set
//! of patches is the number with bit p for each id p in it.
#![tactic(auto)]

mod copying;
pub mod fault;
pub mod graph;

pub use crash_model::patches::{MAX_PATCHES, Patch};
pub use fault::GraphFault;
pub use graph::{Graph, Lead, overlaps};
pub use patch_sets::write::BlockWrite;
