//! How many sets a crash can leave.

ghost use Rattle.crash_model.specs.Patches.{CountsClosed};

use crate::dependencies::dependencies;
use patch_graph::Graph;
use set_families::ClosedSets;
use std::alloc::Allocator;

/// The number of sets of a graph that a crash can leave. It takes no memory.
pub fn closed_number<A: Allocator + Copy>(graph: &Graph<A>) -> u128
    ensures { CountsClosed graph.now result }
{
    let deps = dependencies(graph);
    ClosedSets::of(&deps).count()
}
