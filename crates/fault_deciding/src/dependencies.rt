//! What the patches of a graph depend on, side by side.

ghost use Rattle.std.specs.Prelude.{◌≡◌, ◌<◌, length};
ghost use Rattle.patch_sets.specs.Closed.{AreEarlier};
ghost use Rattle.crash_model.specs.Patches.{deps_of};

use arrayvec::ArrayVec;
use patch_graph::{Graph, MAX_PATCHES};
use std::alloc::Allocator;

/// For each id of a graph the ids that it depends on. It takes no memory.
pub fn dependencies<A: Allocator + Copy>(graph: &Graph<A>) -> ArrayVec<u128, MAX_PATCHES>
    ensures exact { result.items ≡ deps_of graph.now }
    ensures few { length result.items < 125 }
    ensures earlier { AreEarlier result.items }
{
    let mut deps = ArrayVec::new();
    for id in 0..graph.len() {
        deps.push(graph.patch(id).deps);
    }
    deps
}
