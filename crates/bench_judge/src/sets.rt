//! The sets that a crash can leave, one patch after another.

ghost use Rattle.std.specs.Prelude.{◌≡◌, ◌<◌, length, IfOk, OnOk};
ghost use Rattle.std.specs.List.{All};
ghost use Rattle.patch_sets.specs.Closed.{IsClosed};
ghost use Rattle.crash_model.specs.Patches.{deps_of};

use patch_graph::Graph;
use patch_sets::set::{is_subset, with};
use std::alloc::{AllocError, Global};

/// At most `limit` of the sets that a crash can leave: first those of the first patches.
pub fn closed_sets(
    alloc: Global,
    graph: &Graph<Global>,
    limit: usize,
) -> Result<Vec<u128>, AllocError>
    ensures { IfOk result (λ sets. All (IsClosed (deps_of graph.now)) sets.items) }
{
    let mut sets = vec![in alloc; 0]?;
    add_sets(&mut sets, graph, limit)?;
    Ok(sets)
}

/// Adds to the empty set the others, one patch after another.
fn add_sets(sets: &mut Vec<u128>, graph: &Graph<Global>, limit: usize) -> Result<(), AllocError>
    requires closed { All (IsClosed (deps_of graph.now)) sets.old.items }
    ensures { OnOk result (All (IsClosed (deps_of graph.now)) sets.new.items) }
{
    for id in 0..graph.len() {
        add_sets_with(sets, graph, id, limit)?;
    }
    Ok(())
}

/// Adds each set with one more patch, if the set has all dependencies of the patch.
fn add_sets_with(
    sets: &mut Vec<u128>,
    graph: &Graph<Global>,
    id: usize,
    limit: usize,
) -> Result<(), AllocError>
    requires known { id < length graph.now }
    requires room { id < 128 }
    requires closed { All (IsClosed (deps_of graph.now)) sets.old.items }
    ensures { OnOk result (All (IsClosed (deps_of graph.now)) sets.new.items) }
{
    let deps = graph.patch(id).deps;
    for i in 0..sets.len() {
        let set = sets[i];
        if sets.len() < limit && is_subset(deps, set) {
            sets.push(with(set, id))?;
        }
    }
    Ok(())
}
