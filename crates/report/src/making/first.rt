//! The first crash of a graph.

ghost use Rattle.std.specs.Prelude.{◌≡◌, ℕ, None, IfOk};
ghost use Rattle.patch_sets.specs.Closed.{AreEarlier};
ghost use Rattle.crash_model.specs.Checker.{IsFailingUnder};
ghost use Rattle.crash_model.specs.Patches.{deps_of};
ghost use Rattle.report.specs.Makers.{AreOnBase};
ghost use Rattle.report.specs.FirstCrashes.{IsFirstIfAny};

use crate::crash::FirstCrash;
use crate::making::detail::Detail;
use crate::making::maker::CrashMaker;
use disk_image::Image;
use fault_deciding::Decider;
use patch_graph::Graph;
use std::alloc::{AllocError, Allocator, Global};

/// The first fault that a crash can leave of a graph, with the first crash that leaves it, or `None` if a crash leaves
/// no fault. It fails only when out of memory.
pub fn first_crash<A: Allocator + Copy>(
    heap: Global,
    alloc: A,
    base: &Image<A>,
    graph: &Graph<A>,
    detail: Detail<'_, A>,
) -> Result<Option<FirstCrash>, AllocError>
    requires on_base { AreOnBase base.now graph.now }
    ensures first { IfOk result (λ first. AreEarlier (deps_of graph.now)
        → IsFirstIfAny detail.entry base.now graph.now first) }
    ensures safe { ((set : ℕ) → ¬ (IsFailingUnder detail.entry.demands base.now graph.now set))
        → IfOk result (λ first. first ≡ None) }
{
    let decider = Decider {
        alloc,
        base,
        graph,
        demands: detail.demands,
    };
    let Some(decided) = decider.first_fault()? else {
        return Ok(None);
    };
    let mut maker = CrashMaker::new(heap, alloc, base, graph, detail)?;
    let first = maker.first(decided)?;
    Ok(Some(first))
}
