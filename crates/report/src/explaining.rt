//! What the patches of a trace are.

ghost use Rattle.std.specs.Prelude.{◌≡◌, ◌<◌, length, IfOk, Some, slice_get};
ghost use Rattle.crash_model.specs.Lists.{some_below};
ghost use Rattle.crash_model.specs.Reasons.{explained_patches};
ghost use Rattle.crash_model.specs.Trace.{Emitted};
ghost use Rattle.traced_patches.specs.Traced.{explained_at, dependency_at};

use crate::explained::{Dependency, ExplainedPatch};
use std::alloc::{AllocError, Allocator, Global};
use traced_patches::Traced;

/// What each patch of a trace is, and which earlier ones it depends on and why. It fails only when out of memory.
pub fn explained_patches<'found, 'steps, A: Allocator + Copy>(
    heap: Global,
    traced: &'found Traced<'steps, A>,
) -> Result<Vec<ExplainedPatch<'found, 'steps>>, AllocError>
    ensures { IfOk result (λ patches. patches.items
        ≡ explained_patches traced.now.rules traced.now.whole traced.now.links traced.now.emitted traced.now.patches) }
{
    let mut patches = Vec::with_capacity(heap, traced.len())?;
    for id in 0..traced.len() {
        patches.push(explained_patch(heap, traced, id)?)?;
    }
    Ok(patches)
}

/// What a patch is, and which earlier ones it depends on and why.
fn explained_patch<'found, 'steps, A: Allocator + Copy>(
    heap: Global,
    traced: &'found Traced<'steps, A>,
    id: usize,
) -> Result<ExplainedPatch<'found, 'steps>, AllocError>
    requires patch { id < length traced.now.patches }
    requires emitted { length traced.now.emitted ≡ length traced.now.patches }
    ensures { IfOk result (λ patch. explained_at traced.now id ≡ Some patch) }
{
    Ok(ExplainedPatch {
        id,
        label: traced.label(id),
        patch: traced.graph().patch(id),
        after: dependencies(heap, traced, id)?,
    })
}

/// The earlier patches that a patch depends on, ascending, and why.
fn dependencies<A: Allocator + Copy>(
    heap: Global,
    traced: &Traced<'_, A>,
    later: usize,
) -> Result<Vec<Dependency>, AllocError>
    requires patch { later < length traced.now.patches }
    requires emitted { length traced.now.emitted ≡ length traced.now.patches }
    ensures { IfOk result (λ after. (q : Emitted) → slice_get traced.now.emitted later ≡ Some q
        → after.items ≡ some_below later (dependency_at traced.now q)) }
{
    let mut after = Vec::new(heap);
    for earlier in 0..later {
        if let Some(one) = dependency(traced, later, earlier) {
            after.push(one)?;
        }
    }
    Ok(after)
}

/// Why a patch depends on an earlier one, if it does.
fn dependency<A: Allocator + Copy>(
    traced: &Traced<'_, A>,
    later: usize,
    earlier: usize,
) -> Option<Dependency>
    requires later { later < length traced.now.patches }
    requires earlier { earlier < length traced.now.patches }
    requires emitted { earlier < length traced.now.emitted }
    ensures { (q : Emitted) → slice_get traced.now.emitted later ≡ Some q
        → result ≡ dependency_at traced.now q earlier }
{
    let reasons = traced.reasons(later, earlier).list();
    if reasons.is_empty() {
        return None;
    }
    Some(Dependency {
        id: earlier,
        reasons,
    })
}
