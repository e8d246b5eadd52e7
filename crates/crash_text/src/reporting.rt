//! What the reports on a traced script are made of.

ghost use Rattle.std.specs.Prelude.{◌≡◌, List, IfOk};
ghost use Rattle.crash_model.specs.Reasons.{explained_patches};
ghost use Rattle.crash_model.specs.Tracing.{Tracing};
ghost use Rattle.report.specs.Makers.{AreOnBase};
ghost use Rattle.report.specs.OnGraphs.{detail_of, explained, head_on};
ghost use Rattle.report.specs.Structs.{head_of};
ghost use Rattle.crash_text.specs.Traced.{IsTraceOf, trace_of};

use crate::host::Host;
use crate::traced_script::TracedScript;
use crash_model::settings::Settings;
use report::{CrashMaker, Detail, ExplainedPatch, Head, explained_patches};
use std::alloc::{AllocError, Allocator, Global};

/// What makes the crashes that are shown of a traced script. It fails only when out of memory.
pub(crate) fn maker_of<'a, R, A: Allocator + Copy>(
    host: &Host<'_, R, A>,
    settings: &Settings,
    script: &'a TracedScript<'_, A>,
) -> Result<CrashMaker<'a, A>, AllocError>
    requires { AreOnBase script.now.base.now script.now.traced.patches }
    ensures { IfOk result (λ maker. maker ≡ record {
      base = script.now.base.now;
      patches = script.now.traced.patches;
      detail = detail_of settings.now script.now.demands;
    }) }
{
    let detail = Detail {
        explain: settings.explain,
        demands: &script.demands,
    };
    CrashMaker::new(
        host.heap,
        host.alloc,
        script.base,
        script.traced.graph(),
        detail,
    )
}

/// What each patch of a traced script is, if patches are explained. It fails only when out of memory.
pub(crate) fn explained_trace<'a, 'steps, A: Allocator + Copy>(
    heap: Global,
    settings: &Settings,
    script: &'a TracedScript<'steps, A>,
) -> Result<Vec<ExplainedPatch<'a, 'steps>>, AllocError>
    ensures { IfOk result (λ trace. trace.items ≡ explained settings.now.explain (trace_of script.now.traced)) }
{
    if settings.explain {
        explained_patches(heap, &script.traced)
    } else {
        Ok(Vec::new(heap))
    }
}

/// What a report says of the graph of a traced script, which has this number of closed sets. `trace` has what each
/// patch is, if patches are explained.
pub(crate) fn graph_head<'a, 'steps, A: Allocator + Copy>(
    settings: &'a Settings,
    script: &'a TracedScript<'steps, A>,
    closed: u128,
    trace: &'a [ExplainedPatch<'a, 'steps>],
) -> Head<'a, 'steps, A>
    requires { trace.now ≡ explained settings.now.explain (trace_of script.now.traced) }
    ensures { (last : Tracing) → IsTraceOf settings.now script.now.base.now script.now.traced last
        → head_of result ≡ head_on settings.now script.now.demands script.now.base.now last script.now.traced.patches
        closed }
{
    let explain = settings.explain;
    Head {
        settings,
        patches: script.traced.len(),
        closed,
        base: script.base,
        trace,
        waits: explained(explain, script.traced.waits()),
        promises: explained(explain, script.demands.promises()),
        promising: explain && script.demands.has_promises(),
    }
}

/// The items, if they are explained.
fn explained<T>(explain: bool, items: &[T]) -> &[T]
    ensures { result.now ≡ explained explain items.now }
{
    if explain { items } else { &[] }
}
