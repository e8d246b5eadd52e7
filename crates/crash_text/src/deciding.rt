//! A traced script, answered by a decision on each fault that a crash can leave.

ghost use Rattle.std.specs.Prelude.{◌≡◌, ◌≤◌, IfOk, string_bytes};
ghost use Rattle.report.specs.Makers.{AreOnBase};
ghost use Rattle.report.specs.Decisions.{IsDecision};
ghost use Rattle.crash_text.specs.Traced.{IsReportOn, NoneFails};

use crate::host::Host;
use crate::reporting::{explained_trace, graph_head, maker_of};
use crate::run::Outcome;
use crate::traced_script::TracedScript;
use fault_deciding::{Decider, closed_number};
use question_model::Request;
use report::{Decision, first_crashes, written};
use std::alloc::{AllocError, Allocator};
use std::thread::Threads;

/// Decides which faults a crash can leave of a traced script, and reports. It fails only when out of memory.
pub(crate) fn decided<R, A>(
    host: &Host<'_, R, A>,
    request: &Request,
    script: &TracedScript<'_, A>,
) -> Result<Outcome, AllocError>
where
    R: Threads + Sync,
    A: Allocator + Copy + Send + Sync,
    requires workers { 1 ≤ request.now.workers }
    requires on_base { AreOnBase script.now.base.now script.now.traced.patches }
    ensures reported { IfOk result (λ outcome.
        IsReportOn (IsDecision request.now.settings) request.now.settings script.now (string_bytes outcome.text)
        outcome.number) }
    ensures safe { NoneFails script.now → IfOk result (λ outcome. outcome.number ≡ 0) }
{
    let decider = Decider {
        alloc: host.alloc,
        base: script.base,
        graph: script.traced.graph(),
        demands: &script.demands,
    };
    let decided = decider.faults(host.rt, request.workers)?;
    let settings = &request.settings;
    let mut maker = maker_of(host, settings, script)?;
    let faults = first_crashes(host.heap, &mut maker, &decided)?;
    let closed = closed_number(script.traced.graph());
    let trace = explained_trace(host.heap, settings, script)?;
    let report = Decision {
        head: graph_head(settings, script, closed, &trace),
        faults: &faults,
    };
    Ok(Outcome {
        text: written(host.heap, &report, settings.json, settings.numbers)?,
        number: decided.len(),
    })
}
