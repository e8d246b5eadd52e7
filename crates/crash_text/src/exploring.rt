//! A traced script, answered by exploring each set that a crash can leave.

ghost use Rattle.std.specs.Prelude.{◌≡◌, ◌≤◌, IfOk, IfErr, string_bytes};
ghost use Rattle.patch_sets.specs.Sets.{AreAllInOrder};
ghost use Rattle.crash_model.specs.Checker.{IsFailingUnder};
ghost use Rattle.crash_model.specs.Patches.{CountsClosed};
ghost use Rattle.state_space.specs.declared.limits.TheConstants.{MAX_BOARD};
ghost use Rattle.report.specs.Makers.{AreOnBase};
ghost use Rattle.report.specs.OnGraphs.{IsReport};
ghost use Rattle.crash_text.specs.Exploring.{SaysTooMany};
ghost use Rattle.crash_text.specs.Traced.{IsReportOn, NoneFails};

use crate::host::Host;
use crate::reporting::{explained_trace, graph_head, maker_of};
use crate::run::Outcome;
use crate::traced_script::TracedScript;
use crash_image::{PatchSpace, exploring_finds_the_failing_sets};
use crash_model::refusals::RunFault;
use explorers::{Explored, Gate, explore, prime_at_least};
use fault_deciding::closed_number;
use question_model::{Request, SetLimit};
use report::{FailingSets, sections, written};
use std::alloc::Allocator;
use std::sync::Wait;
use std::thread::Threads;
use thread_jobs::Workers;

/// Explores what a crash can leave of a traced script, and reports the sets that fail.
pub(crate) fn explored<R, A, G>(
    host: &Host<'_, R, A>,
    request: &Request,
    limit: SetLimit,
    gate: &G,
    script: &TracedScript<'_, A>,
) -> Result<Outcome, RunFault>
where
    R: Threads + Wait + Sync,
    A: Allocator + Copy + Send + Sync,
    G: Gate + Sync,
    requires workers { (1 ≤ request.now.workers) × (request.now.workers ≤ 16) }
    requires on_base { AreOnBase script.now.base.now script.now.traced.patches }
    ensures reported { IfOk result (λ outcome.
        IsReportOn (IsReport request.now.settings limit) request.now.settings script.now
        (string_bytes outcome.text) outcome.number) }
    ensures too_many { IfErr result (SaysTooMany script.now.traced.patches limit) }
    ensures safe { NoneFails script.now → IfOk result (λ outcome. outcome.number ≡ 0) }
{
    let workers = Workers {
        rt: host.rt,
        alloc: host.alloc,
        number: request.workers,
        gate,
    };
    let found = failing_sets(&workers, limit.sets(), script)?;
    let settings = &request.settings;
    let mut maker = maker_of(host, settings, script)?;
    let sections = sections(host.heap, &mut maker, &found.broken)?;
    let trace = explained_trace(host.heap, settings, script)?;
    let report = FailingSets {
        head: graph_head(settings, script, found.total as u128, &trace),
        sections: &sections,
    };
    Ok(Outcome {
        text: written(host.heap, &report, settings.json, settings.numbers)?,
        number: found.broken.len(),
    })
}

/// How many sets a crash can leave of a traced script, and which of them fail, in canonical order.
///
/// The sets are counted first, and the board is made for the smallest prime that is at least their number, or else for
/// the limit. A word's place in the board's index is a remainder, which spreads best by a prime.
///
/// # Errors
///
/// A crash can leave more sets than the limit, or memory is out.
fn failing_sets<R, A, G>(
    workers: &Workers<'_, R, A, G>,
    limit: usize,
    script: &TracedScript<'_, A>,
) -> Result<Explored<A>, RunFault>
where
    R: Threads + Wait + Sync,
    A: Allocator + Copy + Send + Sync,
    G: Gate + Sync,
    requires limit { (1 ≤ limit) × (limit ≤ MAX_BOARD) }
    requires on_base { AreOnBase script.now.base.now script.now.traced.patches }
    ensures total { IfOk result (λ found. CountsClosed script.now.traced.patches found.total) }
    ensures within { IfOk result (λ found. found.total ≤ limit) }
    ensures failing { IfOk result (λ found. AreAllInOrder
        (IsFailingUnder script.now.demands script.now.base.now script.now.traced.patches) found.broken.items) }
    ensures too_many { IfErr result (SaysTooMany script.now.traced.patches limit) }
{
    let graph = script.traced.graph();
    let space = PatchSpace::new(script.base, graph, &script.demands);
    exploring_finds_the_failing_sets(&space);
    let number = closed_number(graph);
    if number > limit as u128 {
        return Err(RunFault::TooMany);
    }
    let sets = number as usize;
    workers.gate.expects(sets);
    let room = prime_at_least(sets, limit);
    let exploring = explore(
        workers.rt,
        workers.alloc,
        &space,
        room,
        workers.number,
        workers.gate,
    );
    let found = exploring.found?;
    workers.gate.visited(found.total, found.broken.len());
    Ok(found)
}
