//! A traced script, answered by which of its lines that wait are enough.

ghost use Rattle.std.specs.Prelude.{◌≡◌, ◌≤◌, length, string_bytes, IfOk, IfErr};
ghost use Rattle.crash_model.specs.ChosenWaits.{up_to_wait, waits};
ghost use Rattle.question_model.specs.declared.question.TheConstants.{MAX_SYNCS};
ghost use Rattle.report.specs.Makers.{AreOnBase};
ghost use Rattle.report.specs.OnChoices.{IsLinesReport};
ghost use Rattle.crash_text.specs.Lines.{HasTooManyWaits};
ghost use Rattle.crash_text.specs.Traced.{IsReportOn, NoneFails};

use crate::enough::{Chosen, report_chosen};
use crate::host::Host;
use crate::run::Outcome;
use crate::traced_script::TracedScript;
use crash_model::refusals::RunFault;
use crash_model::settings::Settings;
use crash_model::steps::{Act, Step};
use enough_deciding::LineOracle;
use question_model::MAX_SYNCS;
use report::{needs_of_lines, sets_of_lines};
use std::alloc::{AllocError, Allocator};

/// Finds which lines of a traced script have to wait, and reports. It fails only when out of memory.
pub(crate) fn enough_lines<'a, R, A: Allocator + Copy>(
    host: &Host<'_, R, A>,
    settings: &'a Settings,
    script: &'a TracedScript<'_, A>,
) -> Result<Outcome, AllocError>
    requires on_base { AreOnBase script.now.base.now script.now.traced.patches }
    requires few { length script.now.traced.waits ≤ MAX_SYNCS }
    ensures reported { IfOk result (λ outcome.
        IsReportOn (IsLinesReport settings.now) settings.now script.now (string_bytes outcome.text)
        outcome.number) }
    ensures safe { NoneFails script.now → IfOk result (λ outcome. outcome.number ≡ 0) }
{
    let oracle = LineOracle {
        alloc: host.alloc,
        base: script.base,
        traced: &script.traced,
        demands: &script.demands,
    };
    let found = oracle.enough_sets()?;
    let needs = needs_of_lines(host.heap, &oracle, settings.explain, &found.needed)?;
    let enough = sets_of_lines(host.heap, script.traced.waits(), &found.enough)?;
    let outcome = report_chosen(host, settings, script, Chosen { enough, needs })?;
    Ok(outcome)
}

/// The steps up to and with the first line that waits past the limit, or all steps.
pub(crate) fn up_to_limit(steps: &[Step]) -> &[Step]
    ensures { result.now ≡ up_to_wait MAX_SYNCS steps.now }
{
    let mut waiting = 0;
    for (at, step) in steps.iter().enumerate() {
        if waits(&step.act) {
            if waiting == MAX_SYNCS {
                return &steps[..=at];
            }
            waiting += 1;
        }
    }
    steps
}

/// Whether an act waits.
fn waits(act: &Act) -> bool
    ensures { result ≡ waits act.now }
{
    matches!(act, Act::Sync | Act::Fsync(_))
}

/// Refuses a trace with more lines that wait than can be asked about, at the first that is too many.
pub(crate) fn check_waits<A: Allocator + Copy>(script: &TracedScript<'_, A>) -> Result<(), RunFault>
    ensures few { IfOk result (λ _. length script.now.traced.waits ≤ MAX_SYNCS) }
    ensures refused { IfErr result (λ fault. HasTooManyWaits script.now.traced.waits fault) }
{
    match script.traced.waits().get(MAX_SYNCS) {
        Some(wait) => Err(RunFault::TooManySyncs {
            line: wait.step.line,
        }),
        None => Ok(()),
    }
}
