//! A script's patches, before a question on them is answered.

ghost use Rattle.std.specs.Prelude.{◌≡◌, ◌≢◌, [], IfOk, IfErr};
ghost use Rattle.crash_model.specs.Sound.{IsSound, HasZeroJournal};
ghost use Rattle.crash_model.specs.declared.modules.Module.TheVariants.{Full};
ghost use Rattle.promise_laws.specs.Waited.{RiskNoPromise};
ghost use Rattle.question_model.specs.ScriptGraph.{asked_by};
ghost use Rattle.report.specs.Makers.{AreOnBase};
ghost use Rattle.crash_text.specs.Traced.{asks_of, IsOrderingOf, IsTraced, IsTraceRefusal, NoneFails};
ghost use Rattle.crash_text.specs.Traced.{BreakAtRiskAlone};

use crash_model::orderings::Ordering;
use crash_model::refusals::RunFault;
use crash_model::settings::{Asked, Settings};
use crash_model::steps::Step;
use disk_image::{Demands, Image};
use kept_promises::demands_under;
use recoverable_traces::trace;
use std::alloc::Allocator;
use traced_patches::Traced;

/// The patches that were traced over a base, and what the script demands of the images that a crash leaves.
#[derive(Drop)]
pub(crate) struct TracedScript<'steps, A: Allocator + Copy> {
    pub base: &'steps Image<A>,
    pub traced: Traced<'steps, A>,
    pub demands: Demands<A>,
}

/// Traces the steps over the base, under the ordering that the settings ask for.
///
/// Under the full journal with no rule taken out no set that a crash can leave fails, if no promise is at risk. If one
/// is, nothing else is broken.
pub(crate) fn trace_script<'steps, A: Allocator + Copy>(
    alloc: A,
    base: &'steps Image<A>,
    steps: &'steps [Step],
    settings: &Settings,
    ordering: &'steps Ordering,
) -> Result<TracedScript<'steps, A>, RunFault>
    requires ordering { IsOrderingOf settings.now ordering.now }
    requires sound { IsSound base.now × HasZeroJournal base.now }
    ensures traced { IfOk result (IsTraced settings.now base.now steps.now) }
    ensures on_base { IfOk result (λ script. AreOnBase script.base.now script.traced.patches) }
    ensures refused { IfErr result (λ fault. (fault ≢ RunFault.OutOfMemory)
        → IsTraceRefusal settings.now base.now steps.now fault) }
    ensures full { settings.now.module ≡ Full → settings.now.without.items ≡ []
        → RiskNoPromise (asked_by settings.now steps.now) steps.now → IfOk result NoneFails }
    ensures at_risk { settings.now.module ≡ Full → settings.now.without.items ≡ []
        → IfOk result (λ _. BreakAtRiskAlone settings.now base.now steps.now) }
{
    // For the proof: what holds of every image.
    let _blocks = base.blocks();
    let traced = trace(alloc, base, steps, ordering)?;
    let demands = demands_under(alloc, base, steps, ordering, asked_of(settings))?;
    Ok(TracedScript {
        base,
        traced,
        demands,
    })
}

/// What the settings ask of the checker.
pub(crate) fn asked_of(settings: &Settings) -> Asked
    ensures { result ≡ asks_of settings.now }
{
    Asked {
        strict: settings.strict,
        atomic: settings.atomic,
        durable: settings.durable,
        counted: settings.counted,
    }
}
