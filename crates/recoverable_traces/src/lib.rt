//! Traces of scripts, with the promise of the full journal: from each crash, replay recovers the committed operations,
//! and nothing fails but a promise that is at risk.
//!
//! [`trace`] traces a whole script, and [`finish`] ends the trace of a workload. Both trace as `order_modules` does.
//! Their contracts add what `full_journal_laws` and `promise_laws` prove, so that the tracer does not depend on these
//! proofs.
#![tactic(auto)]

ghost use Rattle.std.specs.Prelude.{◌≡◌, ◌<◌, List, Bool, Ok, IfOk, All};
ghost use Rattle.crash_model.specs.Disk.{Disk, IsDisk};
ghost use Rattle.crash_model.specs.Sound.{IsSound, HasZeroJournal};
ghost use Rattle.crash_model.specs.Trace.{trace_from, IsGraphOf};
ghost use Rattle.crash_model.specs.Tracing.{Tracing, trace_start};
ghost use Rattle.crash_model.specs.declared.modules.Module.{Module as AModule};
ghost use Rattle.crash_model.specs.declared.rules.Rule.{Rule as ARule};
ghost use Rattle.crash_model.specs.declared.steps.Step.{Step as AStep};
ghost use Rattle.full_journal_laws.specs.Full.{GivesNames, IsFullSafe};
ghost use Rattle.order_modules.specs.Tracer.{RefusesAs};
ghost use Rattle.recoverable_traces.specs.FullJournal.{IsFullJournal, IsRecoverable, IsTraceOf, FailAtRiskAlone};

use crash_model::orderings::Ordering;
use crash_model::refusals::TraceFault;
use crash_model::steps::Step;
use disk_image::Image;
use order_modules::Tracer;
use std::alloc::Allocator;
use traced_patches::Traced;

/// The patches of the steps over a sound image whose journal is zero, or the first refused step, as
/// `order_modules::trace` says. It also fails when out of memory.
///
/// Under the full journal with all its rules, and with any others put in, replay recovers from every crash: outside the
/// journal, the image after replay is the base after the first k operations. Here k is the number of commit patches
/// that the crash left. No set fails if no promise of the steps is at risk.
pub fn trace<'a, A: Allocator + Copy>(
    alloc: A,
    base: &'a Image<A>,
    steps: &'a [Step],
    ordering: &'a Ordering,
) -> Result<Traced<'a, A>, TraceFault>
    requires sound { IsSound base.now × HasZeroJournal base.now }
    ensures ok { IfOk result (λ t. (s : Tracing)
        × (trace_from ordering.now.«module» (trace_start ordering.now.whole_blocks base.now) steps.now ≡ Ok s)
        × IsGraphOf ordering.now.rules.items base.now s t.patches × (t.emitted ≡ s.emitted) × (t.links ≡ s.links)
        × (t.whole ≡ s.whole) × (t.waits ≡ s.waits)) }
    ensures rules { IfOk result (λ t. t.rules ≡ ordering.now.rules.items) }
    ensures whole { IfOk result (λ t. t.whole ≡ ordering.now.whole_blocks) }
    ensures refused { RefusesAs result
        (trace_from ordering.now.«module» (trace_start ordering.now.whole_blocks base.now) steps.now) }
    ensures fits { IfOk result (λ t. All (λ patch. patch.block < base.now.blocks) t.patches) }
    ensures names { IfOk result (λ _. All GivesNames steps.now) }
    ensures recovers { IsFullJournal ordering.now.«module» ordering.now.rules.items
        → IfOk result (λ t. IsFullSafe ordering.now.whole_blocks base.now steps.now t.patches) }
    ensures safe { IsFullJournal ordering.now.«module» ordering.now.rules.items
        → IfOk result (λ t. FailAtRiskAlone base.now steps.now t.patches) }
{
    // For the proof: what holds of every image.
    let _blocks = base.blocks();
    order_modules::trace(alloc, base, steps, ordering)
}

/// The patches of a trace that has come to its end.
///
/// Under the full journal with all its rules, and with any others put in, replay recovers from every crash of each list
/// of steps that has this trace, and none fails if no promise of the steps is at risk, as [`trace`] says.
pub fn finish<'a, A: Allocator + Copy>(tracer: Tracer<'a, A>) -> Traced<'a, A>
    ensures graph { IsGraphOf tracer.entry.log.rules tracer.entry.log.base tracer.entry.tracing result.patches }
    ensures fits { All (λ patch. patch.block < tracer.entry.log.base.blocks) result.patches }
    ensures recovers { (ordering : AModule) → (rules : List ARule) → (whole : Bool) → (base : Disk)
        → (steps : List AStep) → IsTraceOf ordering rules whole base steps tracer.entry
        → IsRecoverable ordering rules base → IsFullSafe whole base steps result.patches }
    ensures safe { (ordering : AModule) → (rules : List ARule) → (whole : Bool) → (base : Disk)
        → (steps : List AStep) → IsTraceOf ordering rules whole base steps tracer.entry
        → IsRecoverable ordering rules base → FailAtRiskAlone base steps result.patches }
{
    tracer.into_traced()
}
