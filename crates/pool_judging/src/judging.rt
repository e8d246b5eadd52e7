//! How sequences of steps of a pool are judged.

ghost use Rattle.std.specs.Prelude.{◌≡◌, ◌≢◌, ◌<◌, ◌++◌, ◌∷◌, ℕ, [], Err, IfOk, None, List, length};
ghost use Rattle.std.specs.List.{All, list_any};
ghost use Rattle.crash_model.specs.Checker.{AreDemands};
ghost use Rattle.crash_model.specs.PromiseLines.{has_promises};
ghost use Rattle.crash_model.specs.Promises.{promises_of};
ghost use Rattle.crash_model.specs.Trace.{step as step_of};
ghost use Rattle.crash_model.specs.declared.steps.Step.{Step as AStep};
ghost use Rattle.order_modules.specs.Tracer.{Moves};
ghost use Rattle.question_model.specs.Verdict.{IsVerdict};
ghost use Rattle.crash_model.specs.Refused.{refusal_of};
ghost use Rattle.question_model.specs.Workloads.{Search, workload_at, trace_at};
ghost use Rattle.pool_judging.specs.Beginnings.{IsPrefixAt, IsPrefixBy, IsTraceAt, AreDemandsAt};
ghost use Rattle.pool_judging.specs.Judging.{search_by, IsVerdictOn, IsNoFailure, IsFullJournal};
ghost use Rattle.pool_judging.specs.Keeps.{keeps_accepted};
ghost use Rattle.pool_judging.specs.Pools.{is_waiting};
ghost use Rattle.pool_judging.specs.Traces.{IsTraced};

use crate::copying::step_copy;
use crate::firsts::firsts;
use crate::judge::PoolJudge;
use crate::prefix::TracedPrefix;
use crash_model::refusal::Refusal;
use crash_model::refusals::TraceFault;
use crash_model::steps::{Act, Step};
use disk_image::{Demands, Promise};
use fault_deciding::Decider;
use inode_fs::demands;
use kept_promises::{place_of, promises};
use order_modules::Tracer;
use patch_graph::Graph;
use question_model::{Places, Verdict};
use recoverable_traces::finish;
use std::alloc::{AllocError, Allocator};
use workload_search::Judge;

impl<'a, A: Allocator + Copy> PoolJudge<'a, A> {
    /// The steps at these places of the pool, behind the promises that each workload begins with. It fails only when
    /// out of memory.
    pub fn workload_at(&self, places: &Places) -> Result<Vec<Step, A>, AllocError>
        requires { All (λ place. place < length self.now.pool.now) places.now.items }
        ensures { IfOk result (λ steps. steps.items ≡ workload_at (search_by self.now) places.now.items) }
    {
        let mut steps = self.copied_keeps()?;
        for place in places.as_slice() {
            steps.push(step_copy(&self.pool[*place]))?;
        }
        Ok(steps)
    }

    /// The promises that each workload begins with. It fails only when out of memory.
    fn copied_keeps(&self) -> Result<Vec<Step, A>, AllocError>
        ensures { IfOk result (λ steps. steps.items ≡ self.now.keeps.now) }
    {
        let mut steps = Vec::new(self.alloc);
        for step in self.keeps {
            steps.push(step_copy(step))?;
        }
        Ok(steps)
    }

    /// What steps of the pool, of which none is refused, demand of the sets that a crash leaves of them. It fails only
    /// when out of memory.
    pub fn demands(&self, steps: &[Step]) -> Result<Demands<A>, AllocError>
        requires { ∥ IsTraced (search_by self.now) steps.now ∥₁ }
        ensures { IfOk result (AreDemands (search_by self.now).asked self.now.base.now steps.now) }
    {
        let (strict, atomic) = (self.asked.strict, self.asked.atomic);
        let of_images = demands(self.alloc, self.base, steps, strict, atomic)?;
        let counted = of_images.counting(self.asked.counted);
        if !self.waits_or_promises() {
            return Ok(counted);
        }
        let durable = self.asked.durable;
        let promises = promises(self.alloc, self.base, steps, self.ordering, durable)?;
        Ok(counted.with_promises(promises))
    }

    /// Whether the pool has a step that waits, or a promise.
    fn waits_or_promises(&self) -> bool
        ensures { result ≡ has_promises (self.now.keeps.now ++ self.now.pool.now) }
    {
        !self.keeps.is_empty() || has_waiting(self.pool)
    }

    /// The verdict on the steps of a beginning, followed by the one at this place of the pool. It fails only when out
    /// of memory.
    ///
    /// Under the full journal with all its rules, and with any others put in, none fails.
    pub fn verdict_on(
        &self,
        prefix: &TracedPrefix<'a, A>,
        place: usize,
    ) -> Result<Verdict, AllocError>
        requires prefix { (front : List ℕ) × IsPrefixAt (search_by self.now) front prefix.now }
        requires among { place < length self.now.pool.now }
        ensures verdict { (front : List ℕ) → IsPrefixAt (search_by self.now) front prefix.now
            → IfOk result (IsVerdict (search_by self.now) (front ++ place ∷ [])) }
        ensures full { IsFullJournal (search_by self.now) → IfOk result IsNoFailure }
    {
        let step = &self.pool[place];
        match prefix.tracer.with_step(step) {
            Ok(longer) => {
                let demands = self.demands_longer(prefix, step, &longer)?;
                self.judge_trace(longer, &demands)
            }
            Err(fault) => refused(fault),
        }
    }

    /// What the steps of a beginning demand with one more step, which leads to this trace. It fails only when out of
    /// memory.
    fn demands_longer(
        &self,
        prefix: &TracedPrefix<'a, A>,
        step: &Step,
        longer: &Tracer<'a, A>,
    ) -> Result<Demands<A>, AllocError>
        ensures { IfOk result (λ demands. (steps : List AStep) → IsPrefixBy (search_by self.now) steps prefix.now
            → Moves prefix.now.tracer longer.now
            (step_of prefix.now.tracer.log.kind prefix.now.tracer.tracing step.now.line step.now.act)
            → AreDemands (search_by self.now).asked self.now.base.now (steps ++ step.now ∷ []) demands) }
    {
        let of_images = prefix.demanding.with_step(step)?.into_demands();
        let counted = of_images.counting(self.asked.counted);
        if !self.waits_or_promises() {
            return Ok(counted);
        }
        let promises = promises_longer(prefix, step, longer)?;
        Ok(counted.with_promises(promises))
    }

    /// The verdict on the steps that have this trace, by what they demand. It fails only when out of memory.
    fn judge_trace(
        &self,
        tracer: Tracer<'a, A>,
        demands: &Demands<A>,
    ) -> Result<Verdict, AllocError>
        requires { (places : List ℕ) × IsTraceAt (search_by self.now) places tracer
            × AreDemandsAt (search_by self.now) places demands.now }
        ensures verdict { (places : List ℕ) → IsTraceAt (search_by self.now) places tracer.entry
            → AreDemandsAt (search_by self.now) places demands.now
            → IfOk result (IsVerdict (search_by self.now) places) }
        ensures full { IsFullJournal (search_by self.now) → IfOk result IsNoFailure }
    {
        // For the proof: what holds of every image.
        let _blocks = self.base.blocks();
        let traced = finish(tracer);
        self.judge_graph(traced.graph(), demands)
    }

    /// The verdict on the steps with these patches, none of which is refused, by what is demanded of them. It fails
    /// only when out of memory.
    fn judge_graph(&self, graph: &Graph<A>, demands: &Demands<A>) -> Result<Verdict, AllocError>
        requires { All (λ patch. patch.block < self.now.base.now.blocks) graph.now }
        ensures { IfOk result (IsVerdictOn demands.now self.now.base.now graph.now) }
    {
        let decider = Decider {
            alloc: self.alloc,
            base: self.base,
            graph,
            demands,
        };
        let faults = decider.faults_alone()?;
        if faults.is_empty() {
            return Ok(Verdict::Passes);
        }
        Ok(Verdict::Fails(firsts(&faults)))
    }
}

impl<'a, A: Allocator + Copy> Judge for PoolJudge<'a, A> {
    type Prefix = TracedPrefix<'a, A>;

    ghost search = { λ j. search_by j };

    ghost is_prefix = { λ j front prefix. IsPrefixAt (search_by j) front prefix };

    ghost begins = { λ j. keeps_accepted (search_by j) j.promises };

    fn begin(&self, places: &Places) -> Result<TracedPrefix<'a, A>, AllocError> {
        self.prefix(places)
    }

    fn judge_longer(
        &self,
        prefix: &TracedPrefix<'a, A>,
        place: usize,
    ) -> Result<Verdict, AllocError> {
        self.verdict_on(prefix, place)
    }
}

/// What the steps of a beginning promise with one more step, which leads to this trace. It fails only when out of
/// memory.
fn promises_longer<'a, A: Allocator + Copy>(
    prefix: &TracedPrefix<'a, A>,
    step: &Step,
    longer: &Tracer<'a, A>,
) -> Result<Vec<Promise<A>, A>, AllocError>
    ensures { IfOk result (λ promises. (s : Search) (steps : List AStep) → IsPrefixBy s steps prefix.now
        → Moves prefix.now.tracer longer.now
        (step_of prefix.now.tracer.log.kind prefix.now.tracer.tracing step.now.line step.now.act)
        → promises.items ≡ promises_of s.ordering s.asked.durable s.base (steps ++ step.now ∷ [])) }
{
    let known = prefix.tracer.graph().len();
    let last = place_of(longer);
    let promising = prefix.promising.try_copy()?.step(step, known, &last)?;
    promising.into_promises(&last)
}

/// The verdict on operations of which one is refused for this fault. It fails only when the fault is that memory ran
/// out, which refuses no operation.
fn refused(fault: TraceFault) -> Result<Verdict, AllocError>
    requires { fault ≢ TraceFault.OutOfMemory → refusal_of fault ≢ None }
    ensures verdict { (s : Search) (places : List ℕ) → (fault ≢ TraceFault.OutOfMemory → trace_at s places ≡ Err fault)
        → IfOk result (IsVerdict s places) }
    ensures full { IfOk result IsNoFailure }
{
    match fault {
        TraceFault::OutOfMemory => Err(AllocError),
        _ => match Refusal::of(fault) {
            Some(reason) => Ok(Verdict::Refused(reason)),
            None => unreachable!(),
        },
    }
}

/// Whether one of the steps of a pool waits.
fn has_waiting(pool: &[Step]) -> bool
    ensures { result ≡ list_any (λ step. is_waiting step.act) pool.now }
{
    pool.iter()
        .any(|step| matches!(step.act, Act::Sync | Act::Fsync(_)))
}
