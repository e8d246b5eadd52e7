//! Beginnings of sequences, traced and planned once for all steps that follow them.

ghost use Rattle.std.specs.Prelude.{◌≡◌, ◌<◌, ◌^◌, ◌++◌, ◌∷◌, [], List, length, Ok, IfOk};
ghost use Rattle.std.specs.List.{All};
ghost use Rattle.crash_model.specs.Trace.{step as step_of};
ghost use Rattle.crash_model.specs.Tracing.{Tracing};
ghost use Rattle.crash_model.specs.declared.steps.Step.{Step as AStep};
ghost use Rattle.order_modules.specs.Tracer.{Moves};
ghost use Rattle.question_model.specs.Verdict.{IsAccepted};
ghost use Rattle.question_model.specs.Workloads.{Search};
ghost use Rattle.pool_judging.specs.Beginnings.{IsPrefixBy, IsPrefixAt};
ghost use Rattle.pool_judging.specs.Judging.{search_by};

use crate::judge::PoolJudge;
use crash_model::steps::Step;
use inode_fs::Demanding;
use kept_promises::{Promising, place_of, take};
use order_modules::Tracer;
use question_model::Places;
use std::alloc::{AllocError, Allocator};

/// A beginning of sequences: the trace of its steps, what they demand of an image that they leave, and what they
/// promise.
#[derive(Drop)]
pub struct TracedPrefix<'a, A: Allocator + Copy> {
    pub(crate) tracer: Tracer<'a, A>,
    pub(crate) demanding: Demanding<A>,
    pub(crate) promising: Promising<A>,
}

impl<'a, A: Allocator + Copy> TracedPrefix<'a, A> {
    /// The beginning with a step more, which is not refused. It fails only when out of memory.
    fn longer(self, step: &'a Step) -> Result<TracedPrefix<'a, A>, AllocError>
        requires few { self.tracer.tracing.op_number < 2 ^ 63 }
        requires accepted { (next : Tracing)
            × (step_of self.tracer.log.kind self.tracer.tracing step.now.line step.now.act ≡ Ok next) }
        ensures prefix { IfOk result (λ longer. (s : Search) (steps : List AStep) → IsPrefixBy s steps self.entry
            → IsPrefixBy s (steps ++ step.now ∷ []) longer) }
        ensures moves { IfOk result (λ longer. Moves self.entry.tracer longer.tracer
            (step_of self.entry.tracer.log.kind self.entry.tracer.tracing step.now.line step.now.act)) }
    {
        let (mut tracer, mut demanding) = (self.tracer, self.demanding);
        let known = tracer.graph().len();
        take(&mut tracer, step)?;
        demanding.step(step)?;
        let promising = self.promising.step(step, known, &place_of(&tracer))?;
        Ok(TracedPrefix {
            tracer,
            demanding,
            promising,
        })
    }
}

impl<'a, A: Allocator + Copy> PoolJudge<'a, A> {
    /// Traces the steps at these places of the pool, behind the promises that each workload begins with. None of them
    /// is refused. It fails only when out of memory.
    pub fn prefix(&self, places: &Places) -> Result<TracedPrefix<'a, A>, AllocError>
        requires short { length places.now.items < 8 }
        requires among { All (λ place. place < length self.now.pool.now) places.now.items }
        requires accepted { IsAccepted (search_by self.now) places.now.items }
        ensures { IfOk result (IsPrefixAt (search_by self.now) places.now.items) }
    {
        let mut prefix = self.prefix_with_keeps()?;
        for place in places.as_slice() {
            prefix = prefix.longer(&self.pool[*place])?;
        }
        Ok(prefix)
    }

    /// The beginning that has only the promises that each workload begins with. It fails only when out of memory.
    fn prefix_with_keeps(&self) -> Result<TracedPrefix<'a, A>, AllocError>
        ensures { IfOk result (IsPrefixAt (search_by self.now) []) }
    {
        let (strict, atomic) = (self.asked.strict, self.asked.atomic);
        let mut prefix = TracedPrefix {
            tracer: Tracer::new(self.alloc, self.base, self.ordering)?,
            demanding: Demanding::new(self.alloc, self.base, strict, atomic)?,
            promising: Promising::new(self.alloc, self.asked.durable),
        };
        for step in self.keeps {
            prefix = prefix.longer(step)?;
        }
        Ok(prefix)
    }
}
