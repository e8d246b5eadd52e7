//! What a script demands, with its promises.

ghost use Rattle.std.specs.Prelude.{◌≡◌, ◌<◌, ◌^◌, Ok, IfOk, OnOk};
ghost use Rattle.crash_model.specs.Checker.{AreDemands};
ghost use Rattle.crash_model.specs.PromiseLines.{has_promises, waits_or_promises};
ghost use Rattle.crash_model.specs.Promises.{promises_of};
ghost use Rattle.crash_model.specs.Trace.{step as step_of};
ghost use Rattle.crash_model.specs.Tracing.{Tracing};
ghost use Rattle.order_modules.specs.Tracer.{GivesNameIfAny, Moves};
ghost use Rattle.kept_promises.specs.Asking.{asked_of, AreAccepted};
ghost use Rattle.kept_promises.specs.Watched.{IsPlaceOf};

use crate::place::Place;
use crate::promising::Promising;
use crash_model::orderings::Ordering;
use crash_model::refusals::TraceFault;
use crash_model::settings::Asked;
use crash_model::steps::{Act, Step};
use disk_image::{Demands, Image, Promise};
use inode_fs::demands;
use order_modules::Tracer;
use std::alloc::{AllocError, Allocator};

/// What steps, of which none is refused, demand of the sets that a crash leaves of them, by what is asked for. It fails
/// only when out of memory.
pub fn demands_under<A: Allocator + Copy>(
    alloc: A,
    base: &Image<A>,
    steps: &[Step],
    ordering: &Ordering,
    asked: Asked,
) -> Result<Demands<A>, AllocError>
    requires { AreAccepted ordering.now base.now steps.now }
    ensures { IfOk result (AreDemands (asked_of asked ordering.now.«module» steps.now) base.now steps.now) }
{
    let demands = demands(alloc, base, steps, asked.strict, asked.atomic)?.counting(asked.counted);
    if !has_promises(steps) {
        return Ok(demands);
    }
    let promises = promises(alloc, base, steps, ordering, asked.durable)?;
    Ok(demands.with_promises(promises))
}

/// Whether a step waits or promises.
fn has_promises(steps: &[Step]) -> bool
    ensures { result ≡ has_promises steps.now }
{
    for step in steps {
        if waits_or_promises(&step.act) {
            return true;
        }
    }
    false
}

/// Whether an act waits or promises.
fn waits_or_promises(act: &Act) -> bool
    ensures { result ≡ waits_or_promises act.now }
{
    match act {
        Act::Sync | Act::Fsync(_) | Act::Keep(_) | Act::Hold(_) | Act::Spare(_, _) => true,
        Act::Do(_) | Act::Group(_) | Act::End | Act::Depend(_, _) => false,
    }
}

/// The promises of steps, of which none is refused. It fails only when out of memory.
pub fn promises<A: Allocator + Copy>(
    alloc: A,
    base: &Image<A>,
    steps: &[Step],
    ordering: &Ordering,
    is_durable: bool,
) -> Result<Vec<Promise<A>, A>, AllocError>
    requires { AreAccepted ordering.now base.now steps.now }
    ensures { IfOk result (λ promises.
        promises.items ≡ promises_of ordering.now.«module» is_durable base.now steps.now) }
{
    let mut tracer = Tracer::new(alloc, base, ordering)?;
    let mut promising = Promising::new(alloc, is_durable);
    for step in steps {
        let known = tracer.graph().len();
        take(&mut tracer, step)?;
        promising = promising.step(step, known, &place_of(&tracer))?;
    }
    promising.into_promises(&place_of(&tracer))
}

/// Adds a step to a trace, which does not refuse it. It fails only when out of memory.
pub fn take<'a, A: Allocator + Copy>(
    tracer: &mut Tracer<'a, A>,
    step: &'a Step,
) -> Result<(), AllocError>
    requires few { tracer.old.tracing.op_number < 2 ^ 63 }
    requires accepted { (next : Tracing)
        × (step_of tracer.old.log.kind tracer.old.tracing step.now.line step.now.act ≡ Ok next) }
    ensures moves { OnOk result (Moves tracer.old tracer.new
        (step_of tracer.old.log.kind tracer.old.tracing step.now.line step.now.act)) }
    ensures names { OnOk result (GivesNameIfAny step.now.act) }
{
    match tracer.step(step) {
        Ok(()) => Ok(()),
        Err(fault) => match fault {
            TraceFault::OutOfMemory => Err(AllocError),
            _ => unreachable!(),
        },
    }
}

/// The place that a trace has come to.
pub fn place_of<'t, A: Allocator + Copy>(tracer: &'t Tracer<'_, A>) -> Place<'t, A>
    ensures { IsPlaceOf result tracer.now.tracing }
{
    Place {
        disk: tracer.disk(),
        graph: tracer.graph(),
        forced: tracer.forced(),
        is_in_group: tracer.is_in_group(),
    }
}
