//! The step that each act of a script is.

ghost use Rattle.std.specs.Prelude.{◌<◌, ◌^◌, IfOk, OnOk};
ghost use Rattle.crash_model.specs.Trace.{step as step_of};
ghost use Rattle.order_modules.specs.Tracer.{GivesNameIfAny, Moves, RefusesAs};

use crate::tracer::Tracer;
use crash_model::refusals::TraceFault;
use crash_model::steps::{Act, Step};
use std::alloc::Allocator;

impl<'a, A: Allocator + Copy> Tracer<'a, A> {
    /// Takes a step of the script.
    pub fn step(&mut self, step: &'a Step) -> Result<(), TraceFault>
        requires { self.old.tracing.op_number < 2 ^ 63 }
        ensures ok { OnOk result (Moves self.old self.new
            (step_of self.old.log.kind self.old.tracing step.now.line step.now.act)) }
        ensures names { OnOk result (GivesNameIfAny step.now.act) }
        ensures refused { RefusesAs result (step_of self.old.log.kind self.old.tracing step.now.line step.now.act) }
    {
        match &step.act {
            Act::Do(op) => self.operate(step.line, op),
            Act::Group(name) => self.open(step.line, name),
            Act::End => self.end(step.line),
            Act::Depend(later, earlier) => self.depend(step.line, later, earlier),
            Act::Sync => {
                self.wait_for_all(step)?;
                Ok(())
            }
            Act::Fsync(target) => self.wait_for(step, target),
            Act::Keep(_) | Act::Hold(_) => Ok(()),
            Act::Spare(path, other) => self.stand_in(step.line, path, other),
        }
    }

    /// The trace with a step more, in memory of its own. An operation that cannot be planned takes no memory.
    pub fn with_step(&self, step: &'a Step) -> Result<Tracer<'a, A>, TraceFault>
        requires { self.now.tracing.op_number < 2 ^ 63 }
        ensures ok { IfOk result (λ longer. Moves self.now longer
            (step_of self.now.log.kind self.now.tracing step.now.line step.now.act)) }
        ensures names { IfOk result (λ _. GivesNameIfAny step.now.act) }
        ensures refused { RefusesAs result (step_of self.now.log.kind self.now.tracing step.now.line step.now.act) }
    {
        if let Act::Do(op) = &step.act {
            return self.with_operation(step.line, op);
        }
        let mut longer = self.try_copy()?;
        longer.step(step)?;
        Ok(longer)
    }
}
