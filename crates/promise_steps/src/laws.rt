//! Promises step by step, as functions that do nothing and promise the law.

ghost use Rattle.std.specs.Prelude.{◌≡◌, List, [], ◌∷◌, Bool, Ok, Err};
ghost use Rattle.crash_model.specs.Disk.{Disk};
ghost use Rattle.crash_model.specs.Promises.{promises_of};
ghost use Rattle.crash_model.specs.Trace.{step};
ghost use Rattle.crash_model.specs.Tracing.{Tracing, trace_start};
ghost use Rattle.crash_model.specs.declared.modules.Module.{Module};
ghost use Rattle.crash_model.specs.declared.refusals.TraceFault.{TraceFault};
ghost use Rattle.crash_model.specs.declared.steps.Step.{Step};
ghost use Rattle.promise_steps.specs.Underway.{Under, all_advanced, all_finished, all_ended};

/// A step carries the promises so far on, and adds its own. Behind the last step, and at one that is refused, they are
/// what has been found.
pub fn promises_are_carried_on()
    ensures next { (kind : Module) (is_durable : Bool) (s after : Tracing) (x : Step) (xs : List Step)
        (us : List Under) → step kind s x.line x.act ≡ Ok after
        → all_finished kind is_durable s (x ∷ xs) us
        ≡ all_finished kind is_durable after xs (all_advanced is_durable us s x.line x.act after) }
    ensures refused { (kind : Module) (is_durable : Bool) (s : Tracing) (x : Step) (xs : List Step)
        (us : List Under) (fault : TraceFault) → step kind s x.line x.act ≡ Err fault
        → all_finished kind is_durable s (x ∷ xs) us ≡ all_ended s us }
    ensures last { (kind : Module) (is_durable : Bool) (s : Tracing) (us : List Under)
        → all_finished kind is_durable s [] us ≡ all_ended s us }
{}

/// The promises of a script are those from its beginning on, whether or not blocks are written whole.
pub fn promises_begin_with_none()
    ensures { (kind : Module) (is_durable whole : Bool) (base : Disk) (steps : List Step)
        → all_finished kind is_durable (trace_start whole base) steps [] ≡ promises_of kind is_durable base steps }
{}
