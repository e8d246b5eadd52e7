//! The promises of the steps of a script so far.

ghost use Rattle.std.specs.Prelude.{◌≡◌, [], ◌∷◌, ◌++◌, Ok, length, option_map, option_to_list, IfOk, MatchOption};
ghost use Rattle.crash_model.specs.Trace.{step as step_of};
ghost use Rattle.crash_model.specs.Tracing.{Tracing};
ghost use Rattle.crash_model.specs.declared.modules.Module.{Module};
ghost use Rattle.promise_steps.specs.Underway.{started_by, all_advanced, all_ended, rested};
ghost use Rattle.kept_promises.specs.Watched.{IsPlaceOf, IsAt, AreAt, under_of, unders_of};

use crate::place::Place;
use crate::underway::Underway;
use crash_model::promises::{Paths, paths_copy};
use crash_model::steps::{Act, Step, Target};
use disk_image::Promise;
use std::alloc::{AllocError, Allocator};

/// The promises of the steps so far, to which those of later steps can be added. `is_durable` says whether each fsync
/// of a path promises, too.
#[derive(Drop)]
pub struct Promising<A: Allocator + Copy> {
    pub(crate) alloc: A,
    pub(crate) is_durable: bool,
    pub(crate) underway: Vec<Underway<A>, A>,
}

impl<A: Allocator + Copy> Promising<A> {
    /// No promises yet.
    pub fn new(alloc: A, is_durable: bool) -> Promising<A>
        ensures none { unders_of result ≡ [] }
        ensures at { (s : Tracing) → AreAt result s }
        ensures durable { result.is_durable ≡ is_durable }
    {
        Promising {
            alloc,
            is_durable,
            underway: Vec::new(alloc),
        }
    }

    /// The same in memory of its own. It fails only when out of memory.
    pub fn try_copy(&self) -> Result<Promising<A>, AllocError>
        ensures same { IfOk result (λ copy. unders_of copy ≡ unders_of self.now) }
        ensures durable { IfOk result (λ copy. copy.is_durable ≡ self.now.is_durable) }
        ensures at { IfOk result (λ copy. (s : Tracing) → AreAt self.now s → AreAt copy s) }
    {
        let mut underway = Vec::new(self.alloc);
        for one in self.underway.as_slice() {
            underway.push(one.try_copy(self.alloc)?)?;
        }
        Ok(Promising {
            alloc: self.alloc,
            is_durable: self.is_durable,
            underway,
        })
    }

    /// With a step that a trace has just taken; it had `known` patches before. It fails only when out of memory.
    pub fn step(
        self,
        step: &Step,
        known: usize,
        after: &Place<'_, A>,
    ) -> Result<Promising<A>, AllocError>
        ensures advanced { IfOk result (λ longer. (kind : Module) (s next : Tracing)
            → AreAt self s → IsPlaceOf after.now next → known ≡ length s.emitted
            → step_of kind s step.now.line step.now.act ≡ Ok next
            → unders_of longer ≡ all_advanced self.is_durable (unders_of self) s step.now.line step.now.act
            next) }
        ensures at { IfOk result (λ longer. (next : Tracing) → IsPlaceOf after.now next → AreAt longer next) }
        ensures durable { IfOk result (λ longer. longer.is_durable ≡ self.is_durable) }
    {
        let (alloc, is_durable) = (self.alloc, self.is_durable);
        let mut underway = Vec::new(alloc);
        for one in self.underway {
            underway.push(one.advanced(&step.act, known, after)?)?;
        }
        let started = started(alloc, is_durable, step, after)?;
        Ok(Promising {
            alloc,
            is_durable,
            underway: with_last(underway, started)?,
        })
    }

    /// The promises of the steps, of which there are no more. It fails only when out of memory.
    pub fn into_promises(self, last: &Place<'_, A>) -> Result<Vec<Promise<A>, A>, AllocError>
        ensures { IfOk result (λ promises. (s : Tracing) → IsPlaceOf last.now s
            → promises.items ≡ all_ended s (unders_of self)) }
    {
        let mut promises = Vec::new(self.alloc);
        for one in self.underway {
            promises.push(ended(one, last)?)?;
        }
        Ok(promises)
    }
}

/// A list with one more promise, if there is one. It fails only when out of memory.
fn with_last<A: Allocator + Copy>(
    underway: Vec<Underway<A>, A>,
    last: Option<Underway<A>>,
) -> Result<Vec<Underway<A>, A>, AllocError>
    ensures { IfOk result (λ longer. longer.items ≡ underway.items ++ option_to_list last) }
{
    let mut longer = underway;
    if let Some(one) = last {
        longer.push(one)?;
    }
    Ok(longer)
}

/// A promise at the place behind the last step, which is a rest also where a group is open. It fails only when out of
/// memory.
fn ended<A: Allocator + Copy>(
    one: Underway<A>,
    last: &Place<'_, A>,
) -> Result<Promise<A>, AllocError>
    ensures { IfOk result (λ promise. (s : Tracing) → IsPlaceOf last.now s
        → all_ended s (under_of one ∷ []) ≡ promise ∷ []) }
{
    if last.is_in_group {
        Ok(one.with_rest(last)?.promise)
    } else {
        Ok(one.promise)
    }
}

/// What a step promises right behind it. It fails only when out of memory.
fn started<A: Allocator + Copy>(
    alloc: A,
    is_durable: bool,
    step: &Step,
    after: &Place<'_, A>,
) -> Result<Option<Underway<A>>, AllocError>
    ensures started { IfOk result (λ one. (next : Tracing) → IsPlaceOf after.now next
        → option_map under_of one
        ≡ option_map (λ u. rested u next) (started_by is_durable step.now.line step.now.act next)) }
    ensures at { IfOk result (λ one. (next : Tracing) → IsPlaceOf after.now next → MatchOption one (Unit {0})
        (λ u. IsAt u next)) }
{
    let Some(one) = promised(alloc, is_durable, step, after)? else {
        return Ok(None);
    };
    if after.is_in_group {
        Ok(Some(one))
    } else {
        Ok(Some(one.with_rest(after)?))
    }
}

/// What a step promises, before the place behind it is taken as a rest. It fails only when out of memory.
fn promised<A: Allocator + Copy>(
    alloc: A,
    is_durable: bool,
    step: &Step,
    after: &Place<'_, A>,
) -> Result<Option<Underway<A>>, AllocError>
    ensures started { IfOk result (λ one. (next : Tracing) → IsPlaceOf after.now next
        → option_map under_of one ≡ started_by is_durable step.now.line step.now.act next) }
    ensures at { IfOk result (λ one. (next : Tracing) → IsPlaceOf after.now next → MatchOption one (Unit {0})
        (λ u. IsAt u next)) }
{
    let line = step.line;
    let one = match &step.act {
        Act::Keep(paths) => Underway::new(alloc, line, true, paths_copy(paths), after)?,
        Act::Hold(path) => {
            let mut paths = Paths::new();
            paths.push(path.copy());
            Underway::new(alloc, line, false, paths, after)?
        }
        Act::Fsync(Target::At(path)) => {
            if !is_durable {
                return Ok(None);
            }
            Underway::durable(alloc, line, path, after)?
        }
        _ => return Ok(None),
    };
    Ok(Some(one))
}
