//! The faults of a graph, shared among workers.

ghost use Rattle.std.specs.Prelude.{◌≡◌, ◌<◌, IfOk, IsPermutation, length, map};
ghost use Rattle.std.specs.List.{All};
ghost use Rattle.fault_deciding.specs.Asked.{HasFaultOf};
ghost use Rattle.fault_deciding.specs.Trials.{fault_of, IsTried, HaveSameFaults};

use crate::asking::Asking;
use crash_model::fault::Fault;
use std::alloc::{AllocError, Allocator};
use std::thread;
use std::thread::Threads;

/// A fault, and the first set that has it, if there is one. Before it is tried there is none.
#[derive(Clone, Copy, Drop)]
pub(crate) struct Trial {
    pub fault: Fault,
    pub first: Option<u128>,
}

/// A trial of each fault, none of them tried yet.
pub(crate) fn untried<A: Allocator>(alloc: A, faults: &[Fault]) -> Result<Vec<Trial, A>, AllocError>
    ensures { IfOk result (λ trials. map fault_of trials.items ≡ faults.now) }
{
    let mut trials = Vec::new(alloc);
    for fault in faults {
        trials.push(Trial {
            fault: *fault,
            first: None,
        })?;
    }
    Ok(trials)
}

/// Puts trials of faults that are alike far apart, so that no worker gets all that take long. One worker gets all
/// anyway.
pub(crate) fn spread<A: Allocator>(trials: &mut Vec<Trial, A>, workers: usize)
    ensures { IsPermutation trials.old.items trials.new.items }
{
    if workers > 1 {
        trials.sort_unstable_by_key(|trial| mixed(trial.fault));
    }
}

/// A number that says little about a fault's place in the order of faults.
fn mixed(fault: Fault) -> u32 {
    let bytes = fault.numbers().map(|number| (number % 256) as u8);
    u32::from_le_bytes(bytes).wrapping_mul(0x9E37_79B1)
}

impl<A: Allocator + Copy> Asking<'_, A> {
    /// A trial of each candidate, tried one after another.
    pub(crate) fn tried(&self, alloc: A, candidates: &[Fault]) -> Result<Vec<Trial, A>, AllocError>
        ensures faults { IfOk result (λ trials. map fault_of trials.items ≡ candidates.now) }
        ensures tried { IfOk result (λ trials.
            All (IsTried (HasFaultOf self.now.demands.now self.now.chains.now)) trials.items) }
    {
        let mut trials = Vec::new(alloc);
        for fault in candidates {
            trials.push(Trial {
                fault: *fault,
                first: self.first(*fault),
            })?;
        }
        Ok(trials)
    }
}

impl<A: Allocator + Copy + Sync> Asking<'_, A> {
    /// Tries each fault. The workers share them side by side; one worker starts no thread.
    pub(crate) fn try_all<R: Threads + Sync>(&self, rt: &R, trials: &mut [Trial], workers: usize)
        requires { 0 < workers }
        ensures long { length trials.new ≡ length trials.old }
        ensures same { HaveSameFaults trials.old trials.new }
        ensures tried { All (IsTried (HasFaultOf self.now.demands.now self.now.chains.now)) trials.new }
    {
        thread::for_each_mut(rt, trials, workers, &|_, trial| self.try_one(trial));
    }

    /// Tries a fault.
    fn try_one(&self, trial: &mut Trial)
        ensures same { trial.new.fault ≡ trial.old.fault }
        ensures tried { IsTried (HasFaultOf self.now.demands.now self.now.chains.now) trial.new }
    {
        trial.first = self.first(trial.fault);
    }
}
