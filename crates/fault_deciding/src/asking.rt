//! The faults of a graph, one after another.

ghost use Rattle.std.specs.Prelude.{◌≡◌, ◌↔◌, ℕ, IsTrue};
ghost use Rattle.crash_model.specs.Patches.{deps_of};
ghost use Rattle.fault_deciding.specs.Asked.{AreAllOf, AreFoundByTest, IsFirstWith, IsFirstFault, HasFaultOf};
ghost use Rattle.fault_deciding.specs.Trials.{AreInOrder};
ghost use Rattle.crash_model.specs.Checker.{IsFailingUnder};

use crate::question::FaultQuestion;
use crash_model::fault::Fault;
use disk_image::Demands;
use known_bytes::Chains;
use question_model::DecidedFault;
use set_families::ClosedSets;
use std::alloc::Allocator;

/// The sets of a graph that a crash can leave, and what is known of their images.
#[derive(Drop)]
pub(crate) struct Asking<'a, A: Allocator + Copy> {
    pub sets: &'a ClosedSets<'a>,
    pub chains: &'a Chains<'a, A>,
    pub demands: &'a Demands<A>,
    ghost about: { sets.now.deps.now ≡ deps_of chains.now.patches },
    ghost found: { AreFoundByTest demands.now chains.now },
}

impl<A: Allocator + Copy> Asking<'_, A> {
    /// The first set that has a fault, if one has it.
    pub(crate) fn first(&self, fault: Fault) -> Option<u128>
        ensures { IsFirstWith (HasFaultOf self.now.demands.now self.now.chains.now) fault result }
    {
        let question = FaultQuestion {
            chains: self.chains,
            demands: self.demands,
            fault,
        };
        self.sets.first(&question)
    }

    /// Whether any set has a fault.
    fn any(&self, fault: Fault) -> bool
        ensures { IsTrue result ↔ ((set : ℕ) × HasFaultOf self.now.demands.now self.now.chains.now fault set) }
    {
        let question = FaultQuestion {
            chains: self.chains,
            demands: self.demands,
            fault,
        };
        self.sets.any(&question)
    }

    /// Whether any set has one of the faults, which are all that a set can have.
    pub(crate) fn any_of(&self, faults: &[Fault]) -> bool
        requires { AreAllOf (HasFaultOf self.now.demands.now self.now.chains.now) faults.now }
        ensures { IsTrue result
            ↔ ((set : ℕ) × IsFailingUnder self.now.demands.now self.now.chains.now.base
            self.now.chains.now.patches set) }
    {
        for fault in faults {
            if self.any(*fault) {
                return true;
            }
        }
        false
    }

    /// The first of the faults that a set has, with the first set that has it. The faults are all that a set can have,
    /// in the order of faults.
    pub(crate) fn first_of(&self, faults: &[Fault]) -> Option<DecidedFault>
        requires all { AreAllOf (HasFaultOf self.now.demands.now self.now.chains.now) faults.now }
        requires ordered { AreInOrder (λ f. f) faults.now }
        ensures { IsFirstFault (HasFaultOf self.now.demands.now self.now.chains.now) result }
    {
        for fault in faults {
            if let Some(first) = self.first(*fault) {
                return Some(DecidedFault {
                    fault: *fault,
                    first,
                });
            }
        }
        None
    }
}
