//! What a crash can leave, decided by families of sets.

ghost use Rattle.std.specs.Prelude.{◌<◌, ◌≤◌, ◌↔◌, ℕ, IfOk, IsTrue};
ghost use Rattle.std.specs.List.{All};
ghost use Rattle.crash_model.specs.Checker.{IsFailingUnder};
ghost use Rattle.crash_model.specs.FirstSets.{HasFault};
ghost use Rattle.question_model.specs.Decided.{AreDecided};
ghost use Rattle.fault_deciding.specs.Asked.{IsFirstFault};

use crate::asking::Asking;
use crate::dependencies::dependencies;
use crate::listing::candidates;
use crate::ordering::{found, sort_faults, sort_trials};
use crate::sharing::{spread, untried};
use disk_image::{Demands, Image};
use known_bytes::Chains;
use patch_graph::Graph;
use question_model::DecidedFault;
use set_families::ClosedSets;
use std::alloc::{AllocError, Allocator};
use std::thread::Threads;

/// A graph of patches over a base, of which a crash can leave some, and what is demanded of the image that it leaves.
/// The patches change blocks of the base.
#[derive(Drop)]
pub struct Decider<'a, A: Allocator + Copy> {
    pub alloc: A,
    pub base: &'a Image<A>,
    pub graph: &'a Graph<A>,
    pub demands: &'a Demands<A>,
    ghost fits: { All (λ patch. patch.block < base.now.blocks) graph.now },
}

impl<A: Allocator + Copy> Decider<'_, A> {
    /// Each fault that a crash can leave, in the order of faults, with the first set in canonical order whose image has
    /// it after replay.
    ///
    /// The workers share the faults, and the result is the same for each number of workers. One worker starts no
    /// thread. It fails only when out of memory.
    pub fn faults<R: Threads + Sync>(
        &self,
        rt: &R,
        workers: usize,
    ) -> Result<Vec<DecidedFault, A>, AllocError>
    where
        A: Send + Sync,
        requires { 1 ≤ workers }
        ensures { IfOk result (λ faults.
            AreDecided (HasFault self.now.demands.now self.now.base.now self.now.graph.now) faults.items) }
    {
        let deps = dependencies(self.graph);
        let sets = ClosedSets::of(&deps);
        let chains = Chains::new(self.alloc, self.base, self.graph)?;
        let candidates = candidates(self.alloc, &chains, self.demands)?;
        let asking = Asking {
            sets: &sets,
            chains: &chains,
            demands: self.demands,
        };
        let mut trials = untried(self.alloc, &candidates)?;
        spread(&mut trials, workers);
        asking.try_all(rt, &mut trials, workers);
        sort_trials(&mut trials);
        found(self.alloc, &trials)
    }

    /// Each fault that a crash can leave, as one worker finds them. It needs no threads, asks first whether there is
    /// any, and fails only when out of memory.
    pub fn faults_alone(&self) -> Result<Vec<DecidedFault, A>, AllocError>
        ensures { IfOk result (λ faults.
            AreDecided (HasFault self.now.demands.now self.now.base.now self.now.graph.now) faults.items) }
    {
        let deps = dependencies(self.graph);
        let sets = ClosedSets::of(&deps);
        let chains = Chains::new(self.alloc, self.base, self.graph)?;
        let candidates = candidates(self.alloc, &chains, self.demands)?;
        let asking = Asking {
            sets: &sets,
            chains: &chains,
            demands: self.demands,
        };
        if !asking.any_of(&candidates) {
            return Ok(Vec::new(self.alloc));
        }
        let mut trials = asking.tried(self.alloc, &candidates)?;
        sort_trials(&mut trials);
        found(self.alloc, &trials)
    }

    /// Whether a crash can leave a fault at all. It fails only when out of memory.
    pub fn any_fails(&self) -> Result<bool, AllocError>
        ensures { IfOk result (λ fails. IsTrue fails
            ↔ ((set : ℕ) × IsFailingUnder self.now.demands.now self.now.base.now self.now.graph.now set)) }
    {
        let deps = dependencies(self.graph);
        let sets = ClosedSets::of(&deps);
        let chains = Chains::new(self.alloc, self.base, self.graph)?;
        let candidates = candidates(self.alloc, &chains, self.demands)?;
        let asking = Asking {
            sets: &sets,
            chains: &chains,
            demands: self.demands,
        };
        Ok(asking.any_of(&candidates))
    }

    /// The first in the order of faults that a crash can leave, with the first set that has it, or `None` if a crash
    /// leaves no fault. It fails only when out of memory.
    pub fn first_fault(&self) -> Result<Option<DecidedFault>, AllocError>
        ensures { IfOk result (IsFirstFault (HasFault self.now.demands.now self.now.base.now self.now.graph.now)) }
    {
        let deps = dependencies(self.graph);
        let sets = ClosedSets::of(&deps);
        let chains = Chains::new(self.alloc, self.base, self.graph)?;
        let mut candidates = candidates(self.alloc, &chains, self.demands)?;
        let asking = Asking {
            sets: &sets,
            chains: &chains,
            demands: self.demands,
        };
        sort_faults(&mut candidates);
        Ok(asking.first_of(&candidates))
    }
}
