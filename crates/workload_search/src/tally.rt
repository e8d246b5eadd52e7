//! What is counted of sequences that were tried.
ghost use Rattle.std.specs.Prelude.{◌≡◌, ◌<◌, ◌++◌, ◌∷◌, List, [], IfOk};
ghost use Rattle.workload_search.specs.Tallies.{Tried, tried_as, IsTally, HasRoom, HaveRoom, reason_place};
ghost use Rattle.crash_model.specs.declared.refusal.TheConstants.{REFUSALS};

use crate::counts::{add_kinds, join_counts, join_kinds, no_kinds};
use crate::kinds::KindTally;
use crash_model::refusal::{REFUSALS, Refusal};
use question_model::{Places, Verdict};
use std::alloc::{AllocError, Allocator};

/// How many sequences are workloads, how many fail, and how many are refused for each reason, in the order of their
/// numbers; and what is counted of each kind of fault, in the order of their numbers.
#[derive(Drop)]
pub(crate) struct SearchTally<A: Allocator> {
    pub workloads: u128,
    pub failing: u128,
    pub refused: [u128; REFUSALS],
    pub kinds: Vec<KindTally, A>,
}

impl<A: Allocator> SearchTally<A> {
    /// The tally of no sequence. It fails only when out of memory.
    pub(crate) fn new(alloc: A) -> Result<Self, AllocError>
        ensures { IfOk result (IsTally []) }
    {
        Ok(SearchTally {
            workloads: 0,
            failing: 0,
            refused: [0; REFUSALS],
            kinds: no_kinds(alloc)?,
        })
    }

    /// Counts a sequence that comes after all others.
    pub(crate) fn add(&mut self, places: &Places, verdict: &Verdict)
        requires { HasRoom 1 self.old }
        ensures { (tried : List Tried) → IsTally tried self.old
            → IsTally (tried ++ tried_as places.now.items verdict.now ∷ []) self.new }
    {
        match verdict {
            Verdict::Refused(reason) => self.refused[place_of(*reason)] += 1,
            Verdict::Passes => self.workloads += 1,
            Verdict::Fails(firsts) => {
                self.workloads += 1;
                self.failing += 1;
                add_kinds(&mut self.kinds, places, firsts);
            }
        }
    }

    /// Counts the sequences of a later tally.
    pub(crate) fn join(&mut self, later: &SearchTally<A>)
        requires { HaveRoom self.old later.now }
        ensures { (tried others : List Tried) → IsTally tried self.old → IsTally others later.now
            → IsTally (tried ++ others) self.new }
    {
        self.workloads += later.workloads;
        self.failing += later.failing;
        join_counts(&mut self.refused, &later.refused);
        join_kinds(&mut self.kinds, &later.kinds);
    }
}

/// The place of a reason in the order of their numbers, from 0.
pub(crate) fn place_of(reason: Refusal) -> usize
    ensures exact { result ≡ reason_place reason }
    ensures small { result < REFUSALS }
{
    match reason.number() {
        2 => 0,
        number => number - 9,
    }
}
