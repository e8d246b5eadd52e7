//! From what is counted to what is found.
ghost use Rattle.std.specs.Prelude.{◌≡◌, length};
ghost use Rattle.workload_search.specs.Listed.{AreListedReasons, AreListedKinds, IsListedTally};

use crate::kinds::KindTally;
use crate::places::copied;
use crate::tally::SearchTally;
use arrayvec::ArrayVec;
use crash_model::fault_kind::{FaultKind, KINDS};
use crash_model::refusal::{REFUSALS, Refusal};
use question_model::{RefusedCount, SearchCounts, ShownKind};
use std::alloc::Allocator;

impl<A: Allocator> SearchTally<A> {
    /// What is found of the sequences that were counted.
    pub(crate) fn found(&self) -> SearchCounts
        requires { length self.now.kinds.items ≡ KINDS }
        ensures { IsListedTally self.now result }
    {
        SearchCounts {
            workloads: self.workloads,
            failing: self.failing,
            refused: refused(&self.refused),
            kinds: shown(&self.kinds),
        }
    }
}

/// Each reason that comes, in the order of their numbers.
fn refused(counts: &[u128; REFUSALS]) -> ArrayVec<RefusedCount, REFUSALS>
    ensures { AreListedReasons counts.now result.items }
{
    let mut refused = ArrayVec::new();
    for i in 0..REFUSALS {
        if counts[i] > 0 {
            refused.push(RefusedCount {
                reason: Refusal::at(i),
                count: counts[i],
            });
        }
    }
    refused
}

/// Each kind that is shown, in the order of their numbers.
fn shown(kinds: &[KindTally]) -> ArrayVec<ShownKind, KINDS>
    requires { length kinds.now ≡ KINDS }
    ensures { AreListedKinds kinds.now result.items }
{
    let mut shown = ArrayVec::new();
    for i in 0..KINDS {
        if let Some(first) = &kinds[i].first {
            shown.push(ShownKind {
                kind: FaultKind::at(i),
                workloads: kinds[i].workloads,
                places: copied(&first.places),
                first: first.set,
            });
        }
    }
    shown
}
