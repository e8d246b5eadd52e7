//! What is counted of one kind of fault.
ghost use Rattle.std.specs.Prelude.{◌≡◌, ◌+◌, ◌<◌, ◌^◌, Some};
ghost use Rattle.workload_search.specs.Tallies.{listed_first, or_else};

use crate::places::copied;
use question_model::Places;

/// The first workload that shows a kind of fault, and its first failing set that has such a fault.
#[derive(Drop)]
pub(crate) struct First {
    pub places: Places,
    pub set: u128,
}

/// How many workloads show a kind of fault, and the first of them.
#[derive(Drop)]
pub(crate) struct KindTally {
    pub workloads: u128,
    pub first: Option<First>,
}

impl KindTally {
    /// Counts a workload that comes after all others.
    pub(crate) fn add(&mut self, places: &Places, set: u128)
        requires { self.old.workloads + 1 < 2 ^ 128 }
        ensures workloads { self.new.workloads ≡ self.old.workloads + 1 }
        ensures first { listed_first self.new.first ≡ or_else (listed_first self.old.first)
            (Some (places.now.items, set)) }
    {
        self.workloads += 1;
        if self.first.is_none() {
            self.first = Some(First {
                places: copied(places),
                set,
            });
        }
    }

    /// Counts the workloads of a later tally.
    pub(crate) fn join(&mut self, later: &KindTally)
        requires { self.old.workloads + later.now.workloads < 2 ^ 128 }
        ensures workloads { self.new.workloads ≡ self.old.workloads + later.now.workloads }
        ensures first { listed_first self.new.first ≡ or_else (listed_first self.old.first)
            (listed_first later.now.first) }
    {
        self.workloads += later.workloads;
        if self.first.is_none() {
            self.first = first_of(later);
        }
    }
}

/// The first workload of a tally.
fn first_of(kind: &KindTally) -> Option<First>
    ensures { listed_first result ≡ listed_first kind.now.first }
{
    match &kind.first {
        None => None,
        Some(first) => Some(First {
            places: copied(&first.places),
            set: first.set,
        }),
    }
}
