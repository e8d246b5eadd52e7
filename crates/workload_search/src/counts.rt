//! Lists of counts: for each kind of fault, and for each reason.
ghost use Rattle.std.specs.Prelude.{◌≡◌, ◌+◌, ◌<◌, ◌^◌, ℕ, List, length, IfOk, slice_index};
ghost use Rattle.workload_search.specs.Tallies.{AreNoKinds, AreKindsAdded, AreKindsJoined, KindsHaveRoom};
ghost use Rattle.workload_search.specs.Tallies.{KindsHaveRoomFor, AreCountsJoined};
ghost use Rattle.crash_model.specs.declared.refusal.TheConstants.{REFUSALS};

use crate::kinds::KindTally;
use crash_model::fault_kind::KINDS;
use crash_model::refusal::REFUSALS;
use question_model::Places;
use std::alloc::{AllocError, Allocator};

/// For each kind that no workload shows it.
pub(crate) fn no_kinds<A: Allocator>(alloc: A) -> Result<Vec<KindTally, A>, AllocError>
    ensures { IfOk result (λ kinds. AreNoKinds kinds.items) }
{
    let mut kinds = Vec::new(alloc);
    for _kind in 0..KINDS {
        kinds.push(KindTally {
            workloads: 0,
            first: None,
        })?;
    }
    Ok(kinds)
}

/// Counts a workload for each kind that has a first set.
pub(crate) fn add_kinds(kinds: &mut [KindTally], places: &Places, firsts: &[Option<u128>; KINDS])
    requires long { length kinds.old ≡ KINDS }
    requires room { KindsHaveRoom kinds.old }
    ensures { AreKindsAdded places.now.items firsts.now kinds.old kinds.new }
{
    for i in 0..KINDS {
        if let Some(set) = firsts[i] {
            kinds[i].add(places, set);
        }
    }
}

/// Adds what is counted of each kind to that of earlier workloads.
pub(crate) fn join_kinds(kinds: &mut [KindTally], later: &[KindTally])
    requires long { (length kinds.old ≡ KINDS) × (length later.now ≡ KINDS) }
    requires room { KindsHaveRoomFor kinds.old later.now }
    ensures { AreKindsJoined later.now kinds.old kinds.new }
{
    for i in 0..KINDS {
        kinds[i].join(&later[i]);
    }
}

/// Adds the count of each reason to that of earlier sequences.
pub(crate) fn join_counts(counts: &mut [u128; REFUSALS], later: &[u128; REFUSALS])
    requires { (i : ℕ) → i < REFUSALS → slice_index counts.old i + slice_index later.now i < 2 ^ 128 }
    ensures { AreCountsJoined counts.old later.now counts.new }
{
    for i in 0..REFUSALS {
        counts[i] += later[i];
    }
}
