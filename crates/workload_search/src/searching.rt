//! The search.
ghost use Rattle.std.specs.Prelude.{◌≡◌, ◌<◌, ◌≤◌, ◌+◌, ◌^◌, ◌↔◌, ◌⊎◌, List, ℕ, [], ◌∷◌, ◌++◌, true, length, map};
ghost use Rattle.std.specs.Prelude.{IfOk, IsTrue, OnOk};
ghost use Rattle.question_model.specs.SearchCounts.{AreSearchCounts};
ghost use Rattle.question_model.specs.declared.length.TheConstants.{MAX_OPERATIONS};
ghost use Rattle.workload_search.specs.Passing.{AreAllPassing};
ghost use Rattle.workload_search.specs.Tries.{items_of};

use crate::judge::Judge;
use crate::tally::SearchTally;
use crate::trials::Trials;
use question_model::{Places, SearchCounts};
use std::alloc::{AllocError, Allocator};
use std::thread::Threads;
use thread_jobs::{Gate, Workers};

/// What a search finds, and the workloads that do not fail, in order, if they are kept.
#[derive(Drop)]
pub struct FoundWorkloads<A: Allocator> {
    pub found: SearchCounts,
    pub passing: Vec<Places, A>,
}

/// What is found of the workloads of up to `most` operations, 1 to `MAX_OPERATIONS`, of the pool of the judge's search.
/// It has `pool` operations. If `keeps`, the workloads that do not fail are kept.
///
/// The result is the same for each number of workers. The gate counts each workload, as a visited set, and whether it
/// fails.
///
/// # Errors
///
/// There is not enough memory, for the judge or for the workloads that do not fail. Those of `most` operations take
/// none unless they are kept.
pub fn search<J, R, A, G>(
    workers: &Workers<'_, R, A, G>,
    judge: &J,
    pool: usize,
    most: usize,
    keeps: bool,
) -> Result<FoundWorkloads<A>, AllocError>
where
    J: Judge + Sync,
    J::Prefix: Send,
    R: Threads + Sync,
    A: Allocator + Copy + Send + Sync,
    G: Gate + Sync,
    requires pool { pool ≡ length (J.search judge.now).pool }
    requires small { pool < 2 ^ 62 }
    requires most { most ≡ (J.search judge.now).most }
    requires range { (1 ≤ most) × (most ≤ MAX_OPERATIONS) }
    ensures found { IfOk result (λ searched. AreSearchCounts (J.search judge.now) searched.found) }
    ensures passing { keeps ≡ true → IfOk result (λ searched.
        AreAllPassing (J.search judge.now) (map items_of searched.passing.items)) }
{
    let mut tally = SearchTally::new(workers.alloc)?;
    let mut passing = Vec::new(workers.alloc);
    let mut beginnings = empty_beginning(workers.alloc)?;
    for made in 0..most {
        let trials = Trials {
            judge,
            alloc: workers.alloc,
            gate: workers.gate,
            pool,
            keeps: are_wanted(keeps, made, most),
        };
        let batch = trials.try_level(workers.rt, &beginnings, workers.number)?;
        tally.join(&batch.tally);
        keep(&mut passing, &mut beginnings, keeps)?;
        beginnings = batch.passing;
    }
    keep(&mut passing, &mut beginnings, keeps)?;
    drop_first(&mut passing);
    let found = tally.found();
    Ok(FoundWorkloads { found, passing })
}

/// Whether sequences that pass are wanted of the level after this number of operations: to be kept, or to be made
/// longer.
fn are_wanted(keeps: bool, made: usize, most: usize) -> bool
    requires { made < most }
    ensures { IsTrue result ↔ ((keeps ≡ true) ⊎ (made + 1 < most)) }
{
    keeps || made + 1 < most
}

/// Drops the first sequence, if there is one.
fn drop_first<A: Allocator>(sequences: &mut Vec<Places, A>)
    ensures { (first : List ℕ) (rest : List (List ℕ)) → map items_of sequences.old.items ≡ first ∷ rest
        → map items_of sequences.new.items ≡ rest }
{
    if sequences.is_empty() {
        return;
    }
    let _first = sequences.remove(0);
}

/// Appends sequences to those that are kept, if `keeps`. It fails only when out of memory.
fn keep<A: Allocator>(
    kept: &mut Vec<Places, A>,
    more: &mut Vec<Places, A>,
    keeps: bool,
) -> Result<(), AllocError>
    ensures { keeps ≡ true → OnOk result (kept.new.items ≡ kept.old.items ++ more.old.items) }
{
    if keeps {
        kept.append(more)?;
    }
    Ok(())
}

/// Only the empty sequence. It fails only when out of memory.
fn empty_beginning<A: Allocator>(alloc: A) -> Result<Vec<Places, A>, AllocError>
    ensures { IfOk result (λ beginnings. map items_of beginnings.items ≡ [] ∷ []) }
{
    let mut beginnings = Vec::new(alloc);
    beginnings.push(Places::new())?;
    Ok(beginnings)
}
