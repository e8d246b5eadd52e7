//! Workloads that are dealt out to workers.
ghost use Rattle.std.specs.Prelude.{◌≡◌, ◌<◌, map, vec_len, IfOk};
ghost use Rattle.std.specs.List.{All};
ghost use Rattle.patch_sets.specs.Sets.{AreAllInOrder};
ghost use Rattle.chosen_rules.specs.Sublists.{all_of};
ghost use Rattle.enough_rules.specs.Asked.{AreBlockingGroups};
ghost use Rattle.question_model.specs.Sequences.{AreAllSequences};
ghost use Rattle.question_model.specs.EnoughFor.{IsPassing, IsMinimalInSearch, IsNeededInSearch};
ghost use Rattle.workload_search.specs.Tries.{items_of};
ghost use Rattle.workload_search.specs.Asked.{IsEnoughForEach, AreGroupsOfParts};

use crate::rules::judge::RuleJudge;
use crate::rules::oracle::groups_of;
use enough_rules::{EnoughSets, sets_of};
use question_model::Places;
use std::alloc::{AllocError, Allocator};
use std::thread;
use std::thread::Threads;
use thread_jobs::Workers;

/// The minimal sets of rules that are enough for all workloads of a judge's search that do not fail, and the minimal
/// groups of which one rule is needed, each in canonical order. `passing` are these workloads, in order, and the
/// workers share them.
///
/// The answer is the same for each number of workers. It calls no method of the gate.
///
/// # Errors
///
/// There is not enough memory, for the judge or for the lists.
pub fn enough_for_all<J, R, A, G>(
    workers: &Workers<'_, R, A, G>,
    judge: &J,
    passing: &[Places],
) -> Result<EnoughSets<A>, AllocError>
where
    J: RuleJudge + Sync,
    R: Threads + Sync,
    A: Allocator + Copy + Send + Sync,
    requires { AreAllSequences (IsPassing (J.search judge.now)) (map items_of passing.now) }
    ensures enough { IfOk result (λ found.
        AreAllInOrder (IsMinimalInSearch (J.search judge.now)) found.enough.items) }
    ensures needed { IfOk result (λ found.
        AreAllInOrder (IsNeededInSearch (J.search judge.now)) found.needed.items) }
{
    let groups = groups_by(workers, judge, passing)?;
    let found = sets_of(workers.alloc, &groups)?;
    Ok(found)
}

/// Groups of rules such that exactly the sets that have a rule of each group are enough for each of the workloads.
///
/// Each worker finds the groups of its workloads alone, and a set is enough where it is enough for each worker's.
fn groups_by<J, R, A, G>(
    workers: &Workers<'_, R, A, G>,
    judge: &J,
    workloads: &[Places],
) -> Result<Vec<u128, A>, AllocError>
where
    J: RuleJudge + Sync,
    R: Threads + Sync,
    A: Allocator + Copy + Send + Sync,
    requires passing { ∥ All (λ places. IsPassing (J.search judge.now) places.items) workloads.now ∥₁ }
    ensures { IfOk result (λ groups. AreBlockingGroups (all_of (J.search judge.now).rules)
        (IsEnoughForEach (J.search judge.now) (map items_of workloads.now)) groups.items) }
{
    let mut found = groups_of_parts(workers, judge, workloads)?;
    let mut groups = Vec::new(workers.alloc);
    while let Some(part) = found.pop() {
        let mut part = part?;
        groups.append(&mut part)?;
    }
    Ok(groups)
}

/// The groups of each worker's workloads, found side by side. The workloads are dealt out in turn, since later ones
/// are longer. One worker starts no thread.
fn groups_of_parts<J, R, A, G>(
    workers: &Workers<'_, R, A, G>,
    judge: &J,
    workloads: &[Places],
) -> Result<Vec<Result<Vec<u128, A>, AllocError>, A>, AllocError>
where
    J: RuleJudge + Sync,
    R: Threads + Sync,
    A: Allocator + Copy + Send + Sync,
    requires { ∥ All (λ places. IsPassing (J.search judge.now) places.items) workloads.now ∥₁ }
    ensures len { IfOk result (λ found. vec_len found ≡ workers.now.number) }
    ensures each { IfOk result (λ found. AreGroupsOfParts (J.search judge.now) (map items_of workloads.now)
        workers.now.number found.items) }
{
    let alloc = workers.alloc;
    let parts = workers.number;
    thread::map_indices(
        workers.rt,
        alloc,
        parts,
        &|part|
            requires { (0 < parts)
                × (∥ All (λ places. IsPassing (J.search judge.now) places.items) workloads.now ∥₁) }
        { groups_of(alloc, judge, workloads, parts, part) },
    )
}
