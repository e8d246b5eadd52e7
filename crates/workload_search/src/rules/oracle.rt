//! The groups of rules that a part of the workloads needs.
ghost use Rattle.std.specs.Prelude.{◌<◌, map, IfOk};
ghost use Rattle.std.specs.List.{All};
ghost use Rattle.question_model.specs.EnoughFor.{IsPassing};
ghost use Rattle.workload_search.specs.Tries.{items_of};
ghost use Rattle.workload_search.specs.Asked.{AreGroupsOfPart};

use crate::rules::asking::blocking_of;
use crate::rules::judge::RuleJudge;
use enough_rules::{Oracle, blocking_groups};
use question_model::Places;
use std::alloc::{AllocError, Allocator};

/// A judge, and workloads of its search that do not fail, of which those are asked that part number `part` gets, where
/// they are dealt out to so many parts in turn.
#[derive(Drop)]
struct PartOracle<'a, J: RuleJudge> {
    judge: &'a J,
    workloads: &'a [Places],
    parts: usize,
    part: usize,
    ghost some: { 0 < parts },
    ghost passing: { ∥ All (λ places. IsPassing (J.search judge.now) places.items) workloads.now ∥₁ },
}

/// Groups of rules such that exactly the sets that have a rule of each group are enough for the workloads that part
/// number `part` gets, where they are dealt out to so many parts in turn.
///
/// # Errors
///
/// There is not enough memory, for the judge or for the groups.
pub(crate) fn groups_of<J: RuleJudge, A: Allocator + Copy>(
    alloc: A,
    judge: &J,
    workloads: &[Places],
    parts: usize,
    part: usize,
) -> Result<Vec<u128, A>, AllocError>
    requires some { 0 < parts }
    requires passing { ∥ All (λ places. IsPassing (J.search judge.now) places.items) workloads.now ∥₁ }
    ensures { IfOk result (AreGroupsOfPart (J.search judge.now) (map items_of workloads.now) parts part) }
{
    let groups = blocking_groups(
        alloc,
        &PartOracle {
            judge,
            workloads,
            parts,
            part,
        },
    )?;
    Ok(groups)
}

impl<J: RuleJudge> Oracle for PartOracle<'_, J> {
    ghost use Rattle.std.specs.Prelude.{map};
    ghost use Rattle.chosen_rules.specs.Sublists.{all_of};
    ghost use Rattle.workload_search.specs.Tries.{items_of};
    ghost use Rattle.workload_search.specs.Asked.{IsEnoughForPart};

    ghost all = { λ o. all_of (J.search o.judge.now).rules };

    ghost is_enough = { λ o.
        IsEnoughForPart (J.search o.judge.now) (map items_of o.workloads.now) o.parts o.part };

    fn blocking(&self, set: u128) -> Result<Option<u128>, AllocError> {
        let found = blocking_of(self.judge, self.workloads, self.parts, self.part, set)?;
        Ok(found)
    }
}
