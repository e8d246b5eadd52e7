//! Asking workloads one after another whether a set of rules is enough.
ghost use Rattle.std.specs.Prelude.{◌≡◌, ◌%◌, ◌<◌, ◌↔◌, map, IfOk, IsTrue};
ghost use Rattle.std.specs.List.{All};
ghost use Rattle.patch_sets.specs.Sets.{IsSubset};
ghost use Rattle.chosen_rules.specs.Sublists.{all_of};
ghost use Rattle.enough_rules.specs.Asked.{IsFound};
ghost use Rattle.question_model.specs.EnoughFor.{IsPassing};
ghost use Rattle.workload_search.specs.Tries.{items_of};
ghost use Rattle.workload_search.specs.Asked.{IsEnoughForPart};

use crate::rules::judge::RuleJudge;
use question_model::Places;
use std::alloc::AllocError;

/// What a judge says about the first workload for which the set is not enough, or `None` if it is enough for each. The
/// workloads are dealt out to the parts in turn, and the judge is asked only about those of part number `part`.
///
/// # Errors
///
/// There is not enough memory for the judge.
pub(crate) fn blocking_of<J: RuleJudge>(
    judge: &J,
    workloads: &[Places],
    parts: usize,
    part: usize,
    set: u128,
) -> Result<Option<u128>, AllocError>
    requires some { 0 < parts }
    requires passing { ∥ All (λ places. IsPassing (J.search judge.now) places.items) workloads.now ∥₁ }
    requires within { IsSubset set (all_of (J.search judge.now).rules) }
    ensures { IfOk result (IsFound (all_of (J.search judge.now).rules)
        (IsEnoughForPart (J.search judge.now) (map items_of workloads.now) parts part) set) }
{
    for (place, places) in workloads.iter().enumerate() {
        if !is_dealt_to(part, parts, place) {
            continue;
        }
        if let Some(group) = judge.blocking(places, set)? {
            return Ok(Some(group));
        }
    }
    Ok(None)
}

/// Whether a part gets the workload at this place, where workloads are dealt out to so many parts in turn.
fn is_dealt_to(part: usize, parts: usize, place: usize) -> bool
    requires { 0 < parts }
    ensures { IsTrue result ↔ (place % parts ≡ part) }
{
    place % parts == part
}
