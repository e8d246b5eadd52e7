//! The first workload that fails without a group of rules.
ghost use Rattle.std.specs.Prelude.{map, IfOk};
ghost use Rattle.question_model.specs.Enough.{rules_but};
ghost use Rattle.question_model.specs.Sequences.{AreAllSequences, IsFirstSequence};
ghost use Rattle.question_model.specs.EnoughFor.{IsPassing, FailsBy, AreEnoughFor};
ghost use Rattle.workload_search.specs.Tries.{items_of};

use crate::rules::judge::RuleJudge;
use question_model::Places;
use std::alloc::AllocError;

/// The first workload that does not fail by all rules of a judge's search, and fails by all but those of a group, which
/// the others cannot do without. `passing` are the workloads that do not fail, in order.
///
/// # Errors
///
/// There is not enough memory for the judge.
pub fn first_without<'a, J: RuleJudge>(
    judge: &J,
    passing: &'a [Places],
    group: u128,
) -> Result<&'a Places, AllocError>
    requires whole { AreAllSequences (IsPassing (J.search judge.now)) (map items_of passing.now) }
    requires needed { ¬ (AreEnoughFor (J.search judge.now) (rules_but (J.search judge.now).rules group)) }
    ensures { IfOk result (λ places.
        IsFirstSequence (FailsBy (J.search judge.now) (rules_but (J.search judge.now).rules group)) places.now.items) }
{
    for places in passing {
        if judge.fails_without(places, group)? {
            return Ok(places);
        }
    }
    unreachable!()
}
