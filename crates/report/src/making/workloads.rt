//! Rules of which the workloads of a search need one, and the first crash without them.

ghost use Rattle.std.specs.Prelude.{◌≡◌, map, IfOk};
ghost use Rattle.std.specs.List.{All};
ghost use Rattle.question_model.specs.Sequences.{AreAllSequences};
ghost use Rattle.question_model.specs.EnoughFor.{IsPassing, IsNeededInSearch};
ghost use Rattle.workload_search.specs.Tries.{items_of};
ghost use Rattle.pool_judging.specs.Judging.{search_by};
ghost use Rattle.report.specs.OnPools.{IsNeedOfSearch};

use crate::choices::rules_at;
use crate::making::detail::Detail;
use crate::making::first::first_crash;
use crate::need::Need;
use pool_judging::{PoolRules, graph_but, steps_at, traced_of};
use question_model::Places;
use std::alloc::{AllocError, Allocator, Global};
use workload_search::first_without;

/// Each of these groups of rules, with the first workload that fails without the group, and its first crash then.
/// `passing` has the workloads that do not fail by all rules, in order. It fails only when out of memory.
pub fn needs_of_workloads<A: Allocator + Copy>(
    heap: Global,
    rules: &PoolRules<'_, A>,
    explain: bool,
    passing: &[Places],
    groups: &[u128],
) -> Result<Vec<Need>, AllocError>
    requires whole { AreAllSequences (IsPassing (search_by rules.now.judge.now)) (map items_of passing.now) }
    requires needed { All (IsNeededInSearch (search_by rules.now.judge.now)) groups.now }
    ensures groups { IfOk result (λ needs. map (λ n. n.group) needs.items ≡ groups.now) }
    ensures needs { IfOk result (λ needs.
        All (IsNeedOfSearch (search_by rules.now.judge.now) explain) needs.items) }
{
    let mut needs = Vec::with_capacity(heap, groups.len())?;
    for group in groups {
        needs.push(need_of_workloads(heap, rules, explain, passing, *group)?)?;
    }
    Ok(needs)
}

/// A group of rules of which the workloads need one, with the first workload that fails without the group, and its
/// first crash then. It fails only when out of memory.
fn need_of_workloads<A: Allocator + Copy>(
    heap: Global,
    rules: &PoolRules<'_, A>,
    explain: bool,
    passing: &[Places],
    group: u128,
) -> Result<Need, AllocError>
    requires whole { AreAllSequences (IsPassing (search_by rules.now.judge.now)) (map items_of passing.now) }
    requires needed { IsNeededInSearch (search_by rules.now.judge.now) group }
    ensures group { IfOk result (λ need. need.group ≡ group) }
    ensures need { IfOk result (IsNeedOfSearch (search_by rules.now.judge.now) explain) }
{
    let judge = rules.judge;
    let places = first_without(rules, passing, group)?;
    let workload = judge.workload_at(places)?;
    let traced = traced_of(judge, &workload)?;
    let graph = graph_but(judge, &traced, group)?;
    let demands = judge.demands(&workload)?;
    let detail = Detail {
        explain,
        demands: &demands,
    };
    let Some(first) = first_crash(heap, judge.alloc, judge.base, &graph, detail)? else {
        unreachable!();
    };
    Ok(Need {
        group,
        choices: rules_at(judge.ordering, group),
        steps: steps_at(heap, judge.pool, places)?,
        first,
    })
}
