//! Rules of which one is needed, and the first crash without them.

ghost use Rattle.std.specs.Prelude.{◌≡◌, map, IfOk};
ghost use Rattle.std.specs.List.{All};
ghost use Rattle.crash_model.specs.Tracing.{Tracing};
ghost use Rattle.enough_deciding.specs.Rules.{IsTracingOf};
ghost use Rattle.report.specs.Needed.{CannotSpareRules, IsNeedByRules};

use crate::choices::rules_at;
use crate::making::detail::Detail;
use crate::making::first::first_crash;
use crate::need::Need;
use enough_deciding::RuleOracle;
use std::alloc::{AllocError, Allocator, Global};

/// Each of these groups of rules, with the first crash by all rules but the group. It fails only when out of memory.
pub fn needs_of_rules<A: Allocator + Copy>(
    heap: Global,
    oracle: &RuleOracle<'_, A>,
    explain: bool,
    groups: &[u128],
) -> Result<Vec<Need>, AllocError>
    requires { All (CannotSpareRules oracle.now) groups.now }
    ensures groups { IfOk result (λ needs. map (λ n. n.group) needs.items ≡ groups.now) }
    ensures needs { IfOk result (λ needs. (s : Tracing) → IsTracingOf oracle.now.traced.now s
        → All (IsNeedByRules explain oracle.now s) needs.items) }
{
    let mut needs = Vec::with_capacity(heap, groups.len())?;
    for group in groups {
        needs.push(need_of_rules(heap, oracle, explain, *group)?)?;
    }
    Ok(needs)
}

/// A group of rules, and the first crash by all rules but the group, which are not enough. It fails only when out of
/// memory.
fn need_of_rules<A: Allocator + Copy>(
    heap: Global,
    oracle: &RuleOracle<'_, A>,
    explain: bool,
    group: u128,
) -> Result<Need, AllocError>
    requires { CannotSpareRules oracle.now group }
    ensures group { IfOk result (λ need. need.group ≡ group) }
    ensures need { IfOk result (λ need. (s : Tracing) → IsTracingOf oracle.now.traced.now s
        → IsNeedByRules explain oracle.now s need) }
{
    let graph = oracle.graph_without(group)?;
    let detail = Detail {
        explain,
        demands: oracle.demands,
    };
    let Some(first) = first_crash(heap, oracle.alloc, oracle.base, &graph, detail)? else {
        unreachable!();
    };
    Ok(Need {
        group,
        choices: rules_at(oracle.traced.ordering(), group),
        steps: Vec::new(heap),
        first,
    })
}
