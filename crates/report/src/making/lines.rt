//! Lines that wait of which one is needed, and the first crash if they do not.

ghost use Rattle.std.specs.Prelude.{◌≡◌, map, IfOk};
ghost use Rattle.std.specs.List.{All};
ghost use Rattle.crash_model.specs.Tracing.{Tracing};
ghost use Rattle.enough_deciding.specs.Lines.{HasWaits};
ghost use Rattle.report.specs.Needed.{CannotSpareLines, IsNeedByLines};

use crate::choices::lines_at;
use crate::making::detail::Detail;
use crate::making::first::first_crash;
use crate::need::Need;
use enough_deciding::LineOracle;
use std::alloc::{AllocError, Allocator, Global};

/// Each of these groups of lines, with the first crash if all lines but the group wait. It fails only when out of
/// memory.
pub fn needs_of_lines<A: Allocator + Copy>(
    heap: Global,
    oracle: &LineOracle<'_, A>,
    explain: bool,
    groups: &[u128],
) -> Result<Vec<Need>, AllocError>
    requires { All (CannotSpareLines oracle.now) groups.now }
    ensures groups { IfOk result (λ needs. map (λ n. n.group) needs.items ≡ groups.now) }
    ensures needs { IfOk result (λ needs. (s : Tracing) → HasWaits oracle.now.traced.now s
        → All (IsNeedByLines explain oracle.now s) needs.items) }
{
    let mut needs = Vec::with_capacity(heap, groups.len())?;
    for group in groups {
        needs.push(need_of_lines(heap, oracle, explain, *group)?)?;
    }
    Ok(needs)
}

/// A group of lines, and the first crash if all lines but the group wait, which is not enough. It fails only when out
/// of memory.
fn need_of_lines<A: Allocator + Copy>(
    heap: Global,
    oracle: &LineOracle<'_, A>,
    explain: bool,
    group: u128,
) -> Result<Need, AllocError>
    requires { CannotSpareLines oracle.now group }
    ensures group { IfOk result (λ need. need.group ≡ group) }
    ensures need { IfOk result (λ need. (s : Tracing) → HasWaits oracle.now.traced.now s
        → IsNeedByLines explain oracle.now s need) }
{
    let script = oracle.without(group)?;
    let detail = Detail {
        explain,
        demands: &script.demands,
    };
    let Some(first) = first_crash(heap, oracle.alloc, oracle.base, &script.graph, detail)? else {
        unreachable!();
    };
    Ok(Need {
        group,
        choices: lines_at(oracle.traced.waits(), group),
        steps: Vec::new(heap),
        first,
    })
}
