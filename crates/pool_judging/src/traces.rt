//! Traces of workloads of a pool, asked about the rules of its ordering.

ghost use Rattle.std.specs.Prelude.{◌<◌, IfOk};
ghost use Rattle.std.specs.List.{All};
ghost use Rattle.patch_sets.specs.Sets.{IsSubset};
ghost use Rattle.question_model.specs.Enough.{rules_but};
ghost use Rattle.enough_rules.specs.Asked.{IsFound};
ghost use Rattle.chosen_rules.specs.Sublists.{EnoughOf, all_of};
ghost use Rattle.enough_deciding.specs.Rules.{IsGraphBy, tracing_of};
ghost use Rattle.pool_judging.specs.Judging.{search_by};
ghost use Rattle.pool_judging.specs.Traces.{IsTraced, IsTraceOf, IsAnswerBy};

use crate::PoolJudge;
use crash_model::refusals::TraceFault;
use crash_model::steps::Step;
use disk_image::Demands;
use enough_deciding::RuleOracle;
use enough_rules::Oracle;
use fault_deciding::Decider;
use order_modules::trace;
use patch_graph::Graph;
use std::alloc::{AllocError, Allocator};
use traced_patches::Traced;

/// The patches of some steps, none of which is refused, with what each of them is. It fails only when out of memory.
pub fn traced_of<'a, A: Allocator + Copy>(
    judge: &PoolJudge<'a, A>,
    steps: &'a [Step],
) -> Result<Traced<'a, A>, AllocError>
    requires { ∥ IsTraced (search_by judge.now) steps.now ∥₁ }
    ensures traced { IfOk result (IsTraceOf (search_by judge.now) steps.now) }
    ensures fits { IfOk result (λ t. All (λ patch. patch.block < judge.now.base.now.blocks) t.patches) }
{
    match trace(judge.alloc, judge.base, steps, judge.ordering) {
        Ok(traced) => Ok(traced),
        Err(fault) => match fault {
            TraceFault::OutOfMemory => Err(AllocError),
            _ => unreachable!(),
        },
    }
}

/// A group of rules of which the set has none and each set that is enough for the patches has one, or `None` where the
/// set is enough for them, by what is demanded of images. It fails only when out of memory.
pub(crate) fn blocking_in<A: Allocator + Copy>(
    judge: &PoolJudge<'_, A>,
    traced: &Traced<'_, A>,
    demands: &Demands<A>,
    set: u128,
) -> Result<Option<u128>, AllocError>
    requires fits { All (λ patch. patch.block < judge.now.base.now.blocks) traced.now.patches }
    requires within { IsSubset set (all_of traced.now.rules) }
    ensures { IfOk result (IsFound (all_of traced.now.rules) (EnoughOf demands.now judge.now.base.now
        (tracing_of judge.now.base.now traced.now) traced.now.rules) set) }
{
    let oracle = RuleOracle {
        alloc: judge.alloc,
        base: judge.base,
        traced,
        demands,
    };
    let found = oracle.blocking(set)?;
    Ok(found)
}

/// Whether a set of the patches by all rules but those of a group fails, by what is demanded of images. It fails only
/// when out of memory.
pub(crate) fn fails_in<A: Allocator + Copy>(
    judge: &PoolJudge<'_, A>,
    traced: &Traced<'_, A>,
    demands: &Demands<A>,
    group: u128,
) -> Result<bool, AllocError>
    requires { All (λ patch. patch.block < judge.now.base.now.blocks) traced.now.patches }
    ensures { IfOk result (IsAnswerBy demands.now judge.now.base.now traced.now (rules_but traced.now.rules group)) }
{
    let graph = graph_but(judge, traced, group)?;
    let decider = Decider {
        alloc: judge.alloc,
        base: judge.base,
        graph: &graph,
        demands,
    };
    let fails = decider.any_fails()?;
    Ok(fails)
}

/// The patches by all rules but those of a group. It fails only when out of memory.
pub fn graph_but<A: Allocator + Copy>(
    judge: &PoolJudge<'_, A>,
    traced: &Traced<'_, A>,
    group: u128,
) -> Result<Graph<A>, AllocError>
    requires { All (λ patch. patch.block < judge.now.base.now.blocks) traced.now.patches }
    ensures graph { IfOk result (IsGraphBy (rules_but traced.now.rules group) judge.now.base.now traced.now) }
    ensures fits { IfOk result (λ graph. All (λ patch. patch.block < judge.now.base.now.blocks) graph) }
{
    // What is demanded of images changes no patch.
    let nothing = Demands::none();
    let oracle = RuleOracle {
        alloc: judge.alloc,
        base: judge.base,
        traced,
        demands: &nothing,
    };
    let graph = oracle.graph_without(group)?;
    Ok(graph)
}
