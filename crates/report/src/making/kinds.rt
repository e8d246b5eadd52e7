//! Kinds of faults that workloads show, with the first crash of each.

ghost use Rattle.std.specs.Prelude.{◌≡◌, map, IfOk};
ghost use Rattle.std.specs.List.{All};
ghost use Rattle.question_model.specs.SearchCounts.{IsShown};
ghost use Rattle.pool_judging.specs.Judging.{search_by};
ghost use Rattle.report.specs.OnPools.{IsFirstOfKind};

use crate::kind::Kind;
use crate::making::detail::Detail;
use crate::making::maker::CrashMaker;
use pool_judging::{PoolJudge, steps_at, traced_of};
use question_model::ShownKind;
use std::alloc::{AllocError, Allocator, Global};

/// Each of these kinds, with the steps of the first workload that shows it, and the first crash of that workload. It
/// fails only when out of memory.
pub fn first_of_kinds<'found, A: Allocator + Copy>(
    heap: Global,
    judge: &PoolJudge<'_, A>,
    explain: bool,
    kinds: &'found [ShownKind],
) -> Result<Vec<Kind<'found>>, AllocError>
    requires { All (IsShown (search_by judge.now)) kinds.now }
    ensures shown { IfOk result (λ firsts. map (λ k. k.shown) firsts.items ≡ kinds.now) }
    ensures first { IfOk result (λ firsts. All (IsFirstOfKind (search_by judge.now) explain) firsts.items) }
{
    let mut firsts = Vec::with_capacity(heap, kinds.len())?;
    for shown in kinds {
        firsts.push(first_of_kind(heap, judge, explain, shown)?)?;
    }
    Ok(firsts)
}

/// A kind, with the steps of the first workload that shows it, and the first crash of that workload. It fails only when
/// out of memory.
fn first_of_kind<'found, A: Allocator + Copy>(
    heap: Global,
    judge: &PoolJudge<'_, A>,
    explain: bool,
    shown: &'found ShownKind,
) -> Result<Kind<'found>, AllocError>
    requires { IsShown (search_by judge.now) shown.now }
    ensures shown { IfOk result (λ kind. kind.shown ≡ shown.now) }
    ensures first { IfOk result (IsFirstOfKind (search_by judge.now) explain) }
{
    let workload = judge.workload_at(&shown.places)?;
    let traced = traced_of(judge, &workload)?;
    let graph = traced.into_graph();
    let demands = judge.demands(&workload)?;
    let detail = Detail {
        explain,
        demands: &demands,
    };
    let mut maker = CrashMaker::new(heap, judge.alloc, judge.base, &graph, detail)?;
    Ok(Kind {
        shown,
        steps: steps_at(heap, judge.pool, &shown.places)?,
        section: maker.section(shown.first)?,
    })
}
