//! A pool of operations, answered by a search for workloads that fail.

ghost use Rattle.std.specs.Prelude.{◌≡◌, ◌≢◌, ◌≤◌, ◌<◌, ◌^◌, [], true, length, map, string_bytes, All, IfOk, IfErr};
ghost use Rattle.std.specs.Prelude.{◌==◌, if◌then◌else◌};
ghost use Rattle.crash_model.specs.Script.{IsAct};
ghost use Rattle.crash_model.specs.Sound.{IsSound, HasZeroJournal};
ghost use Rattle.crash_model.specs.declared.modules.Module.TheVariants.{Full};
ghost use Rattle.question_model.specs.SearchCounts.{AreSearchCounts};
ghost use Rattle.workload_search.specs.Passing.{AreAllPassing};
ghost use Rattle.workload_search.specs.Tries.{items_of};
ghost use Rattle.pool_judging.specs.Judging.{search_by};
ghost use Rattle.pool_judging.specs.Pools.{IsPoolOf};
ghost use Rattle.crash_text.specs.Searching.{IsPoolRefusal, IsSearchOf, IsReportBy};

use crate::host::Host;
use crate::run::Outcome;
use crate::traced_script::asked_of;
use crash_model::refusals::RunFault;
use crash_model::settings::Settings;
use crash_model::steps::Step;
use disk_image::Image;
use pool_judging::{PoolJudge, PoolSteps, pool_of};
use question_model::{Request, SearchCounts, WorkloadLength};
use report::{FoundKinds, SearchHead, first_of_kinds, written};
use std::alloc::{AllocError, Allocator};
use std::sync::Wait;
use std::thread::Threads;
use thread_jobs::{Gate, Workers};
use workload_search::{FoundWorkloads, search};

/// The steps of a script as a pool over a base, and how many operations its longest workloads have.
#[derive(Drop)]
pub(crate) struct Pool<'script, A: Allocator + Copy> {
    pub base: &'script Image<A>,
    pub steps: &'script [Step],
    pub longest: WorkloadLength,
}

/// Judges each workload of the pool, and reports. The first step that no pool has is refused.
pub(crate) fn searched<R, A, G>(
    host: &Host<'_, R, A>,
    request: &Request,
    gate: &G,
    pool: &Pool<'_, A>,
) -> Result<Outcome, RunFault>
where
    R: Threads + Wait + Sync,
    A: Allocator + Copy + Send + Sync,
    G: Gate + Sync,
    requires workers { (1 ≤ request.now.workers) × (request.now.workers ≤ 16) }
    requires few { length pool.now.steps.now < 2 ^ 62 }
    requires acts { All (λ step. IsAct step.act) pool.now.steps.now }
    requires sound { IsSound pool.now.base.now × HasZeroJournal pool.now.base.now }
    ensures reported { IfOk result (λ outcome. IsSearchOf request.now.settings pool.now.longest pool.now.base.now
        pool.now.steps.now (string_bytes outcome.text) outcome.number) }
    ensures refused { IfErr result (λ fault. (fault ≢ RunFault.OutOfMemory)
        → IsPoolRefusal pool.now.steps.now fault) }
    ensures full { request.now.settings.module ≡ Full → request.now.settings.without.items ≡ []
        → IfOk result (λ outcome. outcome.number ≡ 0) }
{
    let steps = steps_of(host.alloc, pool.steps)?;
    let ordering = request.settings.ordering();
    // For the proof: what holds of every image.
    let _blocks = pool.base.blocks();
    let judge = PoolJudge {
        alloc: host.alloc,
        base: pool.base,
        pool: &steps.places,
        keeps: &steps.keeps,
        longest: pool.longest,
        ordering: &ordering,
        asked: asked_of(&request.settings),
    };
    let searched = search_pool(host.rt, request.workers, gate, &judge, false)?;
    let outcome = report_on(host, &request.settings, &judge, &searched.found)?;
    Ok(outcome)
}

/// What workers find of the workloads of a judge's pool. If `keeps`, those that do not fail are kept. It fails only
/// when out of memory.
pub(crate) fn search_pool<R, A, G>(
    rt: &R,
    number: usize,
    gate: &G,
    judge: &PoolJudge<'_, A>,
    keeps: bool,
) -> Result<FoundWorkloads<A>, AllocError>
where
    R: Threads + Sync,
    A: Allocator + Copy + Send + Sync,
    G: Gate + Sync,
    requires workers { (1 ≤ number) × (number ≤ 16) }
    requires few { length judge.now.pool.now < 2 ^ 62 }
    ensures found { IfOk result (λ searched. AreSearchCounts (search_by judge.now) searched.found) }
    ensures passing { IfOk result (λ searched. keeps ≡ true
        → AreAllPassing (search_by judge.now) (map items_of searched.passing.items)) }
{
    let workers = Workers {
        rt,
        alloc: judge.alloc,
        number,
        gate,
    };
    search(
        &workers,
        judge,
        judge.pool.len(),
        judge.longest.operations(),
        keeps,
    )
}

/// The report on what is found. It fails only when out of memory.
fn report_on<R, A: Allocator + Copy>(
    host: &Host<'_, R, A>,
    settings: &Settings,
    judge: &PoolJudge<'_, A>,
    found: &SearchCounts,
) -> Result<Outcome, AllocError>
    requires found { AreSearchCounts (search_by judge.now) found.now }
    ensures report { IfOk result (λ outcome. IsReportBy settings.now judge.now found.now (string_bytes outcome.text)) }
    ensures number { IfOk result (λ outcome. outcome.number ≡ (if found.now.failing == 0 then 0 else 1)) }
{
    let kinds = first_of_kinds(host.heap, judge, settings.explain, found.kinds.as_slice())?;
    let report = FoundKinds {
        head: SearchHead {
            settings,
            most: judge.longest.operations(),
            pool: judge.pool.len(),
            found,
        },
        kinds: &kinds,
    };
    Ok(Outcome {
        text: written(host.heap, &report, settings.json, settings.numbers)?,
        number: usize::from(found.failing != 0),
    })
}

/// The steps as a pool. The first step that no pool has is refused.
pub(crate) fn steps_of<A: Allocator + Copy>(
    alloc: A,
    steps: &[Step],
) -> Result<PoolSteps<A>, RunFault>
    ensures pool { IfOk result (IsPoolOf steps.now) }
    ensures refused { IfErr result (λ fault. (fault ≢ RunFault.OutOfMemory) → IsPoolRefusal steps.now fault) }
{
    match pool_of(alloc, steps)? {
        Ok(pool) => Ok(pool),
        Err(line) => Err(RunFault::GroupFault { line }),
    }
}
