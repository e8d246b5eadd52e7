//! A pool of operations, answered by the rules that all its workloads need together.

ghost use Rattle.std.specs.Prelude.{◌≡◌, ◌≢◌, ◌≤◌, ◌<◌, ◌^◌, [], length, map, string_bytes, All, IfOk, IfErr};
ghost use Rattle.std.specs.Prelude.{◌==◌, if◌then◌else◌};
ghost use Rattle.patch_sets.specs.Sets.{AreAllInOrder};
ghost use Rattle.crash_model.specs.Script.{IsAct};
ghost use Rattle.crash_model.specs.Sound.{IsSound, HasZeroJournal};
ghost use Rattle.crash_model.specs.declared.modules.Module.TheVariants.{Full};
ghost use Rattle.question_model.specs.SearchCounts.{AreSearchCounts};
ghost use Rattle.question_model.specs.Sequences.{AreAllSequences};
ghost use Rattle.question_model.specs.EnoughFor.{IsPassing, IsMinimalInSearch, IsNeededInSearch};
ghost use Rattle.workload_search.specs.Passing.{AreAllPassing};
ghost use Rattle.workload_search.specs.Tries.{items_of};
ghost use Rattle.pool_judging.specs.Judging.{search_by};
ghost use Rattle.crash_text.specs.Searching.{IsPoolRefusal};
ghost use Rattle.crash_text.specs.SearchingRules.{IsRuleSearchOf, IsRuleReportBy};

use crate::host::Host;
use crate::run::Outcome;
use crate::searching::{Pool, search_pool, steps_of};
use crate::traced_script::asked_of;
use crash_model::refusals::RunFault;
use enough_rules::EnoughSets;
use pool_judging::{PoolJudge, PoolRules};
use question_model::{Places, Request};
use report::{FoundRules, SearchHead, needs_of_workloads, sets_of_rules, written};
use std::alloc::{AllocError, Allocator};
use std::sync::Wait;
use std::thread::Threads;
use thread_jobs::{Gate, Workers};
use workload_search::{FoundWorkloads, enough_for_all};

/// Judges each workload of the pool, finds which rules those that do not fail need, and reports. The first step that is
/// no operation is refused.
pub(crate) fn searched_for_rules<R, A, G>(
    host: &Host<'_, R, A>,
    request: &Request,
    gate: &G,
    pool: &Pool<'_, A>,
) -> Result<Outcome, RunFault>
where
    R: Threads + Wait + Sync,
    A: Allocator + Copy + Send + Sync,
    G: Gate + Sync,
    requires workers { (1 ≤ request.now.workers) × (request.now.workers ≤ 16) }
    requires few { length pool.now.steps.now < 2 ^ 62 }
    requires acts { All (λ step. IsAct step.act) pool.now.steps.now }
    requires sound { IsSound pool.now.base.now × HasZeroJournal pool.now.base.now }
    ensures reported { IfOk result (λ outcome. IsRuleSearchOf request.now.settings pool.now.longest pool.now.base.now
        pool.now.steps.now (string_bytes outcome.text) outcome.number) }
    ensures refused { IfErr result (λ fault. (fault ≢ RunFault.OutOfMemory)
        → IsPoolRefusal pool.now.steps.now fault) }
    ensures full { request.now.settings.module ≡ Full → request.now.settings.without.items ≡ []
        → IfOk result (λ outcome. outcome.number ≡ 0) }
{
    let steps = steps_of(host.alloc, pool.steps)?;
    let ordering = request.settings.ordering();
    // For the proof: what holds of every image.
    let _blocks = pool.base.blocks();
    let judge = PoolJudge {
        alloc: host.alloc,
        base: pool.base,
        pool: &steps.places,
        keeps: &steps.keeps,
        longest: pool.longest,
        ordering: &ordering,
        asked: asked_of(&request.settings),
    };
    let searched = search_pool(host.rt, request.workers, gate, &judge, true)?;
    let outcome = report_on_rules(host, request, &judge, &searched)?;
    Ok(outcome)
}

/// The report on the rules that the workloads need which do not fail. It fails only when out of memory.
fn report_on_rules<R, A>(
    host: &Host<'_, R, A>,
    request: &Request,
    judge: &PoolJudge<'_, A>,
    searched: &FoundWorkloads<A>,
) -> Result<Outcome, AllocError>
where
    R: Threads + Sync,
    A: Allocator + Copy + Send + Sync,
    requires workers { (1 ≤ request.now.workers) × (request.now.workers ≤ 16) }
    requires found { AreSearchCounts (search_by judge.now) searched.now.found }
    requires passing { AreAllPassing (search_by judge.now) (map items_of searched.now.passing.items) }
    ensures report { IfOk result (λ outcome.
        IsRuleReportBy request.now.settings judge.now searched.now.found (string_bytes outcome.text)) }
    ensures number { IfOk result (λ outcome.
        outcome.number ≡ (if searched.now.found.failing == 0 then 0 else 1)) }
{
    let settings = &request.settings;
    let rules = PoolRules { judge };
    let passing = searched.passing.as_slice();
    let sets = enough_in_pool(host.rt, request.workers, &rules, passing)?;
    let needs = needs_of_workloads(host.heap, &rules, settings.explain, passing, &sets.needed)?;
    let enough = sets_of_rules(host.heap, judge.ordering, &sets.enough)?;
    let report = FoundRules {
        head: SearchHead {
            settings,
            most: judge.longest.operations(),
            pool: judge.pool.len(),
            found: &searched.found,
        },
        enough: &enough,
        needs: &needs,
    };
    Ok(Outcome {
        text: written(host.heap, &report, settings.json, settings.numbers)?,
        number: usize::from(searched.found.failing != 0),
    })
}

/// What workers find of the rules that are enough for the workloads that do not fail, which `passing` has in order. It
/// fails only when out of memory.
fn enough_in_pool<R, A>(
    rt: &R,
    number: usize,
    rules: &PoolRules<'_, A>,
    passing: &[Places],
) -> Result<EnoughSets<A>, AllocError>
where
    R: Threads + Sync,
    A: Allocator + Copy + Send + Sync,
    requires workers { (1 ≤ number) × (number ≤ 16) }
    requires whole { AreAllSequences (IsPassing (search_by rules.now.judge.now)) (map items_of passing.now) }
    ensures enough { IfOk result (λ sets.
        AreAllInOrder (IsMinimalInSearch (search_by rules.now.judge.now)) sets.enough.items) }
    ensures needed { IfOk result (λ sets.
        AreAllInOrder (IsNeededInSearch (search_by rules.now.judge.now)) sets.needed.items) }
{
    let workers = Workers {
        rt,
        alloc: rules.judge.alloc,
        number,
        gate: &(),
    };
    enough_for_all(&workers, rules, passing)
}
