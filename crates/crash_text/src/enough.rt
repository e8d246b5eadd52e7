//! A traced script, answered by which of its rules are enough, and what is reported of choices.

ghost use Rattle.std.specs.Prelude.{◌≡◌, string_bytes, IfOk};
ghost use Rattle.report.specs.Makers.{AreOnBase};
ghost use Rattle.report.specs.OnChoices.{IsEnoughReport, ShowsChoices};
ghost use Rattle.crash_text.specs.Traced.{IsReportOn, NoneFails};

use crate::host::Host;
use crate::reporting::{explained_trace, graph_head};
use crate::run::Outcome;
use crate::traced_script::TracedScript;
use crash_model::settings::Settings;
use enough_deciding::RuleOracle;
use fault_deciding::closed_number;
use report::{Choices, Detail, Enough, Need, first_crash, needs_of_rules, sets_of_rules, written};
use std::alloc::{AllocError, Allocator};

/// What is found of choices: the minimal sets that are enough, and the minimal groups of which one is needed.
#[derive(Drop)]
pub(crate) struct Chosen {
    pub enough: Vec<Choices>,
    pub needs: Vec<Need>,
}

/// Finds which rules of its ordering a traced script needs, and reports. It fails only when out of memory.
pub(crate) fn enough<'a, R, A: Allocator + Copy>(
    host: &Host<'_, R, A>,
    settings: &'a Settings,
    script: &'a TracedScript<'_, A>,
) -> Result<Outcome, AllocError>
    requires on_base { AreOnBase script.now.base.now script.now.traced.patches }
    ensures reported { IfOk result (λ outcome.
        IsReportOn (IsEnoughReport settings.now) settings.now script.now (string_bytes outcome.text)
        outcome.number) }
    ensures safe { NoneFails script.now → IfOk result (λ outcome. outcome.number ≡ 0) }
{
    let oracle = RuleOracle {
        alloc: host.alloc,
        base: script.base,
        traced: &script.traced,
        demands: &script.demands,
    };
    let found = oracle.enough_sets()?;
    let needs = needs_of_rules(host.heap, &oracle, settings.explain, &found.needed)?;
    let enough = sets_of_rules(host.heap, script.traced.ordering(), &found.enough)?;
    let outcome = report_chosen(host, settings, script, Chosen { enough, needs })?;
    Ok(outcome)
}

/// Reports what is found of choices, with the first crash that all of them together leave. It fails only when out of
/// memory.
pub(crate) fn report_chosen<'a, R, A: Allocator + Copy>(
    host: &Host<'_, R, A>,
    settings: &'a Settings,
    script: &'a TracedScript<'_, A>,
    chosen: Chosen,
) -> Result<Outcome, AllocError>
    requires on_base { AreOnBase script.now.base.now script.now.traced.patches }
    ensures reported { IfOk result (λ outcome.
        IsReportOn (ShowsChoices chosen.enough.items chosen.needs.items settings.now) settings.now script.now
        (string_bytes outcome.text) outcome.number) }
    ensures safe { NoneFails script.now → IfOk result (λ outcome. outcome.number ≡ 0) }
{
    let graph = script.traced.graph();
    let detail = Detail {
        explain: settings.explain,
        demands: &script.demands,
    };
    let first = first_crash(host.heap, host.alloc, script.base, graph, detail)?;
    let trace = explained_trace(host.heap, settings, script)?;
    let report = Enough {
        head: graph_head(settings, script, closed_number(graph), &trace),
        enough: &chosen.enough,
        needs: &chosen.needs,
        first: first.as_ref(),
    };
    Ok(Outcome {
        text: written(host.heap, &report, settings.json, settings.numbers)?,
        number: usize::from(first.is_some()),
    })
}
