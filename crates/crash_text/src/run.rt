//! The whole product as a function.

ghost use Rattle.std.specs.Prelude.{◌≡◌, ◌≢◌, ◌≤◌, [], Ok, OnOk, IfOk, IfErr, string_bytes};
ghost use Rattle.crash_model.specs.Disk.{IsGeometry};
ghost use Rattle.crash_model.specs.Generations.{new_disk};
ghost use Rattle.crash_model.specs.Sound.{IsSound, HasZeroJournal};
ghost use Rattle.crash_model.specs.Trace.{base_from};
ghost use Rattle.crash_model.specs.declared.modules.Module.TheVariants.{Full};
ghost use Rattle.report.specs.Answers.{IsAnswerTo, Refused, Reported};
ghost use Rattle.crash_text.specs.BaseRefusal.{IsBaseRefusal};
ghost use Rattle.crash_text.specs.Traced.{RisksNothing, FindsRisksAlone};

use crate::deciding::decided;
use crate::enough::enough;
use crate::exploring::explored;
use crate::host::Host;
use crate::lines::{check_waits, enough_lines, up_to_limit};
use crate::searching::{Pool, searched};
use crate::searching_rules::searched_for_rules;
use crate::traced_script::trace_script;
use crash_model::refusals::RunFault;
use crash_model::settings::Settings;
use crash_model::steps::Step;
use disk_image::{Image, ImageFault};
use explorers::Gate;
use order_modules::build_base;
use question_model::{Question, Request};
use script_text::read_script;
use std::alloc::Allocator;
use std::sync::Wait;
use std::thread::Threads;

/// A report's text, and the number of its failing sets, or of its faults if that is the question.
///
/// If the question is which rules or lines are enough, the number is 0 if all of them together are, and otherwise 1.
/// For a search, also for one that asks for rules, it is 1 if a workload fails, and otherwise 0.
#[derive(Drop)]
pub struct Outcome {
    pub text: String,
    pub number: usize,
}

/// Answers a question about a script: reads it, builds the base, traces the rest, explores what a crash can leave, or
/// decides which faults it can leave, which rules are enough or which lines have to wait, and reports. A search takes
/// the rest as a pool, and judges each workload of it. It can also find which rules are enough for all workloads that
/// do not fail.
///
/// For every number of workers, 1 to 16, and every schedule, an answer other than out of memory is the one defined for
/// the script's bytes and the settings, without threads. The gate gets each claim of a worker on a board, and progress
/// reports. Under the full journal with no rule taken out no set fails and no fault is found, if no promise is at risk:
/// whatever the script and the rules put in, whatever else is demanded of images, and also with whole blocks. At risk
/// are the promise of a `hold`, and that of a `keep` unless a script without groups has waited for it; in a search none
/// is. If a promise is at risk, nothing else is broken: no crash leaves another fault, and each promise for which the
/// script has waited is kept.
pub fn run<R, A, G>(
    host: &Host<'_, R, A>,
    script: &[u8],
    request: &Request,
    gate: &G,
) -> Result<Outcome, RunFault>
where
    R: Threads + Wait + Sync,
    A: Allocator + Copy + Send + Sync,
    G: Gate + Sync,
    requires workers { (1 ≤ request.now.workers) × (request.now.workers ≤ 16) }
    ensures reported { IfOk result (λ outcome. IsAnswerTo request.now.question script.now request.now.settings
        (Reported (string_bytes outcome.text) outcome.number)) }
    ensures refused { IfErr result (λ fault. (fault ≢ RunFault.OutOfMemory)
        → IsAnswerTo request.now.question script.now request.now.settings (Refused fault)) }
    ensures full { request.now.settings.module ≡ Full → request.now.settings.without.items ≡ []
        → RisksNothing request.now.question script.now request.now.settings
        → IfOk result (λ outcome. outcome.number ≡ 0) }
    ensures at_risk { request.now.settings.module ≡ Full → request.now.settings.without.items ≡ []
        → IfOk result (λ _. FindsRisksAlone request.now.question script.now request.now.settings) }
{
    let read = read_script(host.alloc, script)?;
    let settings = &request.settings;
    let built = base_of(host.alloc, &read.base, settings)?;
    let base = &built;
    let steps = &read.traced;
    let ordering = settings.ordering();
    match request.question {
        Question::FailingSets(limit) => {
            let script = trace_script(host.alloc, base, steps, settings, &ordering)?;
            explored(host, request, limit, gate, &script)
        }
        Question::Decide => {
            let script = trace_script(host.alloc, base, steps, settings, &ordering)?;
            Ok(decided(host, request, &script)?)
        }
        Question::Enough => {
            let script = trace_script(host.alloc, base, steps, settings, &ordering)?;
            Ok(enough(host, settings, &script)?)
        }
        Question::EnoughLines => {
            let steps = up_to_limit(steps);
            let script = trace_script(host.alloc, base, steps, settings, &ordering)?;
            check_waits(&script)?;
            Ok(enough_lines(host, settings, &script)?)
        }
        Question::Search(longest) => {
            let pool = Pool {
                base,
                steps,
                longest,
            };
            searched(host, request, gate, &pool)
        }
        Question::SearchRules(longest) => {
            let pool = Pool {
                base,
                steps,
                longest,
            };
            searched_for_rules(host, request, gate, &pool)
        }
    }
}

/// The disk at the start line: the formatted one of the settings, after the steps before that line.
fn base_of<A: Allocator + Copy>(
    alloc: A,
    steps: &[Step],
    settings: &Settings,
) -> Result<Image<A>, RunFault>
    ensures lawful { OnOk result (IsGeometry settings.now.blocks settings.now.journal) }
    ensures built { IfOk result (λ base.
        base_from (new_disk settings.now.blocks settings.now.journal settings.now.generations) steps.now ≡ Ok base) }
    ensures sound { IfOk result (λ base. IsSound base × HasZeroJournal base) }
    ensures refused { IfErr result (λ fault. (fault ≢ RunFault.OutOfMemory)
        → IsBaseRefusal settings.now steps.now fault) }
{
    let (blocks, journal) = (settings.blocks, settings.journal);
    let mut base = match Image::formatted_with(alloc, blocks, journal, settings.generations) {
        Ok(base) => base,
        Err(ImageFault::BadGeometry) => return Err(RunFault::BadGeometry),
        Err(ImageFault::OutOfMemory) => return Err(RunFault::OutOfMemory),
    };
    build_base(&mut base, steps)?;
    Ok(base)
}
