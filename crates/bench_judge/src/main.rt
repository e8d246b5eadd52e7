//! How many sets that a crash can leave are judged a second, over the graph of the script on standard input.
//!
//! The words are those of `crashmap` itself, for a plain run; at most `--limit` sets are judged. Standard output has the
//! numbers of sets, and standard error the rate.
#![tactic(auto)]

mod rounds;
mod sets;

use command_line::settings_of;
use crash_model::settings::Settings;
use disk_image::Image;
use order_modules::{build_base, trace};
use question_model::{Question, Request, SetLimit};
use rounds::judge_rounds;
use script_text::read_script;
use sets::closed_sets;
use std::env;
use std::io::Read;
use std::test::Fail;

fn main(rt: HostRuntime) -> Result<(), Fail> {
    let heap = rt.alloc();
    let mut words = Vec::new(heap);
    for word in env::args(&rt)? {
        words.push(word)?;
    }
    let mut texts = Vec::new(heap);
    for word in words.iter().skip(1) {
        texts.push(word.as_str())?;
    }
    let request = settings_of(heap, &texts)?.request;
    let mut script = Vec::new(heap);
    rt.stdin().read_to_end(&mut script)?;
    answer(&rt, &request, &script)
}

/// Judges sets of a script if that is asked for, and does nothing for another question.
fn answer(rt: &HostRuntime, request: &Request, script: &[u8]) -> Result<(), Fail> {
    match request.question {
        Question::FailingSets(limit) => judge(rt, &request.settings, limit, script),
        _ => Ok(()),
    }
}

/// Judges at most `limit` sets of a script, as the settings order its patches.
fn judge(
    rt: &HostRuntime,
    settings: &Settings,
    limit: SetLimit,
    script: &[u8],
) -> Result<(), Fail> {
    let heap = rt.alloc();
    let script = read_script(heap, script)?;
    let mut base = Image::formatted(heap, settings.blocks, settings.journal)?;
    build_base(&mut base, &script.base)?;
    let graph = trace(heap, &base, &script.traced, &settings.ordering())?.into_graph();
    let sets = closed_sets(heap, &graph, limit.sets())?;
    judge_rounds(rt, &base, &graph, &sets)
}
