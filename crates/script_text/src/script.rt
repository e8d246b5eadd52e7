//! Whole scripts.

ghost use Rattle.std.specs.Prelude.{◌≡◌, ◌≢◌, ◌+◌, ◌<◌, ◌≤◌, ◌^◌, length, IfOk, IfErr, IfSome};
ghost use Rattle.crash_model.specs.Script.{IsScript};
ghost use Rattle.crash_model.specs.ScriptRefusals.{IsScriptRefusal};
ghost use Rattle.script_text.specs.Parts.{IsPart, IsPartRefused};

use crate::line::{Line, read_line};
use crate::lines::first_line;
use crash_model::refusals::ScriptFault;
use crash_model::steps::Step;
use std::alloc::Allocator;

/// The steps of a script: those that build the base, and those after the start line, which are traced.
#[derive(Drop)]
pub struct Script<A: Allocator> {
    pub base: Vec<Step, A>,
    pub traced: Vec<Step, A>,
}

/// The script that the bytes spell.
///
/// It is refused at its first refused line: one that is not UTF-8, one that has none of the forms or is a second start
/// line, or one with a word that is not a path in the place of a path, in this order; then if no line is the start
/// line. Each byte is read only a few times, whatever the script.
pub fn read_script<A: Allocator + Copy>(alloc: A, bytes: &[u8]) -> Result<Script<A>, ScriptFault>
    ensures ok { IfOk result (λ script. IsScript bytes.now script.base.items script.traced.items) }
    ensures refused { IfErr result (λ fault. fault ≢ ScriptFault.OutOfMemory → IsScriptRefusal bytes.now fault) }
{
    let base = read_steps(alloc, bytes, 1)?;
    let Some(after) = base.after else {
        return Err(ScriptFault::NoStart { line: base.line });
    };
    let traced = read_steps(alloc, after, base.line + 1)?;
    if traced.after.is_some() {
        return Err(ScriptFault::BadLine { line: traced.line });
    }
    Ok(Script {
        base: base.steps,
        traced: traced.steps,
    })
}

/// The steps of lines up to a start line, or up to the end.
///
/// `line` is the number of the start line, and `after` the bytes after it; if there is none, `line` is one
/// more than the number of the last line.
#[derive(Drop)]
struct ReadSteps<'a, A: Allocator> {
    steps: Vec<Step, A>,
    line: usize,
    after: Option<&'a [u8]>,
}

/// The steps of these bytes up to a start line. The number of their first line is `first`.
fn read_steps<A: Allocator + Copy>(
    alloc: A,
    bytes: &[u8],
    first: usize,
) -> Result<ReadSteps<'_, A>, ScriptFault>
    requires { first + length bytes.now < 2 ^ 64 }
    ensures ok { IfOk result (λ part. IsPart bytes.now first part.steps.items part.line part.after) }
    ensures room { IfOk result (λ part.
        IfSome part.after (λ after. part.line + length after.now < first + length bytes.now)) }
    ensures refused { IfErr result (λ fault. fault ≢ ScriptFault.OutOfMemory → IsPartRefused bytes.now first fault) }
{
    let mut steps = Vec::new(alloc);
    let mut line = first;
    let mut rest = bytes;
    while !rest.is_empty() {
        let (text, after) = first_line(rest);
        match read_line(text) {
            Ok(Line::Skipped) => {}
            Ok(Line::Start) => {
                return Ok(ReadSteps {
                    steps,
                    line,
                    after: Some(after),
                });
            }
            Ok(Line::Says(act)) => steps.push(Step { line, act })?,
            Err(fault) => return Err(fault.at(line)),
        }
        line += 1;
        rest = after;
    }
    Ok(ReadSteps {
        steps,
        line,
        after: None,
    })
}
