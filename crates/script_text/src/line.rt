//! What a line says.

ghost use Rattle.std.specs.Prelude.{◌≡◌, ◌↔◌, IsTrue, MatchResult};
ghost use Rattle.crash_model.specs.Script.{IsSkipped};
ghost use Rattle.script_text.specs.Words.{SaysLine, IsLineFault, line_fault};

use crate::verb::Verb;
use crate::words::words;
use crash_model::operations::Op;
use crash_model::refusals::ScriptFault;
use crash_model::steps::Act;
use std::str;

/// What a line says: nothing, the start of the trace, or an act.
#[derive(Drop)]
pub(crate) enum Line {
    Skipped,
    Start,
    Says(Act),
}

impl Line {
    /// The line that asks for the operation.
    pub(crate) fn does(op: Op) -> Line
        ensures { result ≡ Line.Says (Act.Do op) }
    {
        Line::Says(Act::Do(op))
    }
}

/// Why a line is refused.
#[derive(Clone, Copy, Debug, PartialEq, Eq)]
pub(crate) enum LineFault {
    BadUtf8,
    BadLine,
    BadPath,
}

impl LineFault {
    /// The same refusal, of the line with this number.
    pub(crate) fn at(self, line: usize) -> ScriptFault
        ensures { result ≡ line_fault line self }
    {
        match self {
            LineFault::BadUtf8 => ScriptFault::BadUtf8 { line },
            LineFault::BadLine => ScriptFault::BadLine { line },
            LineFault::BadPath => ScriptFault::BadPath { line },
        }
    }
}

/// What the line says.
pub(crate) fn read_line(line: &[u8]) -> Result<Line, LineFault>
    ensures { MatchResult result (SaysLine line.now) (IsLineFault line.now) }
{
    let Ok(text) = str::from_utf8(line) else {
        return Err(LineFault::BadUtf8);
    };
    if says_nothing(text) {
        return Ok(Line::Skipped);
    }
    let Some(words) = words(text) else {
        return Err(LineFault::BadLine);
    };
    let [first, operands @ ..] = words.as_slice() else {
        return Err(LineFault::BadLine);
    };
    let Some(verb) = Verb::read(first) else {
        return Err(LineFault::BadLine);
    };
    verb.line(operands)
}

/// Whether the text is empty or a comment.
fn says_nothing(text: &str) -> bool
    ensures { IsTrue result ↔ IsSkipped text.now }
{
    matches!(text.as_bytes(), [] | [b'#', ..])
}
