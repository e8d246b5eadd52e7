//! The first word of a line.

ghost use Rattle.std.specs.Prelude.{◌≡◌, ◌∷◌, map, MatchOption, MatchResult};
ghost use Rattle.script_text.specs.Words.{spelling, operands_of, IsNoVerb, SaysWords, IsOperandFault};

use crate::line::{Line, LineFault};
use crate::operands;
use crash_model::operations::Op;
use crash_model::steps::Act;

/// What a line asks for, by its first word.
#[derive(Clone, Copy, Debug, PartialEq, Eq)]
pub(crate) enum Verb {
    Create,
    Write,
    Link,
    Unlink,
    Rename,
    Mkdir,
    Rmdir,
    Overwrite,
    Truncate,
    Replace,
    Group,
    End,
    Depend,
    Sync,
    Fsync,
    Keep,
    Hold,
    Spare,
    Start,
}

impl Verb {
    /// The verb with this spelling, if there is one.
    pub(crate) fn read(word: &str) -> Option<Verb>
        ensures { MatchOption result (IsNoVerb word.now) (λ verb. word.now ≡ spelling verb) }
    {
        match word {
            "create" => Some(Verb::Create),
            "write" => Some(Verb::Write),
            "link" => Some(Verb::Link),
            "unlink" => Some(Verb::Unlink),
            "rename" => Some(Verb::Rename),
            "mkdir" => Some(Verb::Mkdir),
            "rmdir" => Some(Verb::Rmdir),
            "overwrite" => Some(Verb::Overwrite),
            "truncate" => Some(Verb::Truncate),
            "replace" => Some(Verb::Replace),
            "group" => Some(Verb::Group),
            "end" => Some(Verb::End),
            "depend" => Some(Verb::Depend),
            "sync" => Some(Verb::Sync),
            "fsync" => Some(Verb::Fsync),
            "keep" => Some(Verb::Keep),
            "hold" => Some(Verb::Hold),
            "spare" => Some(Verb::Spare),
            "start" => Some(Verb::Start),
            _ => None,
        }
    }

    /// What a line says that has this first word and these others.
    pub(crate) fn line(self, operands: &[&str]) -> Result<Line, LineFault>
        ensures { MatchResult result (SaysWords (spelling self ∷ map (λ word. word.now) operands.now))
            (IsOperandFault (operands_of self) (map (λ word. word.now) operands.now)) }
    {
        Ok(match self {
            Verb::Create => Line::does(Op::Create(operands::path(operands)?)),
            Verb::Write => Line::does(Op::Write(operands::path(operands)?)),
            Verb::Link => {
                let (old, new) = operands::two_paths(operands)?;
                Line::does(Op::Link(old, new))
            }
            Verb::Unlink => Line::does(Op::Unlink(operands::path(operands)?)),
            Verb::Rename => {
                let (old, new) = operands::two_paths(operands)?;
                Line::does(Op::Rename(old, new))
            }
            Verb::Mkdir => Line::does(Op::Mkdir(operands::path(operands)?)),
            Verb::Rmdir => Line::does(Op::Rmdir(operands::path(operands)?)),
            Verb::Overwrite => {
                let (path, slot) = operands::path_and_slot(operands)?;
                Line::does(Op::Overwrite(path, slot))
            }
            Verb::Truncate => Line::does(Op::Truncate(operands::path(operands)?)),
            Verb::Replace => {
                let (old, new) = operands::two_paths(operands)?;
                Line::does(Op::Replace(old, new))
            }
            Verb::Group => Line::Says(Act::Group(operands::group(operands)?)),
            Verb::End => {
                operands::none(operands)?;
                Line::Says(Act::End)
            }
            Verb::Depend => {
                let (later, earlier) = operands::two_groups(operands)?;
                Line::Says(Act::Depend(later, earlier))
            }
            Verb::Sync => {
                operands::none(operands)?;
                Line::Says(Act::Sync)
            }
            Verb::Fsync => Line::Says(Act::Fsync(operands::target(operands)?)),
            Verb::Keep => Line::Says(Act::Keep(operands::paths(operands)?)),
            Verb::Hold => Line::Says(Act::Hold(operands::path(operands)?)),
            Verb::Spare => {
                let (path, other) = operands::two_paths(operands)?;
                Line::Says(Act::Spare(path, other))
            }
            Verb::Start => {
                operands::none(operands)?;
                Line::Start
            }
        })
    }
}
