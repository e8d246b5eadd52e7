//! The steps of a script.

use crate::names::{GroupName, Path};
use crate::operations::Op;
use crate::promises::Paths;
use std::fmt;

/// What a line of a script asks for.
///
/// `Depend(b, a)` makes each patch that group b gets depend on every patch of group a. `Sync` and `Fsync` wait until
/// patches are on the disk. `Keep` promises that its one to four paths together show what they show here or at a later
/// rest, `Hold` that its path shows what it shows here. `Spare(p, q)` lets what q shows here stand in for p.
#[derive(Drop)]
pub enum Act {
    Do(Op),
    Group(GroupName),
    End,
    Depend(GroupName, GroupName),
    Sync,
    Fsync(Target),
    Keep(Paths),
    Hold(Path),
    Spare(Path, Path),
}

/// What an fsync names: the root directory, or a path.
#[derive(Drop)]
pub enum Target {
    Root,
    At(Path),
}

/// An act with the number of its line, from 1.
#[derive(Drop)]
pub struct Step {
    pub line: usize,
    pub act: Act,
}

impl fmt::Display for Target {
    ghost use Rattle.std.specs.Prelude.{Some};
    ghost use Rattle.crash_model.specs.Targets.{target_text};

    ghost output = { λ target. Some (target_text target) };

    fn fmt<W: fmt::Write>(&self, f: &mut fmt::Formatter<W>) -> fmt::Result {
        match self {
            Target::Root => write!(f, "/"),
            Target::At(path) => write!(f, "{path}"),
        }
    }
}

/// Paths, each after a space.
#[derive(Drop)]
struct PathWords<'a> {
    paths: &'a [Path],
}

impl fmt::Display for PathWords<'_> {
    ghost use Rattle.std.specs.Prelude.{Some, ◌∷◌};
    ghost use Rattle.std.specs.List.{flat_map};
    ghost use Rattle.crash_model.specs.PathTexts.{path_text};

    ghost output = { λ words. Some (flat_map (λ path. 32 ∷ path_text path) words.paths.now) };

    fn fmt<W: fmt::Write>(&self, f: &mut fmt::Formatter<W>) -> fmt::Result {
        for path in self.paths {
            write!(f, " {path}")?;
        }
        Ok(())
    }
}

impl fmt::Display for Act {
    ghost use Rattle.std.specs.Prelude.{Some};
    ghost use Rattle.crash_model.specs.PatchTexts.{act_text};

    ghost output = { λ act. Some (act_text act) };

    fn fmt<W: fmt::Write>(&self, f: &mut fmt::Formatter<W>) -> fmt::Result {
        match self {
            Act::Do(op) => write!(f, "{op}"),
            Act::Group(name) => {
                let name = name.as_str();
                write!(f, "group {name}")
            }
            Act::End => write!(f, "end"),
            Act::Depend(later, earlier) => {
                let (later, earlier) = (later.as_str(), earlier.as_str());
                write!(f, "depend {later} {earlier}")
            }
            Act::Sync => write!(f, "sync"),
            Act::Fsync(target) => write!(f, "fsync {target}"),
            Act::Keep(paths) => {
                let words = PathWords {
                    paths: paths.as_slice(),
                };
                write!(f, "keep{words}")
            }
            Act::Hold(path) => write!(f, "hold {path}"),
            Act::Spare(path, other) => write!(f, "spare {path} {other}"),
        }
    }
}
