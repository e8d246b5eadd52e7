//! Refusals. Each has a number, a name and a text; its `Display` writes the number, a space and the text.
//!
//! Numbers and texts are in `RunFault`, but for those of an operation, which are `Refusal`'s, and for two that the
//! explorers have, too: these are `ExploreFault`'s. The fault of a single layer is displayed as the run's refusal that
//! it becomes.

ghost use Rattle.std.specs.Prelude.{◌≡◌, ℕ, Some, None};
ghost use Rattle.crash_model.specs.RefusalLine.{line_of};
ghost use Rattle.crash_model.specs.Refusals.{trace_fault};

use crate::refusal::Refusal;
use patch_sets::explored::ExploreFault;
use std::alloc::{AllocError, AllocFailed};
use std::fmt::{self, Display};
use thiserror::Error;

/// Why an operation is refused on an image.
#[derive(Clone, Copy, Debug, PartialEq, Eq, Error)]
pub enum FsFault {
    NotFound,
    NotADirectory,
    Exists,
    NotAFile,
    NotEmpty,
    NoInode,
    NoBlock,
    DirectoryFull,
    FileFull,
    LinksFull,
}

impl FsFault {
    /// The same refusal, of a step on this line.
    pub fn at_line(self, line: usize) -> TraceFault
        ensures { result ≡ trace_fault line self }
    {
        match self {
            FsFault::NotFound => TraceFault::NotFound { line },
            FsFault::NotADirectory => TraceFault::NotADirectory { line },
            FsFault::Exists => TraceFault::Exists { line },
            FsFault::NotAFile => TraceFault::NotAFile { line },
            FsFault::NotEmpty => TraceFault::NotEmpty { line },
            FsFault::NoInode => TraceFault::NoInode { line },
            FsFault::NoBlock => TraceFault::NoBlock { line },
            FsFault::DirectoryFull => TraceFault::DirectoryFull { line },
            FsFault::FileFull => TraceFault::FileFull { line },
            FsFault::LinksFull => TraceFault::LinksFull { line },
        }
    }
}

impl fmt::Display for FsFault {
    fn fmt<W: fmt::Write>(&self, f: &mut fmt::Formatter<W>) -> fmt::Result {
        write!(f, "{}", self.at_line(0))
    }
}

/// Why a step is refused, and its line, from 1; or out of memory.
#[derive(Clone, Copy, PartialEq, Eq, Error)]
pub enum TraceFault {
    TooManyPatches { line: usize },
    NotFound { line: usize },
    NotADirectory { line: usize },
    Exists { line: usize },
    NotAFile { line: usize },
    NotEmpty { line: usize },
    NoInode { line: usize },
    NoBlock { line: usize },
    DirectoryFull { line: usize },
    FileFull { line: usize },
    LinksFull { line: usize },
    JournalFull { line: usize },
    GroupFault { line: usize },
    OnlyAfterStart { line: usize },
    OutOfMemory,
}

impl fmt::Debug for TraceFault {
    fn fmt<W: fmt::Write>(&self, f: &mut fmt::Formatter<W>) -> fmt::Result {
        write!(f, "{:?}", RunFault::from(*self))
    }
}

impl fmt::Display for TraceFault {
    fn fmt<W: fmt::Write>(&self, f: &mut fmt::Formatter<W>) -> fmt::Result {
        write!(f, "{}", RunFault::from(*self))
    }
}

/// Why a script is refused, and the first refused line, from 1; or out of memory.
///
/// A script without a start line is refused at the number of its lines plus 1.
#[derive(Clone, Copy, PartialEq, Eq, Error)]
pub enum ScriptFault {
    BadUtf8 { line: usize },
    BadLine { line: usize },
    BadPath { line: usize },
    NoStart { line: usize },
    OutOfMemory,
}

impl fmt::Debug for ScriptFault {
    fn fmt<W: fmt::Write>(&self, f: &mut fmt::Formatter<W>) -> fmt::Result {
        write!(f, "{:?}", RunFault::from(*self))
    }
}

impl fmt::Display for ScriptFault {
    fn fmt<W: fmt::Write>(&self, f: &mut fmt::Formatter<W>) -> fmt::Result {
        write!(f, "{}", RunFault::from(*self))
    }
}

/// Why a run is refused: a variant for each refusal of the product.
#[derive(Clone, Copy, PartialEq, Eq, Error)]
pub enum RunFault {
    BadGeometry,
    TooManyPatches { line: usize },
    NotFound { line: usize },
    NotADirectory { line: usize },
    Exists { line: usize },
    NotAFile { line: usize },
    NotEmpty { line: usize },
    NoInode { line: usize },
    NoBlock { line: usize },
    DirectoryFull { line: usize },
    FileFull { line: usize },
    LinksFull { line: usize },
    JournalFull { line: usize },
    GroupFault { line: usize },
    OnlyAfterStart { line: usize },
    TooManySyncs { line: usize },
    TooMany,
    BadUtf8 { line: usize },
    BadLine { line: usize },
    BadPath { line: usize },
    NoStart { line: usize },
    CannotRead,
    CannotWrite,
    ScriptTooLong,
    OutOfMemory,
}

impl RunFault {
    /// The number of the line that is refused, from 1, if the refusal has one.
    pub fn line(&self) -> Option<usize>
        ensures { result ≡ line_of self.now }
    {
        match *self {
            RunFault::TooManyPatches { line }
            | RunFault::NotFound { line }
            | RunFault::NotADirectory { line }
            | RunFault::Exists { line }
            | RunFault::NotAFile { line }
            | RunFault::NotEmpty { line }
            | RunFault::NoInode { line }
            | RunFault::NoBlock { line }
            | RunFault::DirectoryFull { line }
            | RunFault::FileFull { line }
            | RunFault::LinksFull { line }
            | RunFault::JournalFull { line }
            | RunFault::GroupFault { line }
            | RunFault::OnlyAfterStart { line }
            | RunFault::TooManySyncs { line }
            | RunFault::BadUtf8 { line }
            | RunFault::BadLine { line }
            | RunFault::BadPath { line }
            | RunFault::NoStart { line } => Some(line),
            _ => None,
        }
    }
}

impl fmt::Debug for RunFault {
    fn fmt<W: fmt::Write>(&self, f: &mut fmt::Formatter<W>) -> fmt::Result {
        let line = self.line();
        write!(f, "RunFault({self}, line {line:?})")
    }
}

impl fmt::Display for RunFault {
    fn fmt<W: fmt::Write>(&self, f: &mut fmt::Formatter<W>) -> fmt::Result {
        match *self {
            RunFault::BadGeometry => f.write_str("1 bad geometry"),
            RunFault::TooManyPatches { .. } => Refusal::TooManyPatches.fmt(f),
            RunFault::NotFound { .. } => Refusal::NotFound.fmt(f),
            RunFault::NotADirectory { .. } => Refusal::NotADirectory.fmt(f),
            RunFault::Exists { .. } => Refusal::Exists.fmt(f),
            RunFault::NotAFile { .. } => Refusal::NotAFile.fmt(f),
            RunFault::NotEmpty { .. } => Refusal::NotEmpty.fmt(f),
            RunFault::NoInode { .. } => Refusal::NoInode.fmt(f),
            RunFault::NoBlock { .. } => Refusal::NoBlock.fmt(f),
            RunFault::DirectoryFull { .. } => Refusal::DirectoryFull.fmt(f),
            RunFault::FileFull { .. } => Refusal::FileFull.fmt(f),
            RunFault::LinksFull { .. } => Refusal::LinksFull.fmt(f),
            RunFault::JournalFull { .. } => Refusal::JournalFull.fmt(f),
            RunFault::GroupFault { .. } => f.write_str("21 group fault"),
            RunFault::OnlyAfterStart { .. } => f.write_str("22 only after start"),
            RunFault::TooManySyncs { .. } => f.write_str("23 too many syncs"),
            RunFault::TooMany => ExploreFault::TooMany.fmt(f),
            RunFault::BadUtf8 { .. } => f.write_str("40 not UTF-8"),
            RunFault::BadLine { .. } => f.write_str("41 bad line"),
            RunFault::BadPath { .. } => f.write_str("42 bad path"),
            RunFault::NoStart { .. } => f.write_str("43 no start line"),
            RunFault::CannotRead => f.write_str("50 cannot read the script"),
            RunFault::CannotWrite => f.write_str("51 cannot write the report"),
            RunFault::ScriptTooLong => f.write_str("52 script too long"),
            RunFault::OutOfMemory => ExploreFault::OutOfMemory.fmt(f),
        }
    }
}

impl From<ExploreFault> for RunFault {
    ghost use Rattle.std.specs.Prelude.{◌≡◌};
    ghost use Rattle.crash_model.specs.ExploreRefusals.{run_of_explore};

    ghost from_gives = { λ fault run_fault. run_fault ≡ run_of_explore fault };

    fn from(fault: ExploreFault) -> RunFault {
        match fault {
            ExploreFault::TooMany => RunFault::TooMany,
            ExploreFault::OutOfMemory => RunFault::OutOfMemory,
        }
    }
}

impl From<ScriptFault> for RunFault {
    ghost use Rattle.std.specs.Prelude.{◌≡◌};
    ghost use Rattle.crash_model.specs.Refusals.{run_of_script};

    ghost from_gives = { λ fault run_fault. run_fault ≡ run_of_script fault };

    fn from(fault: ScriptFault) -> RunFault {
        match fault {
            ScriptFault::BadUtf8 { line } => RunFault::BadUtf8 { line },
            ScriptFault::BadLine { line } => RunFault::BadLine { line },
            ScriptFault::BadPath { line } => RunFault::BadPath { line },
            ScriptFault::NoStart { line } => RunFault::NoStart { line },
            ScriptFault::OutOfMemory => RunFault::OutOfMemory,
        }
    }
}

impl From<TraceFault> for RunFault {
    ghost use Rattle.std.specs.Prelude.{◌≡◌};
    ghost use Rattle.crash_model.specs.Refusals.{run_of_trace};

    ghost from_gives = { λ fault run_fault. run_fault ≡ run_of_trace fault };

    fn from(fault: TraceFault) -> RunFault {
        match fault {
            TraceFault::TooManyPatches { line } => RunFault::TooManyPatches { line },
            TraceFault::NotFound { line } => RunFault::NotFound { line },
            TraceFault::NotADirectory { line } => RunFault::NotADirectory { line },
            TraceFault::Exists { line } => RunFault::Exists { line },
            TraceFault::NotAFile { line } => RunFault::NotAFile { line },
            TraceFault::NotEmpty { line } => RunFault::NotEmpty { line },
            TraceFault::NoInode { line } => RunFault::NoInode { line },
            TraceFault::NoBlock { line } => RunFault::NoBlock { line },
            TraceFault::DirectoryFull { line } => RunFault::DirectoryFull { line },
            TraceFault::FileFull { line } => RunFault::FileFull { line },
            TraceFault::LinksFull { line } => RunFault::LinksFull { line },
            TraceFault::JournalFull { line } => RunFault::JournalFull { line },
            TraceFault::GroupFault { line } => RunFault::GroupFault { line },
            TraceFault::OnlyAfterStart { line } => RunFault::OnlyAfterStart { line },
            TraceFault::OutOfMemory => RunFault::OutOfMemory,
        }
    }
}

impl From<AllocError> for TraceFault {
    ghost use Rattle.std.specs.Prelude.{◌≡◌};
    ghost use Rattle.crash_model.specs.declared.refusals.TraceFault.TheVariants.{OutOfMemory};

    ghost from_gives = { λ _ fault. fault ≡ OutOfMemory };

    fn from(_error: AllocError) -> TraceFault {
        TraceFault::OutOfMemory
    }
}

impl<T: Drop> From<AllocFailed<T>> for TraceFault {
    ghost use Rattle.std.specs.Prelude.{◌≡◌};
    ghost use Rattle.crash_model.specs.declared.refusals.TraceFault.TheVariants.{OutOfMemory};

    ghost from_gives = { λ _ fault. fault ≡ OutOfMemory };

    fn from(_error: AllocFailed<T>) -> TraceFault {
        TraceFault::OutOfMemory
    }
}

impl From<AllocError> for ScriptFault {
    ghost use Rattle.std.specs.Prelude.{◌≡◌};
    ghost use Rattle.crash_model.specs.declared.refusals.ScriptFault.TheVariants.{OutOfMemory};

    ghost from_gives = { λ _ fault. fault ≡ OutOfMemory };

    fn from(_error: AllocError) -> ScriptFault {
        ScriptFault::OutOfMemory
    }
}

impl<T: Drop> From<AllocFailed<T>> for ScriptFault {
    ghost use Rattle.std.specs.Prelude.{◌≡◌};
    ghost use Rattle.crash_model.specs.declared.refusals.ScriptFault.TheVariants.{OutOfMemory};

    ghost from_gives = { λ _ fault. fault ≡ OutOfMemory };

    fn from(_error: AllocFailed<T>) -> ScriptFault {
        ScriptFault::OutOfMemory
    }
}

impl From<AllocError> for RunFault {
    ghost use Rattle.std.specs.Prelude.{◌≡◌};
    ghost use Rattle.crash_model.specs.declared.refusals.RunFault.TheVariants.{OutOfMemory};

    ghost from_gives = { λ _ fault. fault ≡ OutOfMemory };

    fn from(_error: AllocError) -> RunFault {
        RunFault::OutOfMemory
    }
}

impl<T: Drop> From<AllocFailed<T>> for RunFault {
    ghost use Rattle.std.specs.Prelude.{◌≡◌};
    ghost use Rattle.crash_model.specs.declared.refusals.RunFault.TheVariants.{OutOfMemory};

    ghost from_gives = { λ _ fault. fault ≡ OutOfMemory };

    fn from(_error: AllocFailed<T>) -> RunFault {
        RunFault::OutOfMemory
    }
}
