//! Why an operation is refused: the number and the text of each refusal of a step.

ghost use Rattle.std.specs.Prelude.{◌≡◌, ◌-◌, ◌<◌};
ghost use Rattle.crash_model.specs.Refused.{refusal_of, refusal_number, refusal_text};
ghost use Rattle.crash_model.specs.declared.refusal.TheConstants.{REFUSALS};

use crate::refusals::TraceFault;
use std::fmt;

/// How many refusals there are.
pub const REFUSALS: usize = 12;

/// A refusal of an operation, without its line.
#[derive(Clone, Copy, Debug, PartialEq, Eq, Default)]
pub enum Refusal {
    #[default]
    TooManyPatches,
    NotFound,
    NotADirectory,
    Exists,
    NotAFile,
    NotEmpty,
    NoInode,
    NoBlock,
    DirectoryFull,
    FileFull,
    LinksFull,
    JournalFull,
}

impl Refusal {
    /// The refusal of this fault, or `None` if no operation is refused with this fault.
    pub fn of(fault: TraceFault) -> Option<Refusal>
        ensures { result ≡ refusal_of fault }
    {
        match fault {
            TraceFault::TooManyPatches { .. } => Some(Refusal::TooManyPatches),
            TraceFault::NotFound { .. } => Some(Refusal::NotFound),
            TraceFault::NotADirectory { .. } => Some(Refusal::NotADirectory),
            TraceFault::Exists { .. } => Some(Refusal::Exists),
            TraceFault::NotAFile { .. } => Some(Refusal::NotAFile),
            TraceFault::NotEmpty { .. } => Some(Refusal::NotEmpty),
            TraceFault::NoInode { .. } => Some(Refusal::NoInode),
            TraceFault::NoBlock { .. } => Some(Refusal::NoBlock),
            TraceFault::DirectoryFull { .. } => Some(Refusal::DirectoryFull),
            TraceFault::FileFull { .. } => Some(Refusal::FileFull),
            TraceFault::LinksFull { .. } => Some(Refusal::LinksFull),
            TraceFault::JournalFull { .. } => Some(Refusal::JournalFull),
            TraceFault::GroupFault { .. }
            | TraceFault::OnlyAfterStart { .. }
            | TraceFault::OutOfMemory => None,
        }
    }

    /// The refusal at a place, from 0, in the order of their numbers.
    pub fn at(place: usize) -> Refusal
        requires { place < REFUSALS }
        ensures { refusal_number result - 9 ≡ place }
    {
        match place {
            0 => Refusal::TooManyPatches,
            1 => Refusal::NotFound,
            2 => Refusal::NotADirectory,
            3 => Refusal::Exists,
            4 => Refusal::NotAFile,
            5 => Refusal::NotEmpty,
            6 => Refusal::NoInode,
            7 => Refusal::NoBlock,
            8 => Refusal::DirectoryFull,
            9 => Refusal::FileFull,
            10 => Refusal::LinksFull,
            _ => Refusal::JournalFull,
        }
    }

    /// Its number, 2 or from 10 to 20.
    pub fn number(self) -> usize
        ensures { result ≡ refusal_number self }
    {
        match self {
            Refusal::TooManyPatches => 2,
            Refusal::NotFound => 10,
            Refusal::NotADirectory => 11,
            Refusal::Exists => 12,
            Refusal::NotAFile => 13,
            Refusal::NotEmpty => 14,
            Refusal::NoInode => 15,
            Refusal::NoBlock => 16,
            Refusal::DirectoryFull => 17,
            Refusal::FileFull => 18,
            Refusal::LinksFull => 19,
            Refusal::JournalFull => 20,
        }
    }

    /// Its text, which follows the number when a script is refused.
    pub fn text(self) -> &'static str
        ensures { result.now ≡ refusal_text self }
    {
        match self {
            Refusal::TooManyPatches => "too many patches",
            Refusal::NotFound => "not found",
            Refusal::NotADirectory => "not a directory",
            Refusal::Exists => "exists",
            Refusal::NotAFile => "not a file",
            Refusal::NotEmpty => "not empty",
            Refusal::NoInode => "no free inode",
            Refusal::NoBlock => "no free block",
            Refusal::DirectoryFull => "directory full",
            Refusal::FileFull => "file full",
            Refusal::LinksFull => "too many links",
            Refusal::JournalFull => "journal full",
        }
    }
}

/// Writes its number, a space and its text.
impl fmt::Display for Refusal {
    fn fmt<W: fmt::Write>(&self, f: &mut fmt::Formatter<W>) -> fmt::Result {
        write!(f, "{} {}", self.number(), self.text())
    }
}
