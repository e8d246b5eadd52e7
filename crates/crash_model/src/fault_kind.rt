//! Kinds of faults.

ghost use Rattle.std.specs.Prelude.{◌≡◌, ◌+◌, ◌<◌};
ghost use Rattle.crash_model.specs.FaultKinds.{kind_of, kind_number, kind_name};

use crate::fault::Fault;

/// How many kinds there are.
pub const KINDS: usize = 10;

/// The kind of a fault: its statement, without the inodes, slots and blocks for which it fails.
#[derive(Clone, Copy, Debug, PartialEq, Eq, Default)]
pub enum FaultKind {
    #[default]
    Dangling,
    Twice,
    Unwritten,
    LowLinks,
    MarkedFree,
    Wild,
    Lost,
    NoBlock,
    HalfDone,
    BrokenPromise,
}

impl FaultKind {
    /// The kind of this fault.
    pub fn of(fault: &Fault) -> FaultKind
        ensures { result ≡ kind_of fault.now }
    {
        match fault {
            Fault::Dangling { .. } => FaultKind::Dangling,
            Fault::Twice { .. } => FaultKind::Twice,
            Fault::Unwritten { .. } => FaultKind::Unwritten,
            Fault::LowLinks { .. } => FaultKind::LowLinks,
            Fault::MarkedFree { .. } => FaultKind::MarkedFree,
            Fault::Wild { .. } => FaultKind::Wild,
            Fault::Lost { .. } => FaultKind::Lost,
            Fault::NoBlock { .. } => FaultKind::NoBlock,
            Fault::HalfDone => FaultKind::HalfDone,
            Fault::BrokenPromise { .. } => FaultKind::BrokenPromise,
        }
    }

    /// The kind at a place in the order of their numbers, from 0.
    pub fn at(place: usize) -> FaultKind
        requires { place < KINDS }
        ensures { kind_number result ≡ place + 1 }
    {
        match place {
            0 => FaultKind::Dangling,
            1 => FaultKind::Twice,
            2 => FaultKind::Unwritten,
            3 => FaultKind::LowLinks,
            4 => FaultKind::MarkedFree,
            5 => FaultKind::Wild,
            6 => FaultKind::Lost,
            7 => FaultKind::NoBlock,
            8 => FaultKind::HalfDone,
            _ => FaultKind::BrokenPromise,
        }
    }

    /// The number that the fault's text begins with, from 1 to `KINDS`.
    pub fn number(self) -> usize
        ensures { result ≡ kind_number self }
    {
        match self {
            FaultKind::Dangling => 1,
            FaultKind::Twice => 2,
            FaultKind::Unwritten => 3,
            FaultKind::LowLinks => 4,
            FaultKind::MarkedFree => 5,
            FaultKind::Wild => 6,
            FaultKind::Lost => 7,
            FaultKind::NoBlock => 8,
            FaultKind::HalfDone => 9,
            FaultKind::BrokenPromise => 10,
        }
    }

    /// The words after the number.
    pub fn name(self) -> &'static str
        ensures { result.now ≡ kind_name self }
    {
        match self {
            FaultKind::Dangling => "dangling entry",
            FaultKind::Twice => "block used twice",
            FaultKind::Unwritten => "unwritten pointer",
            FaultKind::LowLinks => "low link count",
            FaultKind::MarkedFree => "used block marked free",
            FaultKind::Wild => "wild pointer",
            FaultKind::Lost => "lost inode",
            FaultKind::NoBlock => "directory without a block",
            FaultKind::HalfDone => "half-done operation",
            FaultKind::BrokenPromise => "broken promise",
        }
    }
}
