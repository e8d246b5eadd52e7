//! What exploring a space of words finds, and why it finds nothing.
ghost use Rattle.std.specs.Prelude.{◌≡◌};
ghost use Rattle.patch_sets.specs.declared.explored.ExploreFault.TheVariants as fault;

use std::alloc::{AllocError, AllocFailed, Allocator};
use std::fmt;
use thiserror::Error;

/// How many words are reached, and which of them are not good, in canonical order: fewer ids first, then the
/// smaller number.
#[derive(Drop)]
pub struct Explored<A: Allocator> {
    pub total: usize,
    pub broken: Vec<u128, A>,
}

/// Why a space is not explored to its end.
#[derive(Clone, Copy, Debug, PartialEq, Eq, Error)]
pub enum ExploreFault {
    /// More words are reached than the limit.
    TooMany,
    OutOfMemory,
}

impl ExploreFault {
    /// The refusal's number and its text, with a space between them.
    pub fn text(self) -> &'static str {
        match self {
            ExploreFault::TooMany => "30 too many closed sets",
            ExploreFault::OutOfMemory => "99 out of memory",
        }
    }
}

impl fmt::Display for ExploreFault {
    fn fmt<W: fmt::Write>(&self, f: &mut fmt::Formatter<W>) -> fmt::Result {
        f.write_str(self.text())
    }
}

impl From<AllocError> for ExploreFault {
    ghost from_gives = { λ _ e. e ≡ fault.OutOfMemory };

    fn from(_error: AllocError) -> ExploreFault {
        ExploreFault::OutOfMemory
    }
}

impl<T: Drop> From<AllocFailed<T>> for ExploreFault {
    ghost from_gives = { λ _ e. e ≡ fault.OutOfMemory };

    fn from(_failed: AllocFailed<T>) -> ExploreFault {
        ExploreFault::OutOfMemory
    }
}
