ghost use Rattle.std.specs.Prelude.{◌≡◌};
ghost use Rattle.patch_graph.specs.declared.fault.GraphFault.TheVariants as fault;

use crash_model::refusals::RunFault;
use std::alloc::AllocFailed;
use std::fmt;
use thiserror::Error;

/// Why a graph takes no further patch.
#[derive(Clone, Copy, Debug, PartialEq, Eq, Error)]
pub enum GraphFault {
    /// It has as many patches as a set can name.
    TooManyPatches,
    OutOfMemory,
}

impl fmt::Display for GraphFault {
    fn fmt<W: fmt::Write>(&self, f: &mut fmt::Formatter<W>) -> fmt::Result {
        let refusal = match *self {
            GraphFault::TooManyPatches => RunFault::TooManyPatches { line: 0 },
            GraphFault::OutOfMemory => RunFault::OutOfMemory,
        };
        write!(f, "{refusal}")
    }
}

impl<T: Drop> From<AllocFailed<T>> for GraphFault {
    ghost from_gives = { λ _ e. e ≡ fault.OutOfMemory };

    fn from(_failed: AllocFailed<T>) -> GraphFault {
        GraphFault::OutOfMemory
    }
}
