//! What a search must know of a sequence of operations.

use crash_model::fault_kind::KINDS;
use crash_model::refusal::Refusal;

/// How a sequence of operations of a pool is judged.
///
/// `Refused` if one of them is refused. Otherwise `Passes` if no set that a crash can leave fails, or `Fails` with the
/// first set, in canonical order, that has a fault of each kind: that of the kind with number n at place n - 1, and
/// `None` if no set has such a fault.
#[derive(Clone, Copy, Debug, PartialEq, Eq)]
pub enum Verdict {
    Refused(Refusal),
    Passes,
    Fails([Option<u128>; KINDS]),
}
