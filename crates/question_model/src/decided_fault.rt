//! Faults that a crash can leave.

use crash_model::fault::Fault;

/// A fault that a crash can leave, and the first set in canonical order whose image has it after replay.
#[derive(Clone, Copy, Debug, PartialEq, Eq, Drop)]
pub struct DecidedFault {
    pub fault: Fault,
    pub first: u128,
}
