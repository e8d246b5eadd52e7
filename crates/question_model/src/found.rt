//! What a search finds.

use crate::length::MAX_OPERATIONS;
use arrayvec::ArrayVec;
use crash_model::fault_kind::{FaultKind, KINDS};
use crash_model::refusal::{REFUSALS, Refusal};

/// The operations of a workload, each by its place in the pool, from 0.
pub type Places = ArrayVec<usize, MAX_OPERATIONS>;

/// How often an operation that would follow a beginning is refused for a reason.
#[derive(Clone, Copy, Debug, PartialEq, Eq, Default)]
pub struct RefusedCount {
    pub reason: Refusal,
    pub count: u128,
}

/// A kind of fault that some workloads show, and how many do: the places of the first of them, and its first failing
/// set, in canonical order, that has such a fault.
#[derive(Default, Drop)]
pub struct ShownKind {
    pub kind: FaultKind,
    pub workloads: u128,
    pub places: Places,
    pub first: u128,
}

/// How many workloads there are and how many fail; each reason for which operations are refused, and each kind of fault
/// that a workload shows, in the order of their numbers.
#[derive(Drop)]
pub struct SearchCounts {
    pub workloads: u128,
    pub failing: u128,
    pub refused: ArrayVec<RefusedCount, REFUSALS>,
    pub kinds: ArrayVec<ShownKind, KINDS>,
}
