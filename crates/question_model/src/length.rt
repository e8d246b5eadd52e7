//! How long workloads can be.

ghost use Rattle.std.specs.Prelude.{◌≡◌, MatchOption, ◌≤◌};
ghost use Rattle.question_model.specs.declared.length.TheConstants.{MAX_OPERATIONS};

use std::marker::Model;

/// The most operations of a workload that a search can try.
pub const MAX_OPERATIONS: usize = 8;

/// How many operations the longest workloads of a search have, from one to `MAX_OPERATIONS`. Contracts see the number.
#[derive(Clone, Copy, Debug, PartialEq, Eq)]
pub struct WorkloadLength {
    operations: usize,
}

impl Model for WorkloadLength {
    ghost use Rattle.std.specs.Prelude.{ℕ, ◌≤◌};
    ghost use Rattle.question_model.specs.declared.length.TheConstants.{MAX_OPERATIONS};

    ghost Value = { ℕ };

    ghost view = { λ length. length.operations };

    ghost invariant = { λ length. (1 ≤ length.operations) × (length.operations ≤ MAX_OPERATIONS) };

    ghost inverse = { λ number. record { operations = number } };
}

impl WorkloadLength {
    /// This number of operations, or `None` if it is 0 or more than `MAX_OPERATIONS`.
    pub fn new(number: usize) -> Option<WorkloadLength>
        ensures { MatchOption result (¬ ((1 ≤ number) × (number ≤ MAX_OPERATIONS)))
            (λ length. (length ≡ number) × (1 ≤ number) × (number ≤ MAX_OPERATIONS)) }
    {
        if number < 1 || number > MAX_OPERATIONS {
            return None;
        }
        Some(WorkloadLength { operations: number })
    }

    /// How many they are.
    pub fn operations(self) -> usize
        ensures same { result ≡ self }
        ensures range { (1 ≤ result) × (result ≤ MAX_OPERATIONS) }
    {
        self.operations
    }
}
