//! How many closed sets a run explores.

ghost use Rattle.std.specs.Prelude.{◌≡◌, MatchOption, ◌≤◌};
ghost use Rattle.state_space.specs.declared.limits.TheConstants.{MAX_BOARD};

use state_space::MAX_BOARD;
use std::marker::Model;

/// The most closed sets that a run explores, from one to `MAX_BOARD`. Contracts see the number.
#[derive(Clone, Copy, Debug, PartialEq, Eq)]
pub struct SetLimit {
    sets: usize,
}

impl Model for SetLimit {
    ghost use Rattle.std.specs.Prelude.{ℕ, ◌≤◌};
    ghost use Rattle.state_space.specs.declared.limits.TheConstants.{MAX_BOARD};

    ghost Value = { ℕ };

    ghost view = { λ limit. limit.sets };

    ghost invariant = { λ limit. (1 ≤ limit.sets) × (limit.sets ≤ MAX_BOARD) };

    ghost inverse = { λ number. record { sets = number } };
}

impl SetLimit {
    /// This number of sets, or `None` if it is 0 or more than `MAX_BOARD`.
    pub fn new(number: usize) -> Option<SetLimit>
        ensures { MatchOption result (¬ ((1 ≤ number) × (number ≤ MAX_BOARD)))
            (λ limit. (limit ≡ number) × (1 ≤ number) × (number ≤ MAX_BOARD)) }
    {
        if number < 1 || number > MAX_BOARD {
            return None;
        }
        Some(SetLimit { sets: number })
    }

    /// How many they are.
    pub fn sets(self) -> usize
        ensures same { result ≡ self }
        ensures range { (1 ≤ result) × (result ≤ MAX_BOARD) }
    {
        self.sets
    }
}
