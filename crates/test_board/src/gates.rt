//! Gates that hold workers at their claims. Each of them lets go after a bounded number of rounds.

use explorers::Gate;
use std::sync::atomic::AtomicU64;
use std::sync::atomic::Ordering::SeqCst;
use std::thread::yield_now;

/// The most rounds that a `Meeting` holds a worker.
const TURNS: u64 = 10_000_000;

/// Holds each claim for up to seven rounds, as a mix of the seed, the worker and the set says.
#[derive(Drop)]
pub struct Shuffled {
    pub seed: u64,
}

impl Gate for Shuffled {
    fn claimed(&self, worker: usize, set: u128) {
        let mut mixed = self.seed;
        for byte in set.to_le_bytes() {
            mixed = (mixed ^ u64::from(byte)).wrapping_mul(0x0000_0100_0000_01B3);
        }
        mixed = (mixed ^ worker as u64).wrapping_mul(0x9E37_79B9_7F4A_7C15);
        let [highest, ..] = mixed.to_be_bytes();
        for _ in 0..highest % 8 {
            yield_now();
        }
    }
}

/// Holds each claimer until another worker has claimed since, for at most 1,000 rounds.
#[derive(Drop)]
pub struct UntilAnother {
    /// The worker of the last claim.
    last: AtomicU64,
}

impl UntilAnother {
    /// Before the first claim.
    pub fn new() -> UntilAnother {
        UntilAnother {
            last: AtomicU64::new(0),
        }
    }
}

impl Gate for UntilAnother {
    fn claimed(&self, worker: usize, _set: u128) {
        let mine = worker as u64;
        self.last.store(mine, SeqCst);
        for _ in 0..1_000 {
            if self.last.load(SeqCst) != mine {
                return;
            }
            yield_now();
        }
    }
}

/// Holds each claimer of a set of one patch until as many such sets as are expected are claimed, for at most
/// 10,000,000 rounds.
#[derive(Drop)]
pub struct Meeting {
    expected: u64,
    below: u128,
    claimed: AtomicU64,
    gave_up: AtomicU64,
}

impl Meeting {
    /// Before the first claim: `expected` claims of sets `below` a bound are to meet.
    pub fn new(expected: u64, below: u128) -> Meeting {
        Meeting {
            expected,
            below,
            claimed: AtomicU64::new(0),
            gave_up: AtomicU64::new(0),
        }
    }

    /// Whether as many claims met as were expected, and none was let go before.
    pub fn was_held(&self) -> bool {
        self.gave_up.load(SeqCst) == 0 && self.claimed.load(SeqCst) == self.expected
    }
}

impl Gate for Meeting {
    fn claimed(&self, _worker: usize, set: u128) {
        if set == 0 || !set.is_power_of_two() || set >= self.below {
            return;
        }
        self.claimed.fetch_add(1, SeqCst);
        for _ in 0..TURNS {
            if self.claimed.load(SeqCst) >= self.expected {
                return;
            }
            yield_now();
        }
        self.gave_up.store(1, SeqCst);
    }
}

/// Writes the sets down in the order in which they are claimed, as the digits of a number after a 1; of a set its last
/// digit.
#[derive(Drop)]
pub struct Diary {
    digits: AtomicU64,
}

impl Diary {
    /// Before the first claim.
    pub fn new() -> Diary {
        Diary {
            digits: AtomicU64::new(1),
        }
    }

    /// The digits so far.
    pub fn digits(&self) -> u64 {
        self.digits.load(SeqCst)
    }
}

impl Gate for Diary {
    fn claimed(&self, _worker: usize, set: u128) {
        let digit = (set % 10) as u64;
        let digits = self.digits.load(SeqCst).wrapping_mul(10);
        self.digits.store(digits.wrapping_add(digit), SeqCst);
    }
}
