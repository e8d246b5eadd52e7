//! Sets of bytes.

ghost use Rattle.std.specs.Prelude.{◌≡◌, ◌<◌, ◌-◌, ◌↔◌, ◌⊎◌, ℕ, IsTrue};
ghost use Rattle.known_bytes.specs.Family.{HasValue};

use patch_sets::set::{has, is_subset, with};

/// A set of bytes: those below 128, and those from 128 on, each less 128.
#[derive(Clone, Copy, Default)]
pub struct ByteSet {
    pub low: u128,
    pub high: u128,
}

impl ByteSet {
    /// Whether a byte is in the set.
    pub fn has(self, value: u8) -> bool
        ensures { IsTrue result ↔ HasValue self.low self.high value }
    {
        if value < 128 {
            has(self.low, usize::from(value))
        } else {
            has(self.high, usize::from(value) - 128)
        }
    }

    /// The set with one more byte.
    pub fn with(self, value: u8) -> ByteSet
        ensures added { HasValue result.low result.high value }
        ensures others { (other : ℕ) → HasValue self.low self.high other → HasValue result.low result.high other }
    {
        if value < 128 {
            ByteSet {
                low: with(self.low, usize::from(value)),
                high: self.high,
            }
        } else {
            ByteSet {
                low: self.low,
                high: with(self.high, usize::from(value) - 128),
            }
        }
    }

    /// The bytes of both sets.
    pub fn union(self, more: ByteSet) -> ByteSet
        ensures first { (value : ℕ) → HasValue self.low self.high value → HasValue result.low result.high value }
        ensures second { (value : ℕ) → HasValue more.low more.high value → HasValue result.low result.high value }
    {
        ByteSet {
            low: self.low | more.low,
            high: self.high | more.high,
        }
    }

    /// Whether another set has all bytes of this one.
    pub fn is_within(self, whole: ByteSet) -> bool
        ensures { IsTrue result → (value : ℕ) → HasValue self.low self.high value
            → HasValue whole.low whole.high value }
    {
        is_subset(self.low, whole.low) && is_subset(self.high, whole.high)
    }
}
