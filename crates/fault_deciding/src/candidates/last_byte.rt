//! Where a walk over a set of bytes ends.

ghost use Rattle.std.specs.Prelude.{ℕ, ◌≤◌};
ghost use Rattle.known_bytes.specs.Family.{HasValue};

use known_bytes::ByteSet;
use patch_sets::ends::highest;

/// A byte that no byte of the set is greater than: the greatest one, or 0 if the set is empty.
#[tactic(auto, using(crate::proofs::LastByte::ends))]
pub(crate) fn last_byte(values: ByteSet) -> u8
    ensures { (value : ℕ) → HasValue values.low values.high value → value ≤ result }
{
    if let Some(id) = highest(values.high) {
        return id as u8 + 128;
    }
    match highest(values.low) {
        Some(id) => id as u8,
        None => 0,
    }
}
