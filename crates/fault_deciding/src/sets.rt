//! Questions about all sets of a family at once. An answer is one that holds for each of them, or an undecided patch on
//! which it depends.

ghost use Rattle.std.specs.Prelude.{◌&&◌, ◌||◌, ◌<◌, ℕ, Bool, not, nat_le};
ghost use Rattle.crash_model.specs.Disk.{Disk};
ghost use Rattle.crash_model.specs.Promises.{has_all, has_none};
ghost use Rattle.fault_deciding.specs.OfSets.{IsKnownOfSets, AreIdsOf};
ghost use Rattle.known_bytes.specs.Family.{Family};

use patch_sets::ends::{difference, lowest};
use patch_sets::set::is_subset;

/// Whether the sets have all of these ids.
pub(crate) fn have_all(held: u128, undecided: u128, ids: u128) -> Result<bool, usize>
    ensures { (f : Family) → AreIdsOf f held undecided → IsKnownOfSets f (λ set d. has_all set ids) result }
{
    let missing = difference(ids, held);
    if !is_subset(missing, undecided) {
        return Ok(false);
    }
    match lowest(missing) {
        Some(id) => Err(id),
        None => Ok(true),
    }
}

/// Whether the sets have none of these ids.
pub(crate) fn have_none(held: u128, undecided: u128, ids: u128) -> Result<bool, usize>
    ensures { (f : Family) → AreIdsOf f held undecided → IsKnownOfSets f (λ set d. has_none set ids) result }
{
    if let Some(_) = lowest(held & ids) {
        return Ok(false);
    }
    match lowest(undecided & ids) {
        Some(id) => Err(id),
        None => Ok(true),
    }
}

/// Whether the sets, as numbers, are at least a number.
///
/// Where that is open, it depends on the least patch that makes a set as large, if one patch does.
pub(crate) fn are_at_least(held: u128, undecided: u128, number: u128) -> Result<bool, usize>
    ensures { (f : Family) → AreIdsOf f held undecided → IsKnownOfSets f (λ set d. nat_le number set) result }
{
    if number <= held {
        return Ok(true);
    }
    if (held | undecided) < number {
        return Ok(false);
    }
    match lowest(difference(undecided, number - 1)) {
        Some(id) => Err(id),
        None => any_open(undecided),
    }
}

/// An undecided id, if there is one; else nothing is as large as a number that what is held is not.
fn any_open(undecided: u128) -> Result<bool, usize>
    ensures { (f : Family) (held number : ℕ) → AreIdsOf f held undecided → held < number
        → IsKnownOfSets f (λ set d. nat_le number set) result }
{
    match lowest(undecided) {
        Some(id) => Err(id),
        None => Ok(false),
    }
}

/// Whether it does not hold.
pub(crate) fn negation(answer: Result<bool, usize>) -> Result<bool, usize>
    ensures { (f : Family) (P : ℕ → Disk → Bool) → IsKnownOfSets f P answer
        → IsKnownOfSets f (λ set d. not (P set d)) result }
{
    match answer {
        Ok(holds) => Ok(!holds),
        Err(id) => Err(id),
    }
}

/// Whether both hold. If one holds of no set, that is enough, even if the other is not known.
pub(crate) fn both(first: Result<bool, usize>, second: Result<bool, usize>) -> Result<bool, usize>
    ensures { (f : Family) (P Q : ℕ → Disk → Bool) → IsKnownOfSets f P first → IsKnownOfSets f Q second
        → IsKnownOfSets f (λ set d. P set d && Q set d) result }
{
    match first {
        Ok(true) => second,
        Ok(false) => Ok(false),
        Err(id) => match second {
            Ok(false) => Ok(false),
            _ => Err(id),
        },
    }
}

/// Whether one holds, or both. If one holds of each set, that is enough, even if the other is not known.
pub(crate) fn either(first: Result<bool, usize>, second: Result<bool, usize>) -> Result<bool, usize>
    ensures { (f : Family) (P Q : ℕ → Disk → Bool) → IsKnownOfSets f P first → IsKnownOfSets f Q second
        → IsKnownOfSets f (λ set d. P set d || Q set d) result }
{
    match first {
        Ok(false) => second,
        Ok(true) => Ok(true),
        Err(id) => match second {
            Ok(true) => Ok(true),
            _ => Err(id),
        },
    }
}
