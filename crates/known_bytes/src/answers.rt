//! Answers put together. An answer is one that holds for all disks of a family, or an undecided patch on which it
//! depends.

ghost use Rattle.std.specs.Prelude.{◌≡◌, ◌&&◌, ◌||◌, not, Bool, IsTrue, Ok, false, true};
ghost use Rattle.crash_model.specs.Disk.{Disk};
ghost use Rattle.known_bytes.specs.Reading.{Reading, IsKnown};

/// Whether both hold. If one holds of no disk, that is enough, even if the other is not known.
///
/// The patch of the first is asked before that of the second.
pub(crate) fn both(first: Result<bool, usize>, second: Result<bool, usize>) -> Result<bool, usize>
    ensures { (r : Reading) (P Q : Disk → Bool) → IsKnown r P first → IsKnown r Q second
        → IsKnown r (λ d. P d && Q d) result }
{
    match first {
        Ok(true) => second,
        Ok(false) => Ok(false),
        Err(id) => match second {
            Ok(false) => Ok(false),
            _ => Err(id),
        },
    }
}

/// Whether one holds, or both. If one holds of each disk, that is enough, even if the other is not known.
pub(crate) fn either(first: Result<bool, usize>, second: Result<bool, usize>) -> Result<bool, usize>
    ensures { (r : Reading) (P Q : Disk → Bool) → IsKnown r P first → IsKnown r Q second
        → IsKnown r (λ d. P d || Q d) result }
{
    match first {
        Ok(false) => second,
        Ok(true) => Ok(true),
        Err(id) => match second {
            Ok(true) => Ok(true),
            _ => Err(id),
        },
    }
}

/// Whether it does not hold.
pub(crate) fn negation(answer: Result<bool, usize>) -> Result<bool, usize>
    ensures { (r : Reading) (P : Disk → Bool) → IsKnown r P answer → IsKnown r (λ d. not (P d)) result }
{
    match answer {
        Ok(holds) => Ok(!holds),
        Err(id) => Err(id),
    }
}

/// Whether it holds of no disk.
pub(crate) fn never_holds(answer: Result<bool, usize>) -> bool
    ensures { IsTrue result → answer ≡ Ok false }
{
    match answer {
        Ok(holds) => !holds,
        Err(_) => false,
    }
}

/// Whether it holds of each disk.
pub(crate) fn always_holds(answer: Result<bool, usize>) -> bool
    ensures { IsTrue result → answer ≡ Ok true }
{
    match answer {
        Ok(holds) => holds,
        Err(_) => false,
    }
}

/// Whether two answers are known, and the same.
pub(crate) fn are_alike(first: Result<bool, usize>, second: Result<bool, usize>) -> bool
    ensures { IsTrue result → first ≡ second }
{
    match (first, second) {
        (Ok(one), Ok(other)) => one == other,
        _ => false,
    }
}
