//! The ends of a set, sets with one id less, and what one set has and another does not.
ghost use Rattle.std.specs.Prelude.{◌≡◌, ◌≢◌, ℕ, ◌<◌, ◌↔◌, MatchOption, IfSome};
ghost use Rattle.patch_sets.specs.Sets.{Has};
ghost use Rattle.patch_sets.specs.Ends.{IsLowest, IsHighest, IsWithout, IsDifference};

/// The lowest id of a set, if it has one.
pub fn lowest(set: u128) -> Option<usize>
    ensures found { MatchOption result (set ≡ 0) (λ id. IsLowest set id) }
    ensures within { IfSome result (λ id. id < 128) }
{
    if set == 0 {
        return None;
    }
    Some(set.trailing_zeros() as usize)
}

/// The highest id of a set, if it has one.
pub fn highest(set: u128) -> Option<usize>
    ensures found { MatchOption result (set ≡ 0) (λ id. IsHighest set id) }
    ensures within { IfSome result (λ id. id < 128) }
{
    if set == 0 {
        return None;
    }
    Some(127 - set.leading_zeros() as usize)
}

/// The set with one id less. It is a smaller number if the set had the id.
pub fn without(set: u128, id: usize) -> u128
    requires { id < 128 }
    ensures others { IsWithout set id result }
    ensures smaller { Has set id → result < set }
{
    set & !(1 << id)
}

/// A set without its lowest id. It takes fewer steps than [`without`], in which each step depends on the one before.
pub fn without_lowest(set: u128) -> u128
    requires { set ≢ 0 }
    ensures others { (id : ℕ) → IsLowest set id → IsWithout set id result }
    ensures smaller { result < set }
{
    set & (set - 1)
}

/// The ids of one set that another does not have.
pub fn difference(set: u128, other: u128) -> u128
    ensures { IsDifference set other result }
{
    set & !other
}
