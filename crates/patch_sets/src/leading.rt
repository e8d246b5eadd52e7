//! The ids that a set begins with.
ghost use Rattle.std.specs.Prelude.{◌≡◌, ◌≢◌, ℕ, ◌<◌, ◌↔◌, MatchOption};
ghost use Rattle.patch_sets.specs.Sets.{Has, ids_of};
ghost use Rattle.patch_sets.specs.Iter.{most_ids};
ghost use Rattle.patch_sets.specs.Leading.{ComesBefore, BeginsWith};

use crate::ends::difference;

/// The ids from one on below an end, and what a set has from that end on.
#[derive(Clone, Copy, Debug)]
pub struct Run {
    pub from: usize,
    pub end: usize,
    pub rest: u128,
}

/// The ids below `n` of a set.
pub fn below(set: u128, n: usize) -> u128
    ensures { ids_of most_ids result ≡ ids_of n set }
{
    if n < 128 { set % (1 << n) } else { set }
}

/// The ids that come before each id of a set: all if it has none.
pub fn below_lowest(set: u128) -> u128
    ensures { (id : ℕ) → Has result id ↔ ((id < 128) × ComesBefore set id) }
{
    !set & set.wrapping_sub(1)
}

/// The longest run of consecutive ids that a set begins with, if it has an id.
pub fn first_run(set: u128) -> Option<Run>
    ensures { MatchOption result (set ≡ 0) (λ run. BeginsWith set run) }
{
    if set == 0 {
        return None;
    }
    let gaps = !(set | below_lowest(set));
    Some(Run {
        from: set.trailing_zeros() as usize,
        end: gaps.trailing_zeros() as usize,
        rest: difference(set, below_lowest(gaps)),
    })
}
