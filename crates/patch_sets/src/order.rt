//! The order in which sets are listed.
ghost use Rattle.std.specs.Prelude.{◌≢◌, ◌↔◌, IsTrue};
ghost use Rattle.std.specs.List.{AllPairs};
ghost use Rattle.std.specs.List.Sorted.{IsPermutation};
ghost use Rattle.patch_sets.specs.Sets.{IsBefore};

use std::alloc::Allocator;

/// Different sets in canonical order: fewer ids first, then the smaller number. It takes no memory.
pub fn in_order<A: Allocator>(mut sets: Vec<u128, A>) -> Vec<u128, A>
    requires { AllPairs (λ x y. x ≢ y) sets.items }
    ensures ordered { AllPairs IsBefore result.items }
    ensures same { IsPermutation sets.items result.items }
{
    sets.sort_unstable_by_key(|set| (set.count_ones(), *set));
    sets
}

/// Whether a set comes before another in canonical order.
pub fn is_before(set: u128, other: u128) -> bool
    ensures { IsTrue result ↔ IsBefore set other }
{
    (set.count_ones(), set) < (other.count_ones(), other)
}
