//! The two halves of a family: the members that have an id, and those that lack it.
ghost use Rattle.std.specs.Prelude.{◌≡◌, ℕ, ◌<◌, ◌↔◌, MatchOption, length};
ghost use Rattle.patch_sets.specs.Sets.{Has, IsSubset};
ghost use Rattle.patch_sets.specs.Closed.{IsClosed};
ghost use Rattle.set_families.specs.Families.{IsFamily, IsMember, IsUndecided, undecided_number};
ghost use Rattle.set_families.specs.Firsts.{IsFirst};

use crate::closed_sets::ClosedSets;
use crate::family::Family;
use patch_sets::ends::{difference, lowest};

impl ClosedSets<'_> {
    /// The family of all closed sets.
    pub fn whole(&self) -> Family
        ensures family { IsFamily self.now.deps.now result }
        ensures members { (set : ℕ) → IsMember self.now.deps.now result set ↔ IsClosed self.now.deps.now set }
    {
        Family { held: 0, barred: 0 }
    }

    /// The least member. It lies within each other one, so it is the first in canonical order.
    pub fn least(&self, family: Family) -> u128
        requires { IsFamily self.now.deps.now family }
        ensures member { IsMember self.now.deps.now family result }
        ensures within { (set : ℕ) → IsMember self.now.deps.now family set → IsSubset result set }
        ensures first { IsFirst (IsMember self.now.deps.now family) result }
    {
        family.held
    }

    /// The ids that are neither held nor barred.
    pub fn undecided_ids(&self, family: Family) -> u128
        ensures { (id : ℕ) → Has result id ↔ IsUndecided self.now.deps.now family id }
    {
        difference((1 << self.deps.len()) - 1, family.held | family.barred)
    }

    /// The members that have an undecided id, and so all that it depends on.
    pub fn hold(&self, family: Family, id: usize) -> Family
        requires family { IsFamily self.now.deps.now family }
        requires undecided { IsUndecided self.now.deps.now family id }
        ensures family { IsFamily self.now.deps.now result }
        ensures members { (set : ℕ) → IsMember self.now.deps.now result set
            ↔ (IsMember self.now.deps.now family set × Has set id) }
        ensures fewer { undecided_number self.now.deps.now result < undecided_number self.now.deps.now family }
    {
        Family {
            held: family.held | self.closures[id],
            barred: family.barred,
        }
    }

    /// The members that lack an undecided id, and so all that depends on it.
    pub fn bar(&self, family: Family, id: usize) -> Family
        requires family { IsFamily self.now.deps.now family }
        requires undecided { IsUndecided self.now.deps.now family id }
        ensures family { IsFamily self.now.deps.now result }
        ensures members { (set : ℕ) → IsMember self.now.deps.now result set
            ↔ (IsMember self.now.deps.now family set × ¬ (Has set id)) }
        ensures fewer { undecided_number self.now.deps.now result < undecided_number self.now.deps.now family }
    {
        Family {
            held: family.held,
            barred: family.barred | self.standings[id],
        }
    }
}
