//! The parts of a family's undecided ids that no dependency connects.
ghost use Rattle.std.specs.Prelude.{ℕ, ◌<◌, ◌↔◌, length};
ghost use Rattle.patch_sets.specs.Sets.{Has, IsSubset};
ghost use Rattle.set_families.specs.Families.{IsFamily, IsMember, IsUndecided, IsPart, undecided_number};
ghost use Rattle.set_families.specs.Widening.{IsWider};

use crate::closed_sets::ClosedSets;
use crate::family::Family;
use patch_sets::set::{has, with};

impl ClosedSets<'_> {
    /// The members that have no id of a part.
    pub(crate) fn bar_part(&self, family: Family, part: u128) -> Family
        requires family { IsFamily self.now.deps.now family }
        requires part { IsPart self.now.deps.now family part }
        ensures family { IsFamily self.now.deps.now result }
        ensures members { (set : ℕ) → IsMember self.now.deps.now result set
            ↔ (IsMember self.now.deps.now family set × ((id : ℕ) → Has part id → ¬ (Has set id))) }
        ensures fewer { (id : ℕ) → Has part id
            → undecided_number self.now.deps.now result < undecided_number self.now.deps.now family }
    {
        Family {
            held: family.held,
            barred: family.barred | part,
        }
    }

    /// The part with an undecided id: all undecided ids that dependencies connect with it.
    pub(crate) fn part_with(&self, family: Family, id: usize) -> u128
        requires { IsUndecided self.now.deps.now family id }
        ensures part { IsPart self.now.deps.now family result }
        ensures inside { Has result id }
    {
        let undecided = self.undecided_ids(family);
        let mut part = with(0, id);
        loop {
            let wider = self.widened(undecided, part);
            if wider == part {
                return part;
            }
            part = wider;
        }
    }

    /// A set of undecided ids with the undecided ids that they depend on and that depend on them.
    fn widened(&self, undecided: u128, part: u128) -> u128
        requires { IsSubset part undecided }
        ensures { IsWider self.now.deps.now undecided part result }
    {
        let mut wider = part;
        for id in 0..self.deps.len() {
            if has(part, id) {
                wider |= (self.closures[id] | self.standings[id]) & undecided;
            }
        }
        wider
    }
}
