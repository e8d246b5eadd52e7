//! Counting the members of a family.
ghost use Rattle.std.specs.Prelude.{◌<◌};
ghost use Rattle.state_space.specs.Counts.{HoldsOf};
ghost use Rattle.patch_sets.specs.Sets.{Has};
ghost use Rattle.patch_sets.specs.Closed.{IsClosed};
ghost use Rattle.set_families.specs.Families.{IsFamily, IsMember};

use crate::closed_sets::ClosedSets;
use crate::family::Family;
use patch_sets::ends::{difference, lowest};
use patch_sets::set::has;

impl ClosedSets<'_> {
    /// The number of closed sets.
    pub fn count(&self) -> u128
        ensures { HoldsOf (IsClosed self.now.deps.now) result }
    {
        let whole = self.whole();
        self.count_members(whole)
    }

    /// The number of members of a family.
    ///
    /// If no dependency connects some of the undecided ids with the others, it is the product of two numbers: a graph
    /// of 60 ids without dependencies has 2^60 closed sets and takes about 120 calls. Else it is the number of members
    /// with an id and of those without it.
    ///
    /// It takes no memory, and calls itself no deeper than the number of undecided ids.
    pub fn count_members(&self, family: Family) -> u128
        requires { IsFamily self.now.deps.now family }
        ensures { HoldsOf (IsMember self.now.deps.now family) result }
    {
        let undecided = self.undecided_ids(family);
        match lowest(undecided) {
            None => 1,
            Some(lowest) => {
                let id = self.busiest(undecided, lowest);
                let part = self.part_with(family, id);
                let rest = difference(undecided, part);
                if rest == 0 {
                    let having = self.count_members(self.hold(family, id));
                    let lacking = self.count_members(self.bar(family, id));
                    having + lacking
                } else {
                    let inside = self.count_members(self.bar_part(family, rest));
                    let outside = self.count_members(self.bar_part(family, part));
                    inside * outside
                }
            }
        }
    }

    /// The undecided id whose decision settles the most others, whether it is held or barred; `first` is any of them.
    /// The number is the same whichever is taken. This one leaves fewer calls.
    fn busiest(&self, undecided: u128, first: usize) -> usize
        requires { Has undecided first }
        ensures { Has undecided result }
    {
        let mut busiest = first;
        let mut most = 0;
        for id in 0..self.deps.len() {
            if has(undecided, id) {
                let held = (self.closures[id] & undecided).count_ones();
                let barred = (self.standings[id] & undecided).count_ones();
                if held.min(barred) > most {
                    most = held.min(barred);
                    busiest = id;
                }
            }
        }
        busiest
    }
}
