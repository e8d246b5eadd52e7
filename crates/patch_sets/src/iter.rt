//! The ids of a set, one after another.
ghost use Rattle.std.specs.Prelude.{◌≡◌};
ghost use Rattle.patch_sets.specs.Sets.{ids_of};

use crate::ends::{lowest, without_lowest};
use crate::leading::below;

/// The ids of a set that are still to come, in ascending order. It takes a step for each id, however far apart they
/// are.
///
/// Contracts see the list of those ids.
#[derive(Clone, Copy, Debug)]
pub struct Ids {
    left: u128,
}

impl Ids {
    ghost use Rattle.patch_sets.specs.Iter.{ids_left};

    /// The ids below `n` of a set.
    pub fn below(set: u128, n: usize) -> Ids
        ensures { ids_left result ≡ ids_of n set }
    {
        Ids {
            left: below(set, n),
        }
    }
}

impl Iterator for Ids {
    ghost use Rattle.std.specs.Iterator.{YieldsFirst, item_count};
    ghost use Rattle.patch_sets.specs.Iter.{ids_left};

    type Item = usize;

    ghost next_gives = { YieldsFirst ids_left };

    ghost remaining = { item_count ids_left };

    fn next(&mut self) -> Option<usize> {
        match lowest(self.left) {
            None => None,
            Some(id) => {
                self.left = without_lowest(self.left);
                Some(id)
            }
        }
    }
}
