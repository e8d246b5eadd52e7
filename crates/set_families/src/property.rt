//! Properties of closed sets, asked of whole families.
ghost use Rattle.std.specs.Prelude.{ℕ, List};
ghost use Rattle.set_families.specs.Families.{IsFamily};
ghost use Rattle.set_families.specs.Properties.{IsAnswer};

use crate::closed_sets::ClosedSets;
use crate::family::Family;

/// A property of closed sets that can be asked of whole families.
pub trait SetProperty {
    /// The graphs, by the dependencies of each id, that it may be asked about.
    ghost is_about: { Self → List ℕ → Type 0 };

    /// The closed sets that it holds of.
    ghost holds: { Self → ℕ → Type 0 };

    /// Asks of a family. The answer is `true` if the property holds of the least member, so also if it holds of each;
    /// `false` if it holds of none; and otherwise an undecided id, on which the family is split.
    ///
    /// Any undecided id will do. The choice decides how many families are asked, never what is found.
    ///
    /// # Errors
    ///
    /// The undecided id.
    fn ask(&self, sets: &ClosedSets<'_>, family: Family) -> Result<bool, usize>
        requires about { is_about self.now sets.now.deps.now }
        requires family { IsFamily sets.now.deps.now family }
        ensures { IsAnswer (holds self.now) sets.now.deps.now family result };
}
