//! The first closed set that a property holds of.
ghost use Rattle.std.specs.Prelude.{◌≡◌, ◌<◌, ◌⊎◌, ℕ, ◌↔◌, IsTrue, Option, Some};
ghost use Rattle.patch_sets.specs.Sets.{IsBefore};
ghost use Rattle.patch_sets.specs.Closed.{IsClosed};
ghost use Rattle.set_families.specs.Families.{IsFamily, IsMember};
ghost use Rattle.set_families.specs.Firsts.{IsFirstIfAny};

use crate::closed_sets::ClosedSets;
use crate::family::Family;
use crate::property::SetProperty;
use patch_sets::order::is_before;

impl ClosedSets<'_> {
    /// The first closed set in canonical order that a property holds of, or `None` if there is none.
    ///
    /// It takes no memory, and calls itself no deeper than the number of ids.
    pub fn first<Q: SetProperty>(&self, property: &Q) -> Option<u128>
        requires { Q.is_about property.now self.now.deps.now }
        ensures { IsFirstIfAny (λ set. IsClosed self.now.deps.now set × Q.holds property.now set) result }
    {
        let whole = self.whole();
        self.search(property, whole, None)
    }

    /// The first set in canonical order among `best` and the members of a family that a property holds of. A family
    /// whose least member does not come before `best` is not asked.
    ///
    /// It takes no memory, and calls itself no deeper than the number of undecided ids.
    pub fn search<Q: SetProperty>(
        &self,
        property: &Q,
        family: Family,
        best: Option<u128>,
    ) -> Option<u128>
        requires about { Q.is_about property.now self.now.deps.now }
        requires family { IsFamily self.now.deps.now family }
        ensures { IsFirstIfAny
            (λ set. (IsMember self.now.deps.now family set × Q.holds property.now set) ⊎ (best ≡ Some set)) result }
    {
        let least = self.least(family);
        if !is_better(least, best) {
            return best;
        }
        match property.ask(self, family) {
            Ok(true) => Some(least),
            Ok(false) => best,
            Err(id) => {
                let lacking = self.search(property, self.bar(family, id), best);
                self.search(property, self.hold(family, id), lacking)
            }
        }
    }

    /// Whether a property holds of any closed set.
    ///
    /// It takes no memory, and calls itself no deeper than the number of ids.
    pub fn any<Q: SetProperty>(&self, property: &Q) -> bool
        requires { Q.is_about property.now self.now.deps.now }
        ensures { IsTrue result ↔ ((set : ℕ) × IsClosed self.now.deps.now set × Q.holds property.now set) }
    {
        let whole = self.whole();
        self.any_member(property, whole)
    }

    /// Whether a property holds of any member of a family. It stops at the first that is found.
    ///
    /// It takes no memory, and calls itself no deeper than the number of undecided ids.
    pub fn any_member<Q: SetProperty>(&self, property: &Q, family: Family) -> bool
        requires about { Q.is_about property.now self.now.deps.now }
        requires family { IsFamily self.now.deps.now family }
        ensures { IsTrue result ↔ ((set : ℕ) × IsMember self.now.deps.now family set × Q.holds property.now set) }
    {
        match property.ask(self, family) {
            Ok(answer) => answer,
            Err(id) => {
                self.any_member(property, self.bar(family, id))
                    || self.any_member(property, self.hold(family, id))
            }
        }
    }
}

/// Whether a set comes before the best one so far in canonical order, or there is none so far.
fn is_better(set: u128, best: Option<u128>) -> bool
    ensures { IsTrue result ↔ ((other : ℕ) → best ≡ Some other → IsBefore set other) }
{
    match best {
        None => true,
        Some(best) => is_before(set, best),
    }
}
