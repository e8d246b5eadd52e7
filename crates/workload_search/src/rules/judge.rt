//! Judging sets of rules by a workload.
ghost use Rattle.std.specs.Prelude.{◌↔◌, ℕ, IfOk, IsTrue};
ghost use Rattle.patch_sets.specs.Sets.{IsSubset};
ghost use Rattle.question_model.specs.Enough.{rules_but};
ghost use Rattle.enough_rules.specs.Asked.{IsFound};
ghost use Rattle.chosen_rules.specs.Sublists.{all_of};
ghost use Rattle.question_model.specs.Workloads.{Search, Fails};
ghost use Rattle.question_model.specs.EnoughFor.{IsPassing, search_with};
ghost use Rattle.workload_search.specs.Asked.{IsEnoughAt};

use question_model::Places;
use std::alloc::AllocError;

/// Judges sets of a search's rules by its workloads that do not fail.
pub trait RuleJudge {
    /// The search.
    ghost search: { Self → Search };

    /// A group of rules of which the set has none and each set that is enough for the workload has one, or `None`
    /// where the set is enough for it.
    ///
    /// # Errors
    ///
    /// There is not enough memory to find out.
    fn blocking(&self, places: &Places, set: u128) -> Result<Option<u128>, AllocError>
        requires passing { ∥ IsPassing (search self.now) places.now.items ∥₁ }
        requires within { IsSubset set (all_of (search self.now).rules) }
        ensures { IfOk result (IsFound (all_of (search self.now).rules)
            (IsEnoughAt (search self.now) places.now.items) set) };

    /// Whether the workload fails by all rules but those of a group.
    ///
    /// # Errors
    ///
    /// There is not enough memory to find out.
    fn fails_without(&self, places: &Places, group: u128) -> Result<bool, AllocError>
        requires passing { ∥ IsPassing (search self.now) places.now.items ∥₁ }
        ensures { IfOk result (λ fails. IsTrue fails
            ↔ Fails (search_with (search self.now) (rules_but (search self.now).rules group)) places.now.items) };
}
