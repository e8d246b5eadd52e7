//! Questions about sets of rules.
ghost use Rattle.std.specs.Prelude.{ℕ, IfOk};
ghost use Rattle.patch_sets.specs.Sets.{IsSubset};
ghost use Rattle.enough_rules.specs.Asked.{IsFound};

use std::alloc::AllocError;

/// Rules, some sets of which are enough.
pub trait Oracle {
    /// The set of all rules.
    ghost all: { Self → ℕ };

    /// The sets of rules that are enough.
    ghost is_enough: { Self → ℕ → Type 0 };

    /// A group of rules of which the set has none and each set that is enough has one, or `None` if the set is
    /// enough.
    ///
    /// The group is empty if no set is enough.
    ///
    /// # Errors
    ///
    /// There is not enough memory to find out.
    fn blocking(&self, set: u128) -> Result<Option<u128>, AllocError>
        requires { IsSubset set (all self.now) }
        ensures { IfOk result (IsFound (all self.now) (is_enough self.now) set) };
}
