//! Membership, and sets with one id more.
ghost use Rattle.std.specs.Prelude.{◌≡◌, ℕ, ◌<◌, ◌↔◌, IsTrue};
ghost use Rattle.patch_sets.specs.Sets.{Has, IsSubset, with_id};

/// Whether the id is in the set.
pub fn has(set: u128, id: usize) -> bool
    requires { id < 128 }
    ensures { IsTrue result ↔ Has set id }
{
    set >> id & 1 == 1
}

/// The set with one more id.
pub fn with(set: u128, id: usize) -> u128
    requires { id < 128 }
    ensures { result ≡ with_id set id }
{
    set | 1 << id
}

/// Whether each id of the part is in the whole.
pub fn is_subset(part: u128, whole: u128) -> bool
    ensures { IsTrue result ↔ IsSubset part whole }
{
    part & whole == part
}

/// Whether each id of the set is below `n`.
pub fn is_below(set: u128, n: usize) -> bool
    requires { n < 128 }
    ensures { IsTrue result ↔ ((id : ℕ) → Has set id → id < n) }
{
    set >> n == 0
}
