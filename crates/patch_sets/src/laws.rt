//! What holds of closed sets, of the disk that writes blocks and of canonical lists, for every graph.
//!
//! Each function has a law as its contract, and does nothing.
ghost use Rattle.std.specs.Prelude.{◌≡◌, ℕ, ◌↔◌, List, length};
ghost use Rattle.std.specs.List.{AllPairs, Contains};
ghost use Rattle.state_space.specs.Reach.{IsReached};
ghost use Rattle.patch_sets.specs.Sets.{IsBefore};
ghost use Rattle.patch_sets.specs.Closed.{AreEarlier, IsClosed};
ghost use Rattle.patch_sets.specs.Ready.{successors_of};
ghost use Rattle.patch_sets.specs.Machine.{CanLeave, LeadTo};
ghost use Rattle.patch_sets.specs.Writes.{AreRuns, events_of};
ghost use Rattle.patch_sets.specs.declared.write.BlockWrite.{BlockWrite};

/// The empty set is closed, and so is a closed set with one more ready id.
pub fn successors_are_closed(deps: &[u128])
    ensures empty { IsClosed deps.now 0 }
    ensures more { (set after : ℕ) → IsClosed deps.now set → Contains (successors_of deps.now set) after
        → IsClosed deps.now after }
{}

/// One ready id after another leads from the empty set to the closed sets, and to no others.
pub fn reach_is_the_closed_sets(deps: &[u128])
    requires { AreEarlier deps.now }
    ensures { (set : ℕ) → IsReached (successors_of deps.now) 0 set ↔ IsClosed deps.now set }
{}

/// A crash can leave the closed sets committed, and no others.
pub fn crash_leaves_the_closed_sets(deps: &[u128], homes: &[u8])
    requires { AreEarlier deps.now }
    ensures { (set : ℕ) → CanLeave deps.now homes.now set ↔ IsClosed deps.now set }
{}

/// The ids of a closed set in ascending order, cut into longest runs of one block, are block writes that lead to it.
pub fn runs_lead_to_closed_sets(deps: &[u128], homes: &[u8])
    requires earlier { AreEarlier deps.now }
    requires homes { length homes.now ≡ length deps.now }
    ensures { (set : ℕ) (writes : List BlockWrite) → IsClosed deps.now set → AreRuns homes.now set writes
        → LeadTo deps.now homes.now (events_of writes) set }
{}

/// A set has at most one list of block writes that are its longest runs of one block.
pub fn runs_are_one_list(homes: &[u8])
    ensures { (set : ℕ) (writes others : List BlockWrite) → AreRuns homes.now set writes → AreRuns homes.now set others
        → writes ≡ others }
{}

/// Two lists in canonical order with the same sets are equal, so that a property of sets has at most one list.
pub fn canonical_lists_are_one(sets: &[u128], others: &[u128])
    requires ordered { AllPairs IsBefore sets.now }
    requires others_ordered { AllPairs IsBefore others.now }
    requires same { (set : ℕ) → Contains sets.now set ↔ Contains others.now set }
    ensures { sets.now ≡ others.now }
{}
