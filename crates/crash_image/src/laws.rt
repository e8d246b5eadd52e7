//! What holds of the space of every graph. Each function has the law as its contract, and reads the graph for its
//! proof alone.

ghost use Rattle.std.specs.Prelude.{ℕ, ◌↔◌, List};
ghost use Rattle.patch_sets.specs.Sets.{AreAllInOrder};
ghost use Rattle.patch_sets.specs.Closed.{IsClosed};
ghost use Rattle.state_space.specs.Reach.{IsReached};
ghost use Rattle.state_space.specs.Counts.{HoldsOf, Outnumbers};
ghost use Rattle.crash_model.specs.Patches.{deps_of, CountsClosed, ExceedsLimit};
ghost use Rattle.crash_model.specs.Checker.{IsFailingUnder};

use crate::space::PatchSpace;
use state_space::Space;
use std::alloc::Allocator;

/// One ready patch after another leads from the empty set to the sets that a crash can leave, and to no others.
pub fn reach_is_the_closed_sets<'a, A: Allocator + Copy>(space: &PatchSpace<'a, A>)
    ensures { let words = ⟦<PatchSpace<'a, A> as Space>⟧ in
        let is_reached = IsReached (words.successors space.now) (words.initial space.now) in
        (set : ℕ) → is_reached set ↔ IsClosed (deps_of space.now.patches) set }
{
    let _graph = space.graph;
}

/// What an explorer finds in the space is what the definitions ask for: the number of the words that are reached is
/// that of the closed sets, and the list of those that are not good is that of the failing sets.
pub fn exploring_finds_the_failing_sets<'a, A: Allocator + Copy>(space: &PatchSpace<'a, A>)
    ensures total { let words = ⟦<PatchSpace<'a, A> as Space>⟧ in
        let is_reached = IsReached (words.successors space.now) (words.initial space.now) in
        (n : ℕ) → HoldsOf is_reached n → CountsClosed space.now.patches n }
    ensures too_many { let words = ⟦<PatchSpace<'a, A> as Space>⟧ in
        let is_reached = IsReached (words.successors space.now) (words.initial space.now) in
        (limit : ℕ) → Outnumbers is_reached limit → ExceedsLimit space.now.patches limit }
    ensures failing { let words = ⟦<PatchSpace<'a, A> as Space>⟧ in
        let is_reached = IsReached (words.successors space.now) (words.initial space.now) in
        (sets : List ℕ) → AreAllInOrder (λ set. is_reached set × ¬ (words.is_good space.now set)) sets
        → AreAllInOrder (IsFailingUnder space.now.demands space.now.base space.now.patches) sets }
{
    let _graph = space.graph;
}
