//! Judging sequences of operations.
ghost use Rattle.std.specs.Prelude.{ℕ, List, ◌<◌, ◌++◌, ◌∷◌, [], length, IfOk};
ghost use Rattle.std.specs.List.{All};
ghost use Rattle.question_model.specs.Workloads.{Search};
ghost use Rattle.question_model.specs.Verdict.{IsAccepted, IsVerdict};

use question_model::{Places, Verdict};
use std::alloc::AllocError;

/// Judges the sequences of a search.
///
/// A sequence is judged as a beginning and one operation more, so that the work on a beginning is done once for all
/// operations that follow it.
pub trait Judge {
    /// What is made of a beginning before an operation follows it.
    type Prefix: Drop;

    /// The search.
    ghost search: { Self → Search };

    /// What is made of the beginning with these operations.
    ghost is_prefix: { Self → List ℕ → Self.Prefix → Type 0 };

    /// Begins with the operations at these places of the pool, one after another, of which none is refused.
    ///
    /// # Errors
    ///
    /// There is not enough memory.
    fn begin(&self, places: &Places) -> Result<Self::Prefix, AllocError>
        requires short { length places.now.items < 8 }
        requires among { All (λ place. place < length (search self.now).pool) places.now.items }
        requires accepted { IsAccepted (search self.now) places.now.items }
        ensures { IfOk result (is_prefix self.now places.now.items) };

    /// The verdict on the operations of a beginning, followed by the one at this place of the pool.
    ///
    /// # Errors
    ///
    /// There is not enough memory to find out.
    fn judge_longer(&self, prefix: &Self::Prefix, place: usize) -> Result<Verdict, AllocError>
        requires prefix { (front : List ℕ) × is_prefix self.now front prefix.now }
        requires among { place < length (search self.now).pool }
        ensures { (front : List ℕ) → is_prefix self.now front prefix.now
            → IfOk result (IsVerdict (search self.now) (front ++ place ∷ [])) };

    /// Nothing is refused of a workload before its first operation.
    ghost begins: { (judge : Self) → IsAccepted (search judge) [] };
}
