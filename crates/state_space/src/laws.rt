ghost use Rattle.std.specs.Prelude.{◌≡◌, ℕ, ◌<◌};
ghost use Rattle.state_space.specs.Reach.{IsReached};
ghost use Rattle.state_space.specs.Counts.{HoldsOf, Outnumbers};

use crate::space::Space;

/// The number of words that are reached is unique. If they outnumber a limit, it is above the limit.
pub fn reach_has_one_size<S: Space>(space: &S)
    ensures one { (n m : ℕ) → HoldsOf (IsReached (S.successors space.now) (S.initial space.now)) n
        → HoldsOf (IsReached (S.successors space.now) (S.initial space.now)) m → n ≡ m }
    ensures above { (n limit : ℕ) → HoldsOf (IsReached (S.successors space.now) (S.initial space.now)) n
        → Outnumbers (IsReached (S.successors space.now) (S.initial space.now)) limit → limit < n }
{}
