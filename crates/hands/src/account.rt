//! What the passes of a deque hold as pushed and as taken.
ghost use Rattle.std.specs.Prelude.{◌≡◌, ◌+◌, ◌-◌, [], ◌++◌};

use crossbeam_deque::protocol::{Join, Lesson, Outcome, Protocol, Split};
use std::collections::LinkedList;

/// What a pass has pushed and taken, and how many of the deque's 17 parts it has. No value of it is made.
pub struct Held<T> {
    pub pushed: LinkedList<T>,
    pub taken: LinkedList<T>,
    pub parts: usize,
}

/// The rule of a deque: no task is lost or duplicated. What was taken and what is left are exactly what was pushed.
pub struct Accounts;

impl<T> Protocol<T, Held<T>> for Accounts {
    ghost use Rattle.std.specs.Prelude.{[]};
    ghost use Rattle.hands.specs.Accounts.{account_of, IsAccounted};

    ghost holds = { IsAccounted };

    ghost first = { account_of [] [] 17 };

    ghost guest = { account_of [] [] 0 };
}

/// The tasks came.
pub struct Pushed;

impl<T> Outcome<T, Held<T>> for Pushed {
    ghost use Rattle.std.specs.Prelude.{◌≡◌, ◌++◌};
    ghost use Rattle.hands.specs.Accounts.{account_of};

    ghost then = { λ v xs w. w ≡ account_of (v.pushed ++ xs) v.taken v.parts };
}

/// The tasks left.
pub struct Taken;

impl<T> Outcome<T, Held<T>> for Taken {
    ghost use Rattle.std.specs.Prelude.{◌≡◌, ◌++◌};
    ghost use Rattle.hands.specs.Accounts.{account_of};

    ghost then = { λ v xs w. w ≡ account_of v.pushed (v.taken ++ xs) v.parts };
}

/// A new pass gets one part, and has pushed and taken nothing.
pub struct OnePart;

impl<T> Split<Held<T>> for OnePart {
    ghost use Rattle.std.specs.Prelude.{◌-◌, []};
    ghost use Rattle.hands.specs.Accounts.{account_of};

    ghost left = { λ v. account_of v.pushed v.taken (v.parts - 1) };

    ghost right = { λ v. account_of [] [] 1 };
}

/// A pass is given up, and its parts and what it holds go to another.
pub struct Together;

impl<T> Join<Held<T>> for Together {
    ghost use Rattle.std.specs.Prelude.{◌+◌, ◌++◌, []};
    ghost use Rattle.hands.specs.Accounts.{account_of};

    ghost both = { λ v w. account_of (v.pushed ++ w.pushed) (v.taken ++ w.taken) (v.parts + w.parts) };

    ghost spent = { account_of [] [] 0 };
}

/// The one pass with all parts knows the balance.
pub struct Balance;

impl<T> Lesson<T, Held<T>> for Balance {
    ghost use Rattle.std.specs.Prelude.{◌≡◌, ◌+◌, ℕ};
    ghost use Rattle.hands.specs.Accounts.{weigh};

    ghost fact = { λ v items. v.parts ≡ 17 → (h : T → ℕ) → weigh h v.pushed ≡ weigh h v.taken + weigh h items };
}
