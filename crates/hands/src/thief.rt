//! The way to a deque.
ghost use Rattle.std.specs.Prelude.{◌≡◌, MatchOption};
ghost use Rattle.crossbeam_deque.specs.Handles.{view, IsPassOf};
ghost use Rattle.hands.specs.Accounts.{with_taken};

use crate::account::{Accounts, Held, Taken};
use crossbeam_deque::{Pass, Stealer};
use std::alloc::Allocator;
use std::marker::Model;

/// A way to a deque: what takes tasks at its front, and the pass that holds what was taken.
#[derive(Drop)]
pub(crate) struct Thief<T, A: Allocator> {
    pub(crate) stealer: Stealer<T, A, Held<T>, Accounts>,
    pub(crate) pass: Pass<T, Held<T>, A>,
}

impl<T, A: Allocator> Model for Thief<T, A> {
    ghost use Rattle.std.specs.Prelude.{◌<◌};
    ghost use Rattle.crossbeam_deque.specs.Handles.{view as knowledge, IsPassOf, stealer_deque};
    ghost use Rattle.hands.specs.Known.{Way};

    ghost Value = { Way T A };

    ghost view = { λ r. record { home = stealer_deque r.stealer; holds = knowledge r.pass } };

    ghost invariant = { λ r. IsPassOf (stealer_deque r.stealer) r.pass × (0 < (knowledge r.pass).parts) };
}

impl<T, A: Allocator> Thief<T, A> {
    /// The oldest task of the deque, if one was taken.
    pub(crate) fn steal(&mut self) -> Option<T>
        ensures { MatchOption result (self.new ≡ self.old) (λ task.
            self.new ≡ record self.old {
              holds = with_taken self.old.holds task;
            }) }
    {
        self.stealer.steal_as::<Taken>(&mut self.pass).success()
    }
}

impl<T: Drop, A: Allocator> Thief<T, A> {
    /// Only the pass.
    pub(crate) fn into_pass(self) -> Pass<T, Held<T>, A>
        ensures deque { IsPassOf self.home result }
        ensures holds { view result ≡ self.holds }
    {
        let Thief { stealer, pass } = self;
        drop(stealer);
        pass
    }
}
