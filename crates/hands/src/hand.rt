//! A worker's hand.
ghost use Rattle.std.specs.Prelude.{◌≡◌, ◌<◌, length, MatchOption, MatchResult, slice_index_or, slice_set};
ghost use Rattle.crossbeam_deque.specs.Handles.{worker_view, worker_deque};
ghost use Rattle.hands.specs.Accounts.{with_pushed, with_taken};
ghost use Rattle.hands.specs.Together.{IsSameHand};

use crate::account::{Accounts, Held, Pushed, Taken};
use crate::thief::Thief;
use crossbeam_deque::Worker;
use std::alloc::Allocator;
use std::marker::Model;

/// A worker's own deque.
pub(crate) type Deque<T, A> = Worker<T, A, Held<T>, Accounts>;

/// A worker's own deque, which it pushes to and pops from at the back, and ways to the deques of all workers, from
/// which it steals at the front.
///
/// Contracts see which deques they are and what each pass holds as pushed and as taken. A struct that holds a hand
/// writes its `Drop` out, with `drop(hand)`, since a derived one gets no proof.
#[derive(Drop)]
pub struct Hand<T, A: Allocator> {
    pub(crate) deque: Deque<T, A>,
    pub(crate) reaches: Vec<Thief<T, A>, A>,
}

impl<T, A: Allocator> Model for Hand<T, A> {
    ghost use Rattle.std.specs.Prelude.{◌<◌};
    ghost use Rattle.crossbeam_deque.specs.Handles.{worker_view, worker_deque};
    ghost use Rattle.hands.specs.Known.{Known};

    ghost Value = { Known T A };

    ghost view = { λ h. record { home = worker_deque h.deque; own = worker_view h.deque; ways = h.reaches.items } };

    ghost invariant = { λ h. 0 < (worker_view h.deque).parts };
}

impl<T: Drop, A: Allocator> Hand<T, A> {
    /// Puts a task at the back of the worker's own deque, or hands it back if the deque cannot grow.
    pub fn push(&mut self, task: T) -> Result<(), T>
        ensures same { IsSameHand self.old self.new }
        ensures pushed { MatchResult result
            (λ _. self.new ≡ record self.old { own = with_pushed self.old.own task })
            (λ back. (back ≡ task) × (self.new ≡ self.old)) }
    {
        self.deque.push_as::<Pushed>(task)
    }

    /// Takes the newest task that is left in the worker's own deque.
    pub fn pop(&mut self) -> Option<T>
        ensures same { IsSameHand self.old self.new }
        ensures popped { MatchOption result
            (self.new ≡ self.old)
            (λ task. self.new ≡ record self.old { own = with_taken self.old.own task }) }
    {
        self.deque.pop_as::<Taken>()
    }

    /// Takes the oldest task of a worker's deque, workers being numbered from 0. `None` says only that nothing was
    /// taken.
    pub fn steal(&mut self, from: usize) -> Option<T>
        requires { from < length self.old.ways }
        ensures same { IsSameHand self.old self.new }
        ensures stolen { (d : _) → let before = slice_index_or self.old.ways from d in MatchOption result
            (self.new ≡ self.old)
            (λ task. self.new ≡ record self.old {
              ways = slice_set self.old.ways from (record before { holds = with_taken before.holds task });
            }) }
    {
        self.reaches[from].steal()
    }
}
