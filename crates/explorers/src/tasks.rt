//! The tasks of a worker.
ghost use Rattle.std.specs.Prelude.{◌≡◌, ◌<◌, ◌≤◌, length, All, IfOk, MatchOption, MatchResult};
ghost use Rattle.hands.specs.Accounts.{with_pushed, with_taken};
ghost use Rattle.explorers.specs.Tasks.{HasStolen};

use hands::Hand;
use seen_board::Place;
use std::alloc::Allocator;
use std::marker::Model;

/// A word that waits, and the place of its entry. It is a hint: nothing rests on it.
#[derive(Clone, Copy, Debug, PartialEq, Eq, Drop)]
pub(crate) struct Task {
    pub word: u128,
    pub place: Place,
}

/// A worker's hand, and which of the workers it is. Contracts see the hand.
pub(crate) struct Tasks<A: Allocator> {
    hand: Hand<Task, A>,
    // The worker's number, from 0.
    own: usize,
    workers: usize,
}

impl<A: Allocator> Model for Tasks<A> {
    ghost use Rattle.std.specs.Prelude.{◌<◌, ◌≤◌, length};
    ghost use Rattle.hands.specs.Known.{Known};
    ghost use Rattle.explorers.specs.declared.tasks.Task.{Task};

    ghost Value = { Known Task A };

    ghost view = { λ t. t.hand };

    ghost invariant = { λ t. (t.own < t.workers) × (t.workers ≤ 16) × (t.workers ≤ length t.hand.ways) };
}

impl<A: Allocator> Tasks<A> {
    /// The hand of a worker, numbered from 0, as its tasks.
    pub fn new(hand: Hand<Task, A>, own: usize, workers: usize) -> Tasks<A>
        requires own { own < workers }
        requires workers { workers ≤ 16 }
        requires ways { workers ≤ length hand.ways }
        ensures { result ≡ hand }
    {
        Tasks { hand, own, workers }
    }

    /// The worker's number, from 1.
    pub fn number(&self) -> usize {
        self.own + 1
    }

    /// Puts a task at the back of the worker's own deque, or hands it back if the deque cannot grow.
    pub fn push(&mut self, task: Task) -> Result<(), Task>
        ensures { MatchResult result
            (λ _. self.new ≡ record self.old { own = with_pushed self.old.own task })
            (λ back. (back ≡ task) × (self.new ≡ self.old)) }
    {
        self.hand.push(task)
    }

    /// Takes the newest task that is left in the worker's own deque.
    pub fn pop(&mut self) -> Option<Task>
        ensures { MatchOption result
            (self.new ≡ self.old)
            (λ task. self.new ≡ record self.old { own = with_taken self.old.own task }) }
    {
        self.hand.pop()
    }

    /// Takes the oldest task of another worker's deque, trying each once, from the next worker's on. `None` says only
    /// that nothing was taken.
    pub fn steal(&mut self) -> Option<Task>
        ensures { MatchOption result (self.new ≡ self.old) (λ task. HasStolen self.old task self.new) }
    {
        for step in 1..self.workers {
            let from = (self.own + step) % self.workers;
            if let Some(task) = self.hand.steal(from) {
                return Some(task);
            }
        }
        None
    }
}

impl<A: Allocator> Drop for Tasks<A> {
    fn drop(self) {
        let Tasks {
            hand,
            own: _,
            workers: _,
        } = self;
        drop(hand);
    }
}
