//! Hands are made.
ghost use Rattle.std.specs.Prelude.{◌≡◌, ◌<◌, ◌≤◌, length, map, All, IfOk};
ghost use Rattle.hands.specs.Together.{AreFresh, AreTogether, AreFreshWays, hand_homes};
ghost use Rattle.hands.specs.Steps.{IsBare, with_one_less, new_way};

use crate::account::OnePart;
use crate::hand::Hand;
use crate::thief::Thief;
use crossbeam_deque::Worker;
use std::alloc::{AllocError, Allocator};

/// The slots that a new deque has.
const SLOTS: usize = 64;

/// New hands, one for each worker, in the workers' order. Each has a deque of its own and ways to the deques of all.
pub fn hands<T: Drop, A: Allocator + Copy>(
    alloc: A,
    workers: usize,
) -> Result<Vec<Hand<T, A>, A>, AllocError>
    requires workers { (1 ≤ workers) × (workers ≤ 16) }
    ensures fresh { IfOk result (λ hands. AreFresh workers hands.items) }
    ensures together { IfOk result (λ hands. AreTogether hands.items) }
    ensures count { IfOk result (λ hands. length hands.items ≡ workers) }
    ensures ways { IfOk result (λ hands. All (λ hand. length hand.ways ≡ workers) hands.items) }
{
    let mut hands = without_ways(alloc, workers)?;
    for worker in 0..workers {
        let ways = ways_to_all(alloc, &mut hands)?;
        hands[worker].set_ways(ways);
    }
    Ok(hands)
}

/// Hands whose passes have all parts.
fn without_ways<T: Drop, A: Allocator + Copy>(
    alloc: A,
    workers: usize,
) -> Result<Vec<Hand<T, A>, A>, AllocError>
    ensures count { IfOk result (λ hands. length hands.items ≡ workers) }
    ensures bare { IfOk result (λ hands. All IsBare hands.items) }
{
    let mut hands = Vec::new(alloc);
    for _ in 0..workers {
        hands.push(Hand {
            deque: Worker::lifo_as(alloc, SLOTS)?,
            reaches: Vec::new(alloc),
        })?;
    }
    Ok(hands)
}

/// A way to each hand's deque.
fn ways_to_all<T: Drop, A: Allocator + Copy>(
    alloc: A,
    hands: &mut Vec<Hand<T, A>, A>,
) -> Result<Vec<Thief<T, A>, A>, AllocError>
    requires parts { All (λ hand. 1 < hand.own.parts) hands.old.items }
    ensures ways { IfOk result (λ ways. ways.items ≡ map new_way hands.old.items) }
    ensures given { IfOk result (λ _. hands.new.items ≡ map with_one_less hands.old.items) }
{
    let mut ways = Vec::new(alloc);
    for at in 0..hands.len() {
        ways.push(hands[at].way()?)?;
    }
    Ok(ways)
}

impl<T: Drop, A: Allocator> Hand<T, A> {
    /// A new way to the hand's own deque.
    fn way(&mut self) -> Result<Thief<T, A>, AllocError>
        requires { 1 < self.old.own.parts }
        ensures way { IfOk result (λ way. way ≡ new_way self.old) }
        ensures given { IfOk result (λ _. self.new ≡ with_one_less self.old) }
    {
        let stealer = self.deque.stealer()?;
        let pass = self.deque.another::<OnePart>();
        Ok(Thief { stealer, pass })
    }

    fn set_ways(&mut self, ways: Vec<Thief<T, A>, A>)
        ensures { self.new ≡ record self.old { ways = ways.items } }
    {
        self.reaches = ways;
    }
}
