//! What is left in a deque.
ghost use Rattle.std.specs.Prelude.{◌≡◌, ℕ, ◌+◌, ◌<◌, List, length, slice_index_or, sum_by, All};
ghost use Rattle.crossbeam_deque.specs.Handles.{worker_view, worker_deque};
ghost use Rattle.hands.specs.Accounts.{weigh};
ghost use Rattle.hands.specs.Together.{AreTogether};
ghost use Rattle.hands.specs.Known.{Way};
ghost use Rattle.hands.specs.Remaining.{IsRemainingIn, LeadsTo, weigh_taken};

use crate::account::{Balance, Together};
use crate::hand::{Deque, Hand};
use std::alloc::Allocator;

/// How many tasks are left in a worker's deque, once all hands of one call of [`hands`](crate::hands) have come back.
/// Workers are numbered from 0.
///
/// The tasks that the hands hold as taken from the deque, and those that are left in it, are together the tasks that
/// its owner holds as pushed: none is lost or duplicated.
pub fn tasks_left<T: Drop, A: Allocator>(mut hands: Vec<Hand<T, A>, A>, of: usize) -> usize
    requires together { AreTogether hands.items }
    requires of { of < length hands.items }
    ensures { (left : List T) × (length left ≡ result) × IsRemainingIn hands.items of left }
{
    let Hand {
        mut deque,
        mut reaches,
    } = hands.remove(of);
    deque.absorb::<Together>(reaches.swap_remove(of).into_pass());
    settled(deque, hands, of)
}

/// The same, if the owner's own way has come back, and the ways of all other hands come back now.
fn settled<T: Drop, A: Allocator>(
    mut deque: Deque<T, A>,
    others: Vec<Hand<T, A>, A>,
    of: usize,
) -> usize
    requires ways { All (LeadsTo (worker_deque deque) of) others.items }
    requires part { 0 < (worker_view deque).parts }
    requires parts { (worker_view deque).parts + length others.items ≡ 17 }
    ensures { (left : List T) × (length left ≡ result)
        × ((e : Way T A) (weight : T → ℕ) → weigh weight (worker_view deque).pushed
        ≡ weigh weight (worker_view deque).taken + sum_by (weigh_taken weight of e) others.items + weigh weight left) }
{
    for hand in others {
        let Hand {
            deque: own,
            mut reaches,
        } = hand;
        drop(own);
        deque.absorb::<Together>(reaches.swap_remove(of).into_pass());
    }
    deque.len_as::<Balance>()
}
