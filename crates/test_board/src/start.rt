//! The first word of a board, and its successors.

ghost use Rattle.std.specs.Prelude.{◌≡◌, ◌≢◌, ◌≤◌, ◌<◌, length, slice_index, MatchOption};
ghost use Rattle.seen_board.specs.Clauses.{IsOf, SeesOn, HasClaim, HasPlace, word_at};
ghost use Rattle.seen_board.specs.Inserts.{PutOk};
ghost use Rattle.test_board.specs.Worker.{IsAt};

use seen_board::{Board, BoardSeat, Place, Put};
use state_space::Space;
use std::alloc::Allocator;

/// The place of the first word.
pub const START: Place = Place { shard: 0, at: 0 };

/// The place of the word 1.
pub const FIRST: Place = Place { shard: 1, at: 0 };

/// Puts in the successor at place `k` of the list of the entry that the seat has claimed, in one try.
fn put_successor<S: Space, A: Allocator>(
    board: &Board<S, A>,
    space: &S,
    seat: &mut BoardSeat,
    place: Place,
    k: u32,
) -> Put
    requires board { IsOf board.now seat.old × (board.now.space ≡ space.now) }
    requires free { seat.old.right ≡ 0 }
    requires claim { HasClaim seat.old place × HasPlace seat.old.seen place }
    requires below { k < length (S.successors space.now (word_at seat.old.seen place)) }
    ensures put { PutOk (slice_index (S.successors space.now (word_at seat.old.seen place)) k) seat.old seat.new
        result }
    ensures sees { SeesOn seat.old.seen seat.new.seen }
    ensures still { result ≢ Put.Over → IsAt board.now place (word_at seat.old.seen place) seat.new }
    ensures after { IsOf board.now seat.new × (seat.new.right ≡ 0) }
{
    let word = board.at(seat, place);
    board.try_insert(seat, space.next(word, k))
}

/// Puts in the successor at place `k` of the first entry, which the seat has claimed. Nothing if it has no such
/// successor.
pub fn put_after_start<S: Space, A: Allocator>(
    board: &Board<S, A>,
    space: &S,
    seat: &mut BoardSeat,
    k: u32,
) -> Option<Put>
    requires board { IsOf board.now seat.old × (board.now.space ≡ space.now) }
    requires free { seat.old.right ≡ 0 }
    requires claim { HasClaim seat.old START × HasPlace seat.old.seen START }
    ensures { MatchOption result (length (S.successors space.now (word_at seat.old.seen START)) ≤ k)
        (λ put. put ≢ Put.Over → IsAt board.now START (word_at seat.old.seen START) seat.new) }
{
    let word = board.at(seat, START);
    if k < space.degree(word) {
        Some(put_successor(board, space, seat, START, k))
    } else {
        None
    }
}
