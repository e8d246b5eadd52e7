//! A place that another worker handed over.
ghost use Rattle.std.specs.Prelude.{◌≡◌};
ghost use Rattle.seen_board.specs.Clauses.{SeesOn};
ghost use Rattle.explorers.specs.Ready.{IsIdle, Keeps};

use crate::searching::see_shard;
use seen_board::{Board, BoardSeat, shard_of};
use state_space::Space;
use std::alloc::Allocator;
use std::sync::Wait;

/// Sees the entry of a word. If the index does not name it, the seat sees the whole row of the word's shard.
pub(crate) fn learn<R: Wait, S: Space, A: Allocator>(
    rt: &R,
    board: &Board<S, A>,
    seat: &mut BoardSeat,
    word: u128,
)
    requires idle { IsIdle board.now seat.old }
    ensures idle { IsIdle board.now seat.new }
    ensures keeps { Keeps seat.old seat.new }
    ensures sees { SeesOn seat.old.seen seat.new.seen }
{
    if board.find(seat, word).is_none() {
        see_shard(rt, board, seat, shard_of(word));
    }
}
