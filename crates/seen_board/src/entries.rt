//! Reading the entries that a seat has seen.
ghost use Rattle.std.specs.Prelude.{◌≡◌, ℕ, ◌<◌, ◌/◌, ◌%◌, length, slice_index};
ghost use Rattle.state_space.specs.Reach.{IsReached};
ghost use Rattle.board_rule.specs.Layout.{half};
ghost use Rattle.board_rule.specs.Lists.{row_of};
ghost use Rattle.seen_board.specs.Clauses.{IsOf, HasPlace, word_at};
ghost use Rattle.seen_board.specs.Seats.{SitsAt, IsSame};

use crate::answers::Place;
use crate::board::Board;
use crate::seat::BoardSeat;
use crate::steps::{EntryFact, ReadHigh, ReadLow};
use atomic_table::Seat;
use board_rule::{SHARDS, View};
use state_space::Space;
use std::alloc::Allocator;
use std::marker::Brand;

pub(crate) const HALF: u128 = 1 << 64;

/// The low and the high 64 bits of a word.
pub(crate) fn halves_of(word: u128) -> (u64, u64)
    ensures low { result.0 ≡ word % half }
    ensures high { result.1 ≡ word / half }
{
    ((word % HALF) as u64, (word / HALF) as u64)
}

impl<S: Space, A: Allocator> Board<S, A> {
    /// The low half of an entry that was seen, and what is said of each entry.
    fn low_half<F: EntryFact>(&self, seat: &mut Seat<(), View>, shard: u8, at: usize) -> u64
        requires seat { SitsAt self.now seat.old }
        requires seen { (shard < SHARDS) × (at < length (row_of seat.old.me.0.rows.seen shard))
            × (at < self.now.places) }
        requires fact { (x : ℕ) → IsReached (S.successors self.now.space) (S.initial self.now.space) x → F.holds_of x }
        ensures same { IsSame seat.old seat.new }
        ensures low { result ≡ slice_index (row_of seat.old.me.0.rows.seen shard) at % half }
        ensures fact { F.holds_of (slice_index (row_of seat.old.me.0.rows.seen shard) at) }
    {
        self.table
            .shared
            .load::<ReadLow<F>>(seat, self.layout.low(shard, at))
    }

    /// An entry that was seen.
    pub(crate) fn entry(&self, seat: &mut Seat<(), View>, shard: u8, at: usize) -> u128
        requires seat { SitsAt self.now seat.old }
        requires seen { (shard < SHARDS) × (at < length (row_of seat.old.me.0.rows.seen shard))
            × (at < self.now.places) }
        ensures same { IsSame seat.old seat.new }
        ensures word { result ≡ slice_index (row_of seat.old.me.0.rows.seen shard) at }
        ensures reached { IsReached (S.successors self.now.space) (S.initial self.now.space) result }
    {
        let low = self.low_half::<Brand>(seat, shard, at);
        let high = self
            .table
            .shared
            .load::<ReadHigh>(seat, self.layout.high(shard, at));
        low as u128 + high as u128 * HALF
    }

    /// The word at a place that the seat has seen. A place that was seen stays as it is.
    pub fn at(&self, seat: &mut BoardSeat, place: Place) -> u128
        requires seat { IsOf self.now seat.old }
        requires seen { HasPlace seat.old.seen place }
        ensures same { seat.new ≡ seat.old }
        ensures word { result ≡ word_at seat.old.seen place }
        ensures reached { IsReached (S.successors self.now.space) (S.initial self.now.space) result }
        ensures lawful { S.is_lawful self.now.space result }
    {
        self.entry(&mut seat.seat, place.shard, place.at as usize)
    }
}
