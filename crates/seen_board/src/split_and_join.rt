//! Splitting seats off and joining them, and the end of a board.
ghost use Rattle.std.specs.Prelude.{◌≡◌, ℕ, ◌/◌, ◌%◌, ◌<◌, [], length, max, slice_index};
ghost use Rattle.std.specs.List.{All};
ghost use Rattle.state_space.specs.Reach.{IsReached};
ghost use Rattle.board_rule.specs.Lists.{row_of};
ghost use Rattle.board_rule.specs.Lives.{Passes};
ghost use Rattle.board_rule.specs.declared.life.Life.TheVariants.{Claimed};
ghost use Rattle.board_rule.specs.Changes.{half_of};
ghost use Rattle.board_rule.specs.Rule.{IsWhole, Overfills};
ghost use Rattle.seen_board.specs.Ended.{Entries, AreSettled, Accounts, IsDone, life_in};
ghost use Rattle.seen_board.specs.Clauses.{IsOf, SeesOn, both_known};

use crate::board::Board;
use crate::contents::Contents;
use crate::layout::PENDING;
use crate::seat::BoardSeat;
use crate::steps::{BothSeats, Fresh, Placed};
use board_rule::SHARDS;
use state_space::Space;
use std::alloc::Allocator;

/// The larger number at each place.
fn larger_counts(first: &[u16; SHARDS], second: &[u16; SHARDS]) -> [u16; SHARDS]
    ensures { (q : ℕ) → q < SHARDS → slice_index result q ≡ max (slice_index first.now q) (slice_index second.now q) }
{
    let mut counts = *first;
    for q in 0..SHARDS {
        counts[q] = counts[q].max(second[q]);
    }
    counts
}

impl<S: Space, A: Allocator> Board<S, A> {
    /// A second seat, which has seen and knows the same, and has no right and no claim. Each of the two has half of
    /// the share of the board that the seat had.
    pub fn split(&self, seat: &mut BoardSeat) -> BoardSeat
        requires seat { IsOf self.now seat.old }
        ensures same { seat.new ≡ record seat.old { share = half_of seat.old.share } }
        ensures new { result
            ≡ record seat.old {
              right = 0;
              claims = 0;
              given_up = [];
              added = [];
              verdicts = 0;
              share = half_of seat.old.share;
            } }
    {
        let counts = seat.counts;
        BoardSeat {
            seat: self.table.shared.split_seat::<Fresh>(&mut seat.seat),
            counts,
        }
    }

    /// The seat takes over what the other has seen and knows, and its share. The other has no right and no claim, and
    /// is gone.
    pub fn join(&self, seat: &mut BoardSeat, other: BoardSeat)
        requires seat { IsOf self.now seat.old }
        requires other { IsOf self.now other }
        requires idle { (other.right ≡ 0) × (other.claims ≡ 0) }
        ensures both { seat.new ≡ both_known seat.old other seat.new.seen }
        ensures first { SeesOn seat.old.seen seat.new.seen }
        ensures second { SeesOn other.seen seat.new.seen }
    {
        let counts = larger_counts(&seat.counts, &other.counts);
        let BoardSeat {
            seat: given,
            counts: _,
        } = other;
        self.table
            .shared
            .join_seat::<BothSeats>(&mut seat.seat, given);
        self.table.shared.load::<Placed>(&mut seat.seat, PENDING);
        seat.counts = counts;
    }

    /// Ends the board: the final rows, lives and counters, as the last state of the words has them. A seat that has
    /// the whole board, after all others were joined, knows all that happened.
    pub fn close(self, seat: BoardSeat) -> Contents<A>
        requires { IsOf self seat }
        ensures seen { SeesOn seat.seen result.rows }
        ensures whole { 0 < seat.right → row_of seat.seen seat.held ≡ row_of result.rows seat.held }
        ensures entries { Entries (S.successors self.space) (S.initial self.space) self.places result.rows }
        ensures settled { AreSettled (S.successors self.space) (S.is_good self.space) result }
        ensures claimed { seat.claims ≡ 1 → life_in result seat.place ≡ Claimed }
        ensures given_up { All (λ p. life_in result p ≡ Claimed) seat.given_up }
        ensures learned { All (λ met. Passes met.1 (life_in result met.0)) seat.learned }
        ensures added { All (λ p. p / SHARDS < length (row_of result.rows (p % SHARDS))) seat.added }
        ensures accounts { IsWhole seat.share → Accounts (S.initial self.space) seat result }
        ensures finished { seat.finished ≡ 1 → IsDone (S.successors self.space) (S.initial self.space) result }
        ensures over { seat.over ≡ 1
            → Overfills (IsReached (S.successors self.space) (S.initial self.space)) self.limit self.places }
    {
        let Board {
            table,
            layout,
            limit: _,
        } = self;
        let BoardSeat { seat, counts: _ } = seat;
        Contents {
            closed: table.close_with(seat),
            layout,
        }
    }
}
