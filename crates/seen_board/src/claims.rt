//! Claiming an entry and settling it.
ghost use Rattle.std.specs.Prelude.{◌≡◌, ◌↔◌, ℕ, ◌+◌, true, false, IsTrue, Contains};
ghost use Rattle.board_rule.specs.Lists.{Has};
ghost use Rattle.seen_board.specs.Clauses.{IsOf, HasPlace, HasClaim, word_at, number, with_met, verdict_life};
ghost use Rattle.board_rule.specs.declared.life.Life.TheVariants.{Claimed};

use crate::answers::Place;
use crate::board::Board;
use crate::layout::PENDING;
use crate::seat::BoardSeat;
use crate::steps::{Claim, Repay, Settle};
use state_space::Space;
use std::alloc::Allocator;

/// The life of an entry, as a word.
pub(crate) const WAITING: u64 = 0;

pub(crate) const CLAIMED: u64 = 1;

pub(crate) const CLEAN: u64 = 2;

const BROKEN: u64 = 3;

impl<S: Space, A: Allocator> Board<S, A> {
    /// Claims an entry that the seat has seen: true exactly if this step found it waiting. Either way the seat
    /// learns that it is not waiting any more. An entry whose claim was given up is not claimed again.
    pub fn claim(&self, seat: &mut BoardSeat, place: Place) -> bool
        requires seat { IsOf self.now seat.old }
        requires none { seat.old.claims ≡ 0 }
        requires seen { HasPlace seat.old.seen place }
        ensures yes { result ≡ true
            → seat.new ≡ record (with_met seat.old place Claimed) { claims = 1; place = number place } }
        ensures once { result ≡ true → Contains seat.old.given_up (number place) → ⊥ }
        ensures no { result ≡ false → seat.new ≡ with_met seat.old place Claimed }
    {
        let life = self.layout.life(place.shard, place.at as usize);
        self.table
            .shared
            .compare_exchange::<Claim>(&mut seat.seat, life, WAITING, CLAIMED)
            == WAITING
    }

    /// Settles the entry that the seat has claimed, by the space's verdict, once all its successors are entries. The
    /// claim ends, and the seat has settled one entry more.
    pub fn settle(&self, seat: &mut BoardSeat, place: Place, good: bool)
        requires seat { IsOf self.now seat.old }
        requires claim { HasClaim seat.old place }
        requires seen { HasPlace seat.old.seen place }
        requires successors { (y : ℕ) → Contains (S.successors self.now.space (word_at seat.old.seen place)) y
            → Has seat.old.seen y }
        requires verdict { IsTrue good ↔ S.is_good self.now.space (word_at seat.old.seen place) }
        ensures { seat.new
            ≡ record (with_met seat.old place (verdict_life good)) { claims = 0; verdicts = seat.old.verdicts + 1 } }
    {
        let life = self.layout.life(place.shard, place.at as usize);
        let verdict = if good { CLEAN } else { BROKEN };
        self.table
            .shared
            .store::<Settle>(&mut seat.seat, life, verdict);
        self.table
            .shared
            .fetch_sub::<Repay>(&mut seat.seat, PENDING, 1);
    }
}
