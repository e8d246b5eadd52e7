//! What can never happen: no thread can have two seats as one of these calls takes them. Each call proves that.
ghost use Rattle.std.specs.Prelude.{◌≡◌, ◌<◌, length, Contains};
ghost use Rattle.board_rule.specs.Layout.{writer};
ghost use Rattle.board_rule.specs.Lists.{row_of};
ghost use Rattle.seen_board.specs.Clauses.{IsOf, HasRight, HasOrGaveUp, number};

use crate::answers::Place;
use crate::board::Board;
use crate::layout::PENDING;
use crate::seat::BoardSeat;
use crate::steps::{Clash, Never};
use board_rule::SHARDS;
use state_space::Space;
use std::alloc::Allocator;

impl<S: Space, A: Allocator> Board<S, A> {
    /// While a seat has the write right of a shard no other seat has a right of it.
    pub fn refute_two_rights(&self, writing: BoardSeat, other: BoardSeat)
        requires writing { IsOf self.now writing × (writing.right ≡ writer) }
        requires other { IsOf self.now other × HasRight other writing.held }
        ensures { ⊥ }
    {
        let BoardSeat {
            mut seat,
            counts: _,
        } = writing;
        let BoardSeat {
            seat: twin,
            counts: _,
        } = other;
        self.table.shared.join_seat::<Clash>(&mut seat, twin);
        self.table.shared.load::<Never>(&mut seat, PENDING);
    }

    /// While a seat has a right of a shard no other seat has seen more of it, so it has seen the whole row.
    pub fn refute_unseen_entry(&self, holding: BoardSeat, other: BoardSeat)
        requires holding { IsOf self.now holding × (0 < holding.right) }
        requires other { IsOf self.now other
            × (length (row_of holding.seen holding.held) < length (row_of other.seen holding.held)) }
        ensures { ⊥ }
    {
        let BoardSeat {
            mut seat,
            counts: _,
        } = holding;
        let BoardSeat {
            seat: twin,
            counts: _,
        } = other;
        self.table.shared.join_seat::<Clash>(&mut seat, twin);
        self.table.shared.load::<Never>(&mut seat, PENDING);
    }

    /// No two seats have the claim of one entry, and none has one that another has given up, or two have given up.
    pub fn refute_two_claims(&self, claiming: BoardSeat, other: BoardSeat, place: Place)
        requires place { place.shard < SHARDS }
        requires claiming { IsOf self.now claiming × HasOrGaveUp claiming place }
        requires other { IsOf self.now other × HasOrGaveUp other place }
        ensures { ⊥ }
    {
        let BoardSeat {
            mut seat,
            counts: _,
        } = claiming;
        let BoardSeat {
            seat: twin,
            counts: _,
        } = other;
        self.table.shared.join_seat::<Clash>(&mut seat, twin);
        self.table.shared.load::<Never>(&mut seat, PENDING);
    }

    /// No two seats have put one entry in.
    pub fn refute_two_authors(&self, author: BoardSeat, other: BoardSeat, place: Place)
        requires author { IsOf self.now author × Contains author.added (number place) }
        requires other { IsOf self.now other × Contains other.added (number place) }
        ensures { ⊥ }
    {
        let BoardSeat {
            mut seat,
            counts: _,
        } = author;
        let BoardSeat {
            seat: twin,
            counts: _,
        } = other;
        self.table.shared.join_seat::<Clash>(&mut seat, twin);
        self.table.shared.load::<Never>(&mut seat, PENDING);
    }
}
