//! The seat of a thread, and what it has seen.
ghost use Rattle.std.specs.Prelude.{◌↔◌, IsTrue};
ghost use Rattle.seen_board.specs.Clauses.{HasPlace};

use crate::answers::Place;
use atomic_table::Seat;
use board_rule::{SHARDS, View};
use std::marker::Model;

/// What a thread steps with on a board. What clauses see of it is its `Known`.
#[derive(Drop)]
pub struct BoardSeat {
    pub(crate) seat: Seat<(), View>,
    /// How much of each shard's row it has seen.
    pub(crate) counts: [u16; SHARDS],
}

impl Model for BoardSeat {
    ghost use Rattle.std.specs.Prelude.{◌≡◌};
    ghost use Rattle.seen_board.specs.Known.{Known, known_of, Rests, Counts};

    ghost Value = { Known };

    ghost view = { λ s. known_of s.seat.table_id s.seat.me.0 };

    ghost invariant = { λ s. Rests s.seat.me × Counts s.seat.me.0.places s.counts s.seat.me.0.rows.seen };
}

impl BoardSeat {
    /// Whether the seat has seen the place. It takes no step.
    pub fn has_seen(&self, place: Place) -> bool
        ensures { IsTrue result ↔ HasPlace self.now.seen place }
    {
        (place.shard as usize) < SHARDS && place.at < self.counts[place.shard as usize]
    }
}
