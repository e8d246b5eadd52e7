//! A closed board.
ghost use Rattle.std.specs.Prelude.{◌≡◌, ◌<◌, length};
ghost use Rattle.board_rule.specs.Lists.{row_of};
ghost use Rattle.seen_board.specs.Clauses.{HasPlace, word_at};
ghost use Rattle.seen_board.specs.Ended.{life_of_entry};

use crate::answers::Place;
use crate::claims::{CLAIMED, CLEAN, WAITING};
use crate::entries::HALF;
use crate::layout::Layout;
use atomic_table::Closed;
use board_rule::{Life, SHARDS};
use std::alloc::Allocator;
use std::marker::Model;

/// A closed board: the final rows, the life of each entry, pending and the count.
pub struct Contents<A: Allocator> {
    pub(crate) closed: Closed<(), A>,
    pub(crate) layout: Layout,
}

impl<A: Allocator> Model for Contents<A> {
    ghost use Rattle.std.specs.Prelude.{◌≡◌};
    ghost use Rattle.std.specs.Mem.Slots.{slots_items, slots_len, IsFull};
    ghost use Rattle.seen_board.specs.Ended.{Ended, end_of, IsReadable};

    ghost Value = { Ended };

    ghost view = { λ c. end_of c.layout.places (slots_items c.closed.words) };

    ghost invariant = { λ c. IsFull c.closed.words × (slots_len c.closed.slots ≡ 0)
        × IsReadable c.layout.places (slots_items c.closed.words) };
}

impl<A: Allocator> Contents<A> {
    /// The number of entries of a shard, which is below `SHARDS`.
    pub fn len(&self, shard: u8) -> usize
        requires { shard < SHARDS }
        ensures { result ≡ length (row_of self.now.rows shard) }
    {
        self.closed.word(self.layout.length(shard)) as usize
    }

    /// The word at a place.
    pub fn word(&self, place: Place) -> u128
        requires { HasPlace self.now.rows place }
        ensures { result ≡ word_at self.now.rows place }
    {
        let at = place.at as usize;
        let low = self.closed.word(self.layout.low(place.shard, at));
        let high = self.closed.word(self.layout.high(place.shard, at));
        low as u128 + high as u128 * HALF
    }

    /// The life of the entry at a place.
    pub fn life(&self, place: Place) -> Life
        requires { HasPlace self.now.rows place }
        ensures { result ≡ life_of_entry self.now place.shard place.at }
    {
        let life = self.layout.life(place.shard, place.at as usize);
        match self.closed.word(life) {
            WAITING => Life::Waiting,
            CLAIMED => Life::Claimed,
            CLEAN => Life::Clean,
            _ => Life::Broken,
        }
    }
}

impl<A: Allocator> Drop for Contents<A> {
    fn drop(self) {
        let Contents { closed, layout: _ } = self;
        closed.free();
    }
}
