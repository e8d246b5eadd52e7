//! A board, and how it is opened.
ghost use Rattle.std.specs.Prelude.{◌≡◌, ◌<◌, ◌≤◌, IfOk};
ghost use Rattle.seen_board.specs.Known.{first_known};
ghost use Rattle.board_rule.specs.Rule.{IsWhole};
ghost use Rattle.seen_board.specs.Clauses.{Names};
ghost use Rattle.seen_board.specs.Ended.{Ended, Accounts, IsOpening};

use crate::answers::Place;
use crate::entries::halves_of;
use crate::layout::{COUNT, Layout, PENDING, Probe};
use crate::seat::BoardSeat;
use crate::steps::{About, Order};
use atomic_table::Table;
use board_rule::{SHARDS, View};
use state_space::{MAX_BOARD, Space};
use std::alloc::{AllocError, Allocator};
use std::marker::Model;
use std::snapshot::Snapshot;

/// A board over a space. Seats of many threads use it through a `&`.
#[derive(Drop)]
pub struct Board<S: Space, A: Allocator> {
    pub(crate) table: Table<(), View, About<S>, Order<S>, A>,
    pub(crate) layout: Layout,
    pub(crate) limit: usize,
}

impl<S: Space, A: Allocator> Model for Board<S, A> {
    ghost use Rattle.std.specs.Prelude.{◌≡◌, ◌<◌, ◌≤◌};
    ghost use Rattle.state_space.specs.declared.limits.TheConstants.{MAX_BOARD};
    ghost use Rattle.board_rule.specs.Layout.{size_for};
    ghost use Rattle.seen_board.specs.Known.{Shown};

    ghost Value = { Shown S };

    ghost view = { λ b.
        record {
          board = b.table.shared.table_id;
          limit = b.limit;
          places = b.layout.places;
          space = b.table.shared.key.space.value;
        } };

    ghost invariant = { λ b. (b.table.shared.table_id.words ≡ size_for b.layout.places)
        × (b.table.shared.table_id.slots ≡ 0) × (b.table.shared.key.places ≡ b.layout.places)
        × (b.table.shared.key.limit ≡ b.limit) × (0 < b.layout.places) × (b.layout.places ≤ MAX_BOARD) × (0 < b.limit)
        × (b.limit ≤ MAX_BOARD) };
}

impl<S: Space, A: Allocator + Copy> Board<S, A> {
    /// A board that may have `limit` words, with the space's initial word as its one entry, a seat that has seen it and
    /// has the whole board, and its place. The entry waits, and pending and the count are 1, as closing the board with
    /// this seat would show. Opening is the only call that can run out of memory.
    ///
    /// Each row has as many places as the limit, since one shard may have all words. A place takes 416 bytes, 32 in each
    /// row.
    pub fn open(
        alloc: A,
        space: &S,
        limit: usize,
    ) -> Result<(Board<S, A>, BoardSeat, Place), AllocError>
        requires positive { 0 < limit }
        requires small { limit ≤ MAX_BOARD }
        ensures board { IfOk result (λ t. (t.0.limit ≡ limit) × (t.0.places ≡ limit) × (t.0.space ≡ space.now)) }
        ensures seat { IfOk result (λ t. t.1 ≡ first_known t.0.board limit limit (S.initial space.now)) }
        ensures start { IfOk result (λ t. Names t.1.seen t.2 (S.initial space.now)) }
        ensures opening { IfOk result (λ t. IsWhole t.1.share
            × ((e : Ended) → Accounts (S.initial space.now) t.1 e → IsOpening (S.initial space.now) e)) }
    {
        let start = space.start();
        let (low, high) = halves_of(start);
        let layout = Layout { places: limit };
        let Probe { shard, first, .. } = layout.probe(start);
        let mut words = vec![in alloc; 0u64; layout.size()]?;
        words[PENDING] = 1;
        words[COUNT] = 1;
        words[layout.length(shard)] = 1;
        words[layout.low(shard, 0)] = low;
        words[layout.high(shard, 0)] = high;
        words[layout.mark(shard, first)] = 1;
        let about = About {
            space: Snapshot::of(space),
            limit,
            places: limit,
        };
        let (table, seat) = Table::of_words(alloc, words.as_slice(), &about)?;
        let mut counts = [0u16; SHARDS];
        counts[shard as usize] = 1;
        let board = Board {
            table,
            layout,
            limit,
        };
        Ok((board, BoardSeat { seat, counts }, Place { shard, at: 0 }))
    }

    /// How many words the board may have, 1 to 32768.
    pub fn limit(&self) -> usize
        ensures limit { result ≡ self.now.limit }
        ensures range { (0 < result) × (result ≤ MAX_BOARD) }
    {
        self.limit
    }
}
