//! The rights of a shard: taking one in a single try, giving it up, and the length of the row under it.
ghost use Rattle.std.specs.Prelude.{◌≡◌, ◌<◌, ◌≤◌, length};
ghost use Rattle.board_rule.specs.Layout.{writer};
ghost use Rattle.board_rule.specs.Lists.{row_of};
ghost use Rattle.seen_board.specs.Clauses.{IsOf, IsAtRest, Gains, HasRight, Reads, Writes};
ghost use Rattle.seen_board.specs.Seats.{SitsAt, IsSame, HasRightOf};

use crate::answers::Got;
use crate::board::Board;
use crate::seat::BoardSeat;
use crate::steps::{Enter, Leave, Measure, Seize};
use atomic_table::Seat;
use board_rule::{SHARDS, View};
use state_space::Space;
use std::alloc::Allocator;

/// A lock's word while a seat has the write right. Below it, the word is the number of readers.
const WRITER: u64 = 1 << 32;

impl<S: Space, A: Allocator> Board<S, A> {
    /// The length of the row, under a right of its shard.
    fn measure(&self, seat: &mut Seat<(), View>, shard: u8) -> u16
        requires seat { SitsAt self.now seat.old }
        requires right { HasRightOf seat.old.me.0 shard }
        ensures same { IsSame seat.old seat.new }
        ensures length { result ≡ length (row_of seat.old.me.0.rows.seen shard) }
        ensures within { result ≤ self.now.places }
    {
        self.table
            .shared
            .load::<Measure>(seat, self.layout.length(shard)) as u16
    }

    /// Tries for the read right of a shard. While a seat has it, other seats may read and none may write.
    pub fn try_read(&self, seat: &mut BoardSeat, shard: u8) -> Got
        requires seat { IsAtRest self.now seat.old }
        requires shard { shard < SHARDS }
        ensures seat { IsOf self.now seat.new }
        ensures right { result ≡ Got.Right → Gains seat.old 1 shard seat.new }
        ensures busy { result ≡ Got.Busy → seat.new ≡ seat.old }
    {
        let lock = self.layout.lock(shard);
        let shared = &self.table.shared;
        let readers = shared.peek(lock);
        if readers >= WRITER - 1 {
            return Got::Busy;
        }
        if shared.compare_exchange::<Enter>(&mut seat.seat, lock, readers, readers + 1) != readers {
            return Got::Busy;
        }
        seat.counts[shard as usize] = self.measure(&mut seat.seat, shard);
        Got::Right
    }

    /// Tries for the write right of a shard. While a seat has it, no other seat has a right.
    pub fn try_write(&self, seat: &mut BoardSeat, shard: u8) -> Got
        requires seat { IsAtRest self.now seat.old }
        requires shard { shard < SHARDS }
        ensures seat { IsOf self.now seat.new }
        ensures right { result ≡ Got.Right → Gains seat.old writer shard seat.new }
        ensures busy { result ≡ Got.Busy → seat.new ≡ seat.old }
    {
        let lock = self.layout.lock(shard);
        let shared = &self.table.shared;
        if shared.compare_exchange::<Seize>(&mut seat.seat, lock, 0, WRITER) != 0 {
            return Got::Busy;
        }
        seat.counts[shard as usize] = self.measure(&mut seat.seat, shard);
        Got::Right
    }

    /// Gives the read right up.
    pub fn leave(&self, seat: &mut BoardSeat, shard: u8)
        requires seat { IsOf self.now seat.old }
        requires reads { (shard < SHARDS) × Reads seat.old shard }
        ensures { seat.new ≡ record seat.old { right = 0 } }
    {
        self.table
            .shared
            .fetch_sub::<Leave>(&mut seat.seat, self.layout.lock(shard), 1);
    }

    /// Gives the write right up.
    pub fn give(&self, seat: &mut BoardSeat, shard: u8)
        requires seat { IsOf self.now seat.old }
        requires writes { (shard < SHARDS) × Writes seat.old shard }
        ensures { seat.new ≡ record seat.old { right = 0 } }
    {
        self.table
            .shared
            .store::<Leave>(&mut seat.seat, self.layout.lock(shard), 0);
    }

    /// The number of entries of a shard of which the seat has a right. It has seen them all.
    pub fn see(&self, seat: &mut BoardSeat, shard: u8) -> u16
        requires seat { IsOf self.now seat.old }
        requires right { (shard < SHARDS) × HasRight seat.old shard }
        ensures same { seat.new ≡ seat.old }
        ensures count { result ≡ length (row_of seat.old.seen shard) }
        ensures within { result ≤ self.now.places }
    {
        self.measure(&mut seat.seat, shard)
    }
}
