//! Making a word an entry, under the write right of its shard.
ghost use Rattle.std.specs.Prelude.{◌≡◌, true, false, ◌+◌, ◌<◌, length, slice_index};
ghost use Rattle.board_rule.specs.Lists.{row_of};
ghost use Rattle.board_rule.specs.Changes.{with_entry};
ghost use Rattle.seen_board.specs.Clauses.{IsOf, Lacks, Writes};
ghost use Rattle.seen_board.specs.Inserts.{IsSuccessor, IsNext, AddOk, HasPaid, Filed, Appends};
ghost use Rattle.seen_board.specs.Seats.{SitsAt, StaysAt, HasWriteRightOf, IsProbe};

use crate::answers::{Place, Put};
use crate::board::Board;
use crate::entries::halves_of;
use crate::layout::{COUNT, PENDING, Probe};
use crate::seat::BoardSeat;
use crate::steps::{Announce, Count, File, LayHigh, LayLow, Leave, Mark, Publish};
use atomic_table::Seat;
use board_rule::{SHARDS, View};
use state_space::Space;
use std::alloc::Allocator;

impl<S: Space, A: Allocator> Board<S, A> {
    /// Puts a word at the end of its row, under the write right: 1 more is pending, both halves are stored, and then
    /// the length, which publishes them.
    fn publish(&self, seat: &mut Seat<(), View>, at: usize, probe: Probe)
        requires seat { SitsAt self.now seat.old }
        requires probe { IsProbe self.now.places probe }
        requires writes { HasWriteRightOf seat.old.me.0 probe.shard }
        requires rest { (seat.old.me.0.rows.unfiled ≡ 0) × (seat.old.me.0.pending.announced ≡ 0) }
        requires room { (at ≡ length (row_of seat.old.me.0.rows.seen probe.shard)) × (at < self.now.places) }
        requires claim { IsNext (S.successors self.now.space) seat.old.me.0 probe.word }
        requires absent { Lacks (row_of seat.old.me.0.rows.seen probe.shard) probe.word }
        ensures seat { StaysAt seat.old seat.new }
        ensures view { seat.new.me ≡ (with_entry seat.old.me.0 probe.word, seat.old.me.1) }
    {
        let shared = &self.table.shared;
        let shard = probe.shard;
        let (low, high) = halves_of(probe.word);
        shared.fetch_add::<Announce>(seat, PENDING, 1);
        shared.store::<LayLow>(seat, self.layout.low(shard, at), low);
        shared.store::<LayHigh>(seat, self.layout.high(shard, at), high);
        shared.store::<Publish>(seat, self.layout.length(shard), at as u64 + 1);
    }

    /// Puts a place that was published into the index, at the first zero among its word's index words.
    fn file(&self, seat: &mut Seat<(), View>, at: usize, probe: Probe)
        requires seat { SitsAt self.now seat.old }
        requires probe { IsProbe self.now.places probe }
        requires writes { HasWriteRightOf seat.old.me.0 probe.shard }
        requires owes { (seat.old.me.0.rows.unfiled ≡ at + 1) × (at < self.now.places)
            × (at < length (row_of seat.old.me.0.rows.seen probe.shard))
            × (slice_index (row_of seat.old.me.0.rows.seen probe.shard) at ≡ probe.word) }
        ensures seat { StaysAt seat.old seat.new × (seat.new.me.1 ≡ seat.old.me.1) }
        ensures rest { Filed seat.old.me.0 seat.new.me.0 }
        ensures paid { HasPaid seat.new.me.0 }
    {
        for t in 0..self.layout.window() {
            let slot = self.layout.slot(probe, t);
            let address = self.layout.mark(probe.shard, slot);
            if self.table.shared.load::<Mark>(seat, address) == 0 {
                self.table
                    .shared
                    .store::<File>(seat, address, at as u64 + 1);
                return;
            }
        }
    }

    /// Publishes a word, puts its place into the index, gives the write right up and counts the entry. The answer is
    /// whether the count is within the limit.
    fn append(&self, seat: &mut Seat<(), View>, at: usize, probe: Probe) -> bool
        requires seat { SitsAt self.now seat.old }
        requires probe { IsProbe self.now.places probe }
        requires writes { HasWriteRightOf seat.old.me.0 probe.shard }
        requires rest { (length seat.old.me.0.rows.seen ≡ SHARDS) × (seat.old.me.0.rows.unfiled ≡ 0)
            × (seat.old.me.0.pending.announced ≡ 0) × (seat.old.me.0.count.uncounted ≡ 0) }
        requires room { (at ≡ length (row_of seat.old.me.0.rows.seen probe.shard)) × (at < self.now.places) }
        requires claim { IsNext (S.successors self.now.space) seat.old.me.0 probe.word }
        requires absent { Lacks (row_of seat.old.me.0.rows.seen probe.shard) probe.word }
        ensures seat { StaysAt seat.old seat.new × (seat.new.me.1 ≡ seat.old.me.1) }
        ensures view { Appends seat.old.me.0 probe.word seat.new.me.0 }
        ensures within { result ≡ true → seat.new.me.0.count.over ≡ seat.old.me.0.count.over }
        ensures past { result ≡ false → seat.new.me.0.count.over ≡ 1 }
    {
        self.publish(seat, at, probe);
        self.file(seat, at, probe);
        let shared = &self.table.shared;
        shared.store::<Leave>(seat, self.layout.lock(probe.shard), 0);
        shared.fetch_add::<Count>(seat, COUNT, 1) < self.limit as u64
    }

    /// Puts a word in that the row lacks, under the write right, which is given up.
    pub(crate) fn add(&self, seat: &mut BoardSeat, probe: Probe) -> Put
        requires seat { IsOf self.now seat.old }
        requires probe { IsProbe self.now.places probe }
        requires writes { Writes seat.old probe.shard }
        requires successor { IsSuccessor (S.successors self.now.space) seat.old probe.word }
        requires room { length (row_of seat.old.seen probe.shard) < self.now.places }
        requires absent { Lacks (row_of seat.old.seen probe.shard) probe.word }
        ensures added { AddOk probe.word seat.old seat.new result }
    {
        let shard = probe.shard;
        let at = seat.counts[shard as usize];
        let within = self.append(&mut seat.seat, at as usize, probe);
        seat.counts[shard as usize] = at + 1;
        if within {
            return Put::New(Place { shard, at });
        }
        self.stop(seat);
        Put::Over
    }
}
