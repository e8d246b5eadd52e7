//! Looking words up, with and without a right.
ghost use Rattle.std.specs.Prelude.{◌≡◌, ◌≢◌, ℕ, ◌<◌, ◌≤◌, ◌%◌, length, slice_index, MatchOption};
ghost use Rattle.board_rule.specs.Lists.{row_of};
ghost use Rattle.seen_board.specs.Clauses.{IsOf, HasRight, Lacks, Names, Sees};
ghost use Rattle.seen_board.specs.Founds.{FoundOk};
ghost use Rattle.seen_board.specs.Seats.{SitsAt, IsSame, HasRightOf, IsProbe};

use crate::answers::{Indexed, Place};
use crate::board::Board;
use crate::layout::Probe;
use crate::seat::BoardSeat;
use crate::steps::{Mark, Scan};
use atomic_table::Seat;
use board_rule::{SHARDS, View};
use state_space::Space;
use std::alloc::Allocator;

impl<S: Space, A: Allocator> Board<S, A> {
    /// What is computed once for a word that is looked up.
    pub(crate) fn probe(&self, word: u128) -> Probe
        ensures word { result.word ≡ word }
        ensures probe { IsProbe self.now.places result }
    {
        self.layout.probe(word)
    }

    /// What the index says of a word, under a right of its shard and with nothing to file.
    fn search(&self, seat: &mut Seat<(), View>, probe: Probe) -> Indexed
        requires seat { SitsAt self.now seat.old }
        requires probe { IsProbe self.now.places probe }
        requires right { HasRightOf seat.old.me.0 probe.shard }
        requires filed { seat.old.me.0.rows.unfiled ≡ 0 }
        requires short { length (row_of seat.old.me.0.rows.seen probe.shard) ≤ self.now.places }
        ensures same { IsSame seat.old seat.new }
        ensures found { FoundOk (row_of seat.old.me.0.rows.seen probe.shard) probe.word result }
    {
        for t in 0..self.layout.window() {
            let slot = self.layout.slot(probe, t);
            let mark = self
                .table
                .shared
                .load::<Mark>(seat, self.layout.mark(probe.shard, slot));
            if mark == 0 {
                return Indexed::Absent;
            }
            let at = mark as usize - 1;
            if self.entry(seat, probe.shard, at) == probe.word {
                return Indexed::At(at as u16);
            }
        }
        Indexed::Full
    }

    /// The place of a word among those from `from` up to `to`.
    fn walk(&self, seat: &mut BoardSeat, shard: u8, from: u16, to: u16, word: u128) -> Option<u16>
        requires seat { IsOf self.now seat.old }
        requires range { (shard < SHARDS) × (to ≤ length (row_of seat.old.seen shard)) }
        ensures same { seat.new ≡ seat.old }
        ensures found { MatchOption result ((k : ℕ) → from ≤ k → k < to
            → slice_index (row_of seat.old.seen shard) k ≢ word) (λ k. (k < to)
            × (slice_index (row_of seat.old.seen shard) k ≡ word)) }
    {
        for at in from..to {
            if self.at(seat, Place { shard, at }) == word {
                return Some(at);
            }
        }
        None
    }

    /// The place of a word under a right of its shard, if no place below `from` has it.
    pub(crate) fn look_from(&self, seat: &mut BoardSeat, from: u16, probe: Probe) -> Option<u16>
        requires seat { IsOf self.now seat.old }
        requires probe { IsProbe self.now.places probe }
        requires right { HasRight seat.old probe.shard }
        requires before { (k : ℕ) → k < from → slice_index (row_of seat.old.seen probe.shard) k ≢ probe.word }
        ensures same { seat.new ≡ seat.old }
        ensures found { MatchOption result (Lacks (row_of seat.old.seen probe.shard) probe.word) (λ k.
            (k < length (row_of seat.old.seen probe.shard))
            × (slice_index (row_of seat.old.seen probe.shard) k ≡ probe.word)) }
    {
        match self.search(&mut seat.seat, probe) {
            Indexed::At(at) => Some(at),
            Indexed::Absent => None,
            Indexed::Full => {
                let count = seat.counts[probe.shard as usize];
                self.walk(seat, probe.shard, from, count, probe.word)
            }
        }
    }

    /// The place of a word under a right of its shard, or `None` if the shard lacks it.
    pub fn look(&self, seat: &mut BoardSeat, word: u128) -> Option<Place>
        requires seat { IsOf self.now seat.old }
        requires right { HasRight seat.old (word % SHARDS) }
        ensures same { seat.new ≡ seat.old }
        ensures found { MatchOption result (Lacks (row_of seat.old.seen (word % SHARDS)) word) (λ place.
            Names seat.old.seen place word) }
    {
        let probe = self.probe(word);
        let shard = probe.shard;
        self.look_from(seat, 0, probe).map(|at| Place { shard, at })
    }

    /// Loads an index word. The places up to the one that it names are published, so the seat has seen them.
    fn scan(&self, seat: &mut BoardSeat, shard: u8, slot: usize) -> u64
        requires seat { IsOf self.now seat.old }
        requires range { (shard < SHARDS) × (slot < self.now.places) }
        ensures sees { Sees seat.old seat.new }
        ensures named { result ≤ length (row_of seat.new.seen shard) }
        ensures within { result ≤ self.now.places }
    {
        let mark = self
            .table
            .shared
            .load::<Scan>(&mut seat.seat, self.layout.mark(shard, slot));
        seat.counts[shard as usize] = seat.counts[shard as usize].max(mark as u16);
        mark
    }

    /// Looks a word up with no right. `None` says nothing: the word may be an entry, or become one.
    pub fn find(&self, seat: &mut BoardSeat, word: u128) -> Option<Place>
        requires seat { IsOf self.now seat.old }
        ensures sees { Sees seat.old seat.new }
        ensures found { MatchOption result (Unit {0}) (λ place. Names seat.new.seen place word) }
    {
        self.find_probe(seat, self.probe(word))
    }

    /// Looks a word up with no right, as `find`.
    pub(crate) fn find_probe(&self, seat: &mut BoardSeat, probe: Probe) -> Option<Place>
        requires seat { IsOf self.now seat.old }
        requires probe { IsProbe self.now.places probe }
        ensures sees { Sees seat.old seat.new }
        ensures found { MatchOption result (Unit {0}) (λ place. Names seat.new.seen place probe.word) }
    {
        let shard = probe.shard;
        for t in 0..self.layout.window() {
            let mark = self.scan(seat, shard, self.layout.slot(probe, t));
            if mark == 0 {
                return None;
            }
            let at = mark as usize - 1;
            if self.entry(&mut seat.seat, shard, at) == probe.word {
                return Some(Place {
                    shard,
                    at: at as u16,
                });
            }
        }
        None
    }
}
