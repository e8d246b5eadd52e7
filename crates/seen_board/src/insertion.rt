//! Putting words in, each a successor of the one that the seat has claimed.
ghost use Rattle.std.specs.Prelude.{◌≡◌, ◌≤◌, length};
ghost use Rattle.board_rule.specs.Lists.{row_of};
ghost use Rattle.seen_board.specs.Clauses.{IsOf, IsAtRest, Lacks, Writes, with_given_up};
ghost use Rattle.seen_board.specs.Inserts.{IsSuccessor, Returns, PutOk, LookedOk};
ghost use Rattle.seen_board.specs.Seats.{IsProbe};

use crate::answers::{Got, Looked, Place, Put};
use crate::board::Board;
use crate::layout::{Probe, STOP};
use crate::seat::BoardSeat;
use crate::steps::Overflow;
use state_space::Space;
use std::alloc::Allocator;

impl<S: Space, A: Allocator> Board<S, A> {
    /// Looks a word up under the read right, which is given up again.
    fn look_reading(&self, seat: &mut BoardSeat, probe: Probe) -> Looked
        requires seat { IsAtRest self.now seat.old }
        requires probe { IsProbe self.now.places probe }
        ensures returns { Returns seat.old seat.new }
        ensures looked { LookedOk (row_of seat.new.seen probe.shard) probe.word result }
    {
        match self.try_read(seat, probe.shard) {
            Got::Busy => return Looked::Taken,
            Got::Right => {}
        }
        let found = self.look_from(seat, 0, probe);
        self.leave(seat, probe.shard);
        match found {
            Some(at) => Looked::At(at),
            None => Looked::Absent,
        }
    }

    /// Notes that a full row lacks a word that is reached. The stop is set, and the claim is given up.
    fn overflow(&self, seat: &mut BoardSeat, probe: Probe)
        requires seat { IsOf self.now seat.old }
        requires probe { IsProbe self.now.places probe }
        requires writes { Writes seat.old probe.shard }
        requires successor { IsSuccessor (S.successors self.now.space) seat.old probe.word }
        requires full { self.now.places ≤ length (row_of seat.old.seen probe.shard) }
        requires absent { Lacks (row_of seat.old.seen probe.shard) probe.word }
        ensures { seat.new ≡ record (with_given_up seat.old) { over = 1 } }
    {
        self.table.shared.store::<Overflow>(&mut seat.seat, STOP, 1);
    }

    /// Takes the write right and puts a word in, if the part of the row that was seen lacks it.
    fn insert_writing(&self, seat: &mut BoardSeat, probe: Probe) -> Put
        requires seat { IsAtRest self.now seat.old }
        requires probe { IsProbe self.now.places probe }
        requires successor { IsSuccessor (S.successors self.now.space) seat.old probe.word }
        requires absent { Lacks (row_of seat.old.seen probe.shard) probe.word }
        ensures put { PutOk probe.word seat.old seat.new result }
    {
        let shard = probe.shard;
        let seen = seat.counts[shard as usize];
        match self.try_write(seat, shard) {
            Got::Busy => return Put::Busy,
            Got::Right => {}
        }
        if let Some(at) = self.look_from(seat, seen, probe) {
            self.give(seat, shard);
            return Put::Known(Place { shard, at });
        }
        if seat.counts[shard as usize] as usize == self.layout.places {
            self.overflow(seat, probe);
            self.give(seat, shard);
            return Put::Over;
        }
        self.add(seat, probe)
    }

    /// Tries to put a word in that is a successor of the one that the seat has claimed.
    ///
    /// After `New` and `Known` the seat has seen the word at that place; `New` put it in, `Known` and `Busy` put
    /// nothing in, and all three leave the claim. After `Over` the seat knows that more words are reached than the
    /// board may have, the stop is set, the claim is given up and its entry stays claimed for good; the word may have
    /// been put in.
    pub fn try_insert(&self, seat: &mut BoardSeat, word: u128) -> Put
        requires seat { IsAtRest self.now seat.old }
        requires successor { IsSuccessor (S.successors self.now.space) seat.old word }
        ensures put { PutOk word seat.old seat.new result }
    {
        let probe = self.probe(word);
        if let Some(place) = self.find_probe(seat, probe) {
            return Put::Known(place);
        }
        match self.look_reading(seat, probe) {
            Looked::Taken => Put::Busy,
            Looked::At(at) => Put::Known(Place {
                shard: probe.shard,
                at,
            }),
            Looked::Absent => self.insert_writing(seat, probe),
        }
    }
}
