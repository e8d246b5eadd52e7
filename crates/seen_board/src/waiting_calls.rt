//! The calls that try until the answer is not Busy. They do not promise to return.
ghost use Rattle.std.specs.Prelude.{◌≢◌, ◌<◌};
ghost use Rattle.board_rule.specs.Layout.{writer};
ghost use Rattle.seen_board.specs.Clauses.{IsAtRest, Gains};
ghost use Rattle.seen_board.specs.Inserts.{IsSuccessor, PutOk};

use crate::answers::{Got, Put};
use crate::board::Board;
use crate::seat::BoardSeat;
use board_rule::SHARDS;
use state_space::Space;
use std::alloc::Allocator;
use std::sync::Wait;
use std::thread::yield_now;

impl<S: Space, A: Allocator> Board<S, A> {
    /// Waits for the read right of a shard.
    pub fn read<R: Wait>(&self, rt: &R, seat: &mut BoardSeat, shard: u8)
        requires seat { IsAtRest self.now seat.old }
        requires shard { shard < SHARDS }
        ensures right { Gains seat.old 1 shard seat.new }
    {
        for _ in rt.forever() {
            match self.try_read(seat, shard) {
                Got::Right => return,
                Got::Busy => yield_now(),
            }
        }
    }

    /// Waits for the write right of a shard.
    pub fn write<R: Wait>(&self, rt: &R, seat: &mut BoardSeat, shard: u8)
        requires seat { IsAtRest self.now seat.old }
        requires shard { shard < SHARDS }
        ensures right { Gains seat.old writer shard seat.new }
    {
        for _ in rt.forever() {
            match self.try_write(seat, shard) {
                Got::Right => return,
                Got::Busy => yield_now(),
            }
        }
    }

    /// Puts a word in, as `try_insert` does, and waits while a right cannot be taken.
    pub fn insert<R: Wait>(&self, rt: &R, seat: &mut BoardSeat, word: u128) -> Put
        requires seat { IsAtRest self.now seat.old }
        requires successor { IsSuccessor (S.successors self.now.space) seat.old word }
        ensures put { PutOk word seat.old seat.new result }
        ensures done { result ≢ Put.Busy }
    {
        for _ in rt.forever() {
            match self.try_insert(seat, word) {
                Put::Busy => yield_now(),
                put => return put,
            }
        }
        unreachable!()
    }
}
