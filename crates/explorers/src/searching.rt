//! The rows searched for what waits.
ghost use Rattle.std.specs.Prelude.{◌≡◌, ◌<◌, ◌≤◌, length};
ghost use Rattle.board_rule.specs.Lists.{row_of};
ghost use Rattle.seen_board.specs.Clauses.{SeesOn};
ghost use Rattle.explorers.specs.Ready.{IsIdle, IsReady, Keeps, KnowsOver};

use crate::exploration::{Exploration, Round};
use crate::worker::Worker;
use seen_board::{Board, BoardSeat, Place, SHARDS};
use state_space::Space;
use std::alloc::{AllocError, Allocator};
use std::sync::Wait;
use thread_jobs::Gate;

impl<S: Space, G: Gate, A: Allocator + Copy> Exploration<'_, S, G, A> {
    /// Looks at each shard once, and expands what the worker claims there.
    pub(crate) fn search<R: Wait>(
        &self,
        rt: &R,
        mine: &mut Worker<S::Scratch, A>,
    ) -> Result<Round, AllocError>
        requires ready { IsReady self.now.board.now self.now.space.now S.is_own mine.old }
        ensures ready { IsReady self.now.board.now self.now.space.now S.is_own mine.new }
        ensures share { mine.new.seat.share ≡ mine.old.seat.share }
        ensures over { KnowsOver result mine.new }
    {
        for shard in 0..SHARDS as u8 {
            if let Round::Over = self.search_shard(rt, mine, shard)? {
                return Ok(Round::Over);
            }
        }
        Ok(Round::Within)
    }

    /// Tries to claim each place of a shard that the worker has not tried, and expands what it claims.
    fn search_shard<R: Wait>(
        &self,
        rt: &R,
        mine: &mut Worker<S::Scratch, A>,
        shard: u8,
    ) -> Result<Round, AllocError>
        requires ready { IsReady self.now.board.now self.now.space.now S.is_own mine.old }
        requires shard { shard < SHARDS }
        ensures ready { IsReady self.now.board.now self.now.space.now S.is_own mine.new }
        ensures share { mine.new.seat.share ≡ mine.old.seat.share }
        ensures over { KnowsOver result mine.new }
    {
        let count = see_shard(rt, self.board, &mut mine.seat, shard);
        for at in mine.tried[shard as usize]..count {
            mine.tried[shard as usize] = at + 1;
            if let Round::Over = self.visit(rt, mine, Place { shard, at })? {
                return Ok(Round::Over);
            }
        }
        Ok(Round::Within)
    }
}

/// Sees each entry that a shard has, and says how many they are.
pub(crate) fn see_shard<R: Wait, S: Space, A: Allocator>(
    rt: &R,
    board: &Board<S, A>,
    seat: &mut BoardSeat,
    shard: u8,
) -> u16
    requires idle { IsIdle board.now seat.old }
    requires shard { shard < SHARDS }
    ensures idle { IsIdle board.now seat.new }
    ensures keeps { Keeps seat.old seat.new }
    ensures sees { SeesOn seat.old.seen seat.new.seen }
    ensures seen { result ≤ length (row_of seat.new.seen shard) }
{
    board.read(rt, seat, shard);
    let count = board.see(seat, shard);
    board.leave(seat, shard);
    count
}
