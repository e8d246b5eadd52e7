//! What one worker does.
ghost use Rattle.std.specs.Prelude.{◌≡◌};
ghost use Rattle.explorers.specs.Ready.{IsReady, KnowsOver};

use crate::exploration::{Exploration, Round};
use crate::recently_seen::RecentlySeen;
use crate::stealing::learn;
use crate::tasks::Tasks;
use seen_board::{BoardSeat, Place, SHARDS};
use state_space::Space;
use std::alloc::{AllocError, Allocator};
use std::sync::Wait;
use std::thread::yield_now;
use thread_jobs::{Gate, Job};

/// After this many rounds in a row with all deques empty, a worker searches the rows.
const EMPTY_ROUNDS: u8 = 64;

/// A worker: its number, from 1, its seat at the board, what it judges in, its tasks, the words that it has met, how
/// many entries it has expanded, and how many places of each shard it has tried to claim in a search of the rows. A
/// place that was tried waits no more.
#[derive(Drop)]
pub(crate) struct Worker<C, A: Allocator> {
    pub number: usize,
    pub seat: BoardSeat,
    pub scratch: C,
    pub tasks: Tasks<A>,
    pub recent: RecentlySeen<A>,
    pub expanded: usize,
    pub empty_rounds: u8,
    pub tried: [u16; SHARDS],
}

impl<C, A: Allocator> Worker<C, A> {
    /// A worker that has expanded nothing and tried nothing.
    pub fn new(
        seat: BoardSeat,
        scratch: C,
        tasks: Tasks<A>,
        recent: RecentlySeen<A>,
    ) -> Worker<C, A>
        ensures seat { result.seat ≡ seat }
        ensures scratch { result.scratch ≡ scratch }
        ensures tasks { result.tasks ≡ tasks }
        ensures recent { result.recent ≡ recent }
        ensures expanded { result.expanded ≡ 0 }
    {
        Worker {
            number: tasks.number(),
            seat,
            scratch,
            tasks,
            recent,
            expanded: 0,
            empty_rounds: 0,
            tried: [0; SHARDS],
        }
    }
}

/// The result of a worker: its seat, how many entries it has expanded, and whether the board said that more words than
/// the limit are reached.
#[derive(Drop)]
pub(crate) struct WorkerOutput {
    pub seat: BoardSeat,
    pub expanded: usize,
    pub is_over: bool,
}

/// An exploration as a job for threads, whose workers wait by `rt`.
#[derive(Drop)]
pub(crate) struct ThreadJob<'a, R, S: Space, G, A: Allocator + Copy> {
    pub rt: &'a R,
    pub exploration: &'a Exploration<'a, S, G, A>,
}

impl<'a, R: Wait, S: Space, G: Gate, A: Allocator + Copy> Job for ThreadJob<'a, R, S, G, A> {
    type Worker = Worker<S::Scratch, A>;

    type Output = WorkerOutput;

    ghost use Rattle.explorers.specs.Ready.{IsReady, IsOutputOf};

    ghost is_ready = { λ job worker.
        IsReady job.exploration.now.board.now job.exploration.now.space.now S.is_own worker };

    ghost is_output = { λ job worker output. IsOutputOf job.exploration.now.board.now worker output };

    /// Works until the board is finished, a stop was read, more words than the limit are reached or memory was
    /// refused.
    fn work(&self, mut worker: Worker<S::Scratch, A>) -> WorkerOutput {
        let mut is_over = false;
        for _ in self.rt.forever() {
            match self.exploration.round(self.rt, &mut worker) {
                Ok(Round::Within) => {}
                Ok(Round::Over) => {
                    is_over = true;
                    break;
                }
                Ok(Round::Ended) | Err(_) => break,
            }
        }
        let Worker { seat, expanded, .. } = worker;
        WorkerOutput {
            seat,
            expanded,
            is_over,
        }
    }
}

impl<S: Space, G: Gate, A: Allocator + Copy> Exploration<'_, S, G, A> {
    /// Takes the newest of its own tasks, else the oldest of another worker's, else passes the round.
    fn round<R: Wait>(&self, rt: &R, mine: &mut Worker<S::Scratch, A>) -> Result<Round, AllocError>
        requires ready { IsReady self.now.board.now self.now.space.now S.is_own mine.old }
        ensures ready { IsReady self.now.board.now self.now.space.now S.is_own mine.new }
        ensures share { mine.new.seat.share ≡ mine.old.seat.share }
        ensures over { KnowsOver result mine.new }
    {
        if self.board.stopped(&mut mine.seat) {
            return Ok(Round::Ended);
        }
        match self.next_place(rt, mine) {
            Some(place) => {
                mine.empty_rounds = 0;
                self.take(rt, mine, place)
            }
            None => self.pass(rt, mine),
        }
    }

    /// The place of the newest of its own tasks, else of the oldest of another worker's, whose entry it looks for.
    fn next_place<R: Wait>(&self, rt: &R, mine: &mut Worker<S::Scratch, A>) -> Option<Place>
        requires ready { IsReady self.now.board.now self.now.space.now S.is_own mine.old }
        ensures ready { IsReady self.now.board.now self.now.space.now S.is_own mine.new }
        ensures share { mine.new.seat.share ≡ mine.old.seat.share }
    {
        if let Some(task) = mine.tasks.pop() {
            return Some(task.place);
        }
        let task = mine.tasks.steal()?;
        learn(rt, self.board, &mut mine.seat, task.word);
        Some(task.place)
    }

    /// Passes a round in which all deques were found empty, and searches the rows in the last of many.
    fn pass<R: Wait>(&self, rt: &R, mine: &mut Worker<S::Scratch, A>) -> Result<Round, AllocError>
        requires ready { IsReady self.now.board.now self.now.space.now S.is_own mine.old }
        ensures ready { IsReady self.now.board.now self.now.space.now S.is_own mine.new }
        ensures share { mine.new.seat.share ≡ mine.old.seat.share }
        ensures over { KnowsOver result mine.new }
    {
        if self.board.finished(&mut mine.seat) {
            return Ok(Round::Ended);
        }
        yield_now();
        mine.empty_rounds = mine.empty_rounds.saturating_add(1);
        if mine.empty_rounds < EMPTY_ROUNDS {
            return Ok(Round::Within);
        }
        mine.empty_rounds = 0;
        self.search(rt, mine)
    }
}
