//! Exploring with many workers.
ghost use Rattle.std.specs.Prelude.{◌≡◌, ℕ, ◌<◌, ◌≤◌, length, IfOk, OnOk, IsErrOf};
ghost use Rattle.std.specs.List.{All};
ghost use Rattle.state_space.specs.Reach.{IsReached};
ghost use Rattle.board_rule.specs.Lists.{Has};
ghost use Rattle.board_rule.specs.Changes.{half_of};
ghost use Rattle.board_rule.specs.Rule.{IsWhole};
ghost use Rattle.patch_sets.specs.Explored.{IsExplored, ReachExceeds};
ghost use Rattle.seen_board.specs.Ended.{claims_made};
ghost use Rattle.explorers.specs.Claims.{HoldsOfAtLeast};
ghost use Rattle.explorers.specs.Ready.{IsIdle, IsReady, IsOutput, IsCounted};
ghost use Rattle.explorers.specs.Shares.{MakeWhole};

use crate::answers::{answer, join_all};
use crate::exploration::Exploration;
use crate::recently_seen::RecentlySeen;
use crate::tasks::{Task, Tasks};
use crate::worker::{ThreadJob, Worker, WorkerOutput};
use hands::{Hand, hands};
use patch_sets::explored::{ExploreFault, Explored};
use seen_board::{Board, BoardSeat, Place};
use state_space::{MAX_BOARD, Space};
use std::alloc::{AllocError, Allocator};
use std::sync::Wait;
use std::thread::Threads;
use thread_jobs::{Gate, run_on_threads};

/// The most words that a worker keeps of those that it has met: 128 KB, which stay in its processor's cache. In a
/// larger table more words are found, but looking for one costs what asking the board does.
const MOST_RECENT: usize = 8192;

/// What an exploration finds, and how many claims it makes.
#[derive(Drop)]
pub struct Exploring<A: Allocator> {
    /// How many words were claimed, each of which was then expanded once. If memory was refused before the workers
    /// began, or for their results, it is 0.
    pub claims: usize,
    pub found: Result<Explored<A>, ExploreFault>,
}

/// Explores a space from its initial word over one board, by 1 to 16 workers.
///
/// For every number of workers and every schedule, an answer other than out of memory is the one that is defined
/// without threads: the number of the words that are reached and those of them that are not good, in canonical order,
/// or that more words are reached than the limit.
///
/// There are as many claims as words are reached, so each of them is expanded exactly once. After a refusal there are
/// no more claims than words that are reached.
///
/// Worker 1 works on the caller's thread, and each of the others on a thread of its own if one can be made. The gate
/// gets each claim before the word is expanded.
pub fn explore<R, A, S, G>(
    rt: &R,
    alloc: A,
    space: &S,
    limit: usize,
    workers: usize,
    gate: &G,
) -> Exploring<A>
where
    R: Threads + Wait + Sync,
    A: Allocator + Copy + Send + Sync,
    S: Space + Sync,
    S::Scratch: Send,
    G: Gate + Sync,
    requires limit { (0 < limit) × (limit ≤ MAX_BOARD) }
    requires workers { (1 ≤ workers) × (workers ≤ 16) }
    ensures found { IfOk result.found (IsExplored (S.successors space.now) (S.initial space.now) (S.is_good space.now)
        limit) }
    ensures too_many { IsErrOf result.found ExploreFault.TooMany
        → ReachExceeds (S.successors space.now) (S.initial space.now) limit }
    ensures each_once { IfOk result.found (λ found. result.claims ≡ found.total) }
    ensures at_most_once { HoldsOfAtLeast (IsReached (S.successors space.now) (S.initial space.now)) result.claims }
{
    match run(rt, alloc, space, limit, workers, gate) {
        Ok(exploring) => exploring,
        Err(_) => Exploring {
            claims: 0,
            found: Err(ExploreFault::OutOfMemory),
        },
    }
}

/// Opens a board, runs the workers and closes it. It fails if memory is refused before the workers begin, or for
/// their results.
fn run<R, A, S, G>(
    rt: &R,
    alloc: A,
    space: &S,
    limit: usize,
    workers: usize,
    gate: &G,
) -> Result<Exploring<A>, AllocError>
where
    R: Threads + Wait + Sync,
    A: Allocator + Copy + Send + Sync,
    S: Space + Sync,
    S::Scratch: Send,
    G: Gate + Sync,
    requires limit { (0 < limit) × (limit ≤ MAX_BOARD) }
    requires workers { (1 ≤ workers) × (workers ≤ 16) }
    ensures found { IfOk result (λ run. IfOk run.found
        (IsExplored (S.successors space.now) (S.initial space.now) (S.is_good space.now) limit)) }
    ensures too_many { IfOk result (λ run. IsErrOf run.found ExploreFault.TooMany
        → ReachExceeds (S.successors space.now) (S.initial space.now) limit) }
    ensures each_once { IfOk result (λ run. IfOk run.found (λ found. run.claims ≡ found.total)) }
    ensures at_most_once { IfOk result (λ run.
        HoldsOfAtLeast (IsReached (S.successors space.now) (S.initial space.now)) run.claims) }
{
    let (board, seat, place) = Board::open(alloc, space, limit)?;
    let hands = first_hands(alloc, space, place, workers)?;
    let exploration = Exploration {
        board: &board,
        space,
        gate,
    };
    let output = work_all(rt, alloc, &exploration, seat, hands)?;
    Ok(answer(alloc, space, limit, board, output))
}

/// Lets a worker work for each hand, and joins what they leave to the seat, which has the whole board before and after.
fn work_all<R, A, S, G>(
    rt: &R,
    alloc: A,
    exploration: &Exploration<'_, S, G, A>,
    mut seat: BoardSeat,
    hands: Vec<Hand<Task, A>, A>,
) -> Result<WorkerOutput, AllocError>
where
    R: Threads + Wait + Sync,
    A: Allocator + Copy + Send + Sync,
    S: Space + Sync,
    S::Scratch: Send,
    G: Gate + Sync,
    requires space { exploration.now.board.now.space ≡ exploration.now.space.now }
    requires idle { IsIdle exploration.now.board.now seat }
    requires new { claims_made seat ≡ 0 }
    requires whole { IsWhole seat.share }
    requires start { Has seat.seen (S.initial exploration.now.space.now) }
    requires few { length hands.items ≤ 16 }
    requires ways { All (λ hand. length hand.ways ≡ length hands.items) hands.items }
    ensures output { IfOk result (IsOutput exploration.now.board.now) }
    ensures counted { IfOk result IsCounted }
    ensures whole { IfOk result (λ output. IsWhole output.seat.share) }
{
    let workers = new_workers(
        alloc,
        exploration.board,
        exploration.space,
        &mut seat,
        hands,
    )?;
    let output = run_on_threads(rt, &ThreadJob { rt, exploration }, workers)?;
    let before = WorkerOutput {
        seat,
        expanded: 0,
        is_over: false,
    };
    Ok(join_all(exploration.board, before, output))
}

/// A hand for each worker. The first has the initial word, which is at `place`, as its task.
fn first_hands<S: Space, A: Allocator + Copy>(
    alloc: A,
    space: &S,
    place: Place,
    workers: usize,
) -> Result<Vec<Hand<Task, A>, A>, AllocError>
    requires workers { (1 ≤ workers) × (workers ≤ 16) }
    ensures count { IfOk result (λ hands. length hands.items ≡ workers) }
    ensures ways { IfOk result (λ hands. All (λ hand. length hand.ways ≡ workers) hands.items) }
{
    let mut all = hands(alloc, workers)?;
    let word = space.start();
    match all[0].push(Task { word, place }) {
        Ok(()) => Ok(all),
        Err(_) => Err(AllocError),
    }
}

/// A worker for each hand, with a seat that is split off and has seen the initial word. Worker 1, whose hand is the
/// first, is the last. Their seats and the one that is left have the whole board together.
fn new_workers<S: Space, A: Allocator + Copy>(
    alloc: A,
    board: &Board<S, A>,
    space: &S,
    seat: &mut BoardSeat,
    mut hands: Vec<Hand<Task, A>, A>,
) -> Result<Vec<Worker<S::Scratch, A>, A>, AllocError>
    requires space { board.now.space ≡ space.now }
    requires idle { IsIdle board.now seat.old }
    requires whole { IsWhole seat.old.share }
    requires start { Has seat.old.seen (S.initial space.now) }
    requires few { length hands.items ≤ 16 }
    requires ways { All (λ hand. length hand.ways ≡ length hands.items) hands.items }
    ensures idle { IsIdle board.now seat.new }
    ensures made { claims_made seat.new ≡ claims_made seat.old }
    ensures shares { IfOk result (λ workers. MakeWhole seat.new.share (λ worker. worker.seat.share) workers.items) }
    ensures count { IfOk result (λ workers. length workers.items ≡ length hands.items) }
    ensures ready { IfOk result (λ workers. All (IsReady board.now space.now S.is_own) workers.items) }
{
    let count = hands.len();
    let mut workers = Vec::new(alloc);
    while let Some(hand) = hands.pop() {
        let tasks = Tasks::new(hand, hands.len(), count);
        let worker = new_worker(alloc, board, space, seat, tasks)?;
        workers.push(worker)?;
    }
    Ok(workers)
}

/// A worker with these tasks, and with a seat that is split off and has seen the initial word.
fn new_worker<S: Space, A: Allocator + Copy>(
    alloc: A,
    board: &Board<S, A>,
    space: &S,
    seat: &mut BoardSeat,
    tasks: Tasks<A>,
) -> Result<Worker<S::Scratch, A>, AllocError>
    requires space { board.now.space ≡ space.now }
    requires idle { IsIdle board.now seat.old }
    requires start { Has seat.old.seen (S.initial space.now) }
    ensures idle { IsIdle board.now seat.new }
    ensures made { claims_made seat.new ≡ claims_made seat.old }
    ensures share { OnOk result (seat.new.share ≡ half_of seat.old.share) }
    ensures half { IfOk result (λ worker. worker.seat.share ≡ half_of seat.old.share) }
    ensures seen { seat.new.seen ≡ seat.old.seen }
    ensures ready { IfOk result (IsReady board.now space.now S.is_own) }
{
    let scratch = space.scratch()?;
    let recent = RecentlySeen::new(alloc, space.start(), board.limit().min(MOST_RECENT))?;
    Ok(Worker::new(board.split(seat), scratch, tasks, recent))
}
