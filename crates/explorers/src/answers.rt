//! From what the workers leave to the answer.
ghost use Rattle.std.specs.Prelude.{◌≡◌, ℕ, ◌<◌, ◌≤◌, IfOk, IsErrOf};
ghost use Rattle.std.specs.List.{All};
ghost use Rattle.board_rule.specs.Changes.{both_shares};
ghost use Rattle.state_space.specs.Reach.{IsReached};
ghost use Rattle.board_rule.specs.Rule.{IsWhole};
ghost use Rattle.patch_sets.specs.Explored.{IsExplored, ReachExceeds};
ghost use Rattle.explorers.specs.Claims.{HoldsOfAtLeast};
ghost use Rattle.explorers.specs.Ready.{IsOutput, IsCounted};
ghost use Rattle.explorers.specs.Shares.{MakeWhole};

use crate::collected::collect;
use crate::exploring::Exploring;
use crate::worker::WorkerOutput;
use patch_sets::explored::ExploreFault;
use seen_board::Board;
use state_space::{MAX_BOARD, Space};
use std::alloc::Allocator;

/// What two workers leave, as one.
fn join<S: Space, A: Allocator>(
    board: &Board<S, A>,
    all: WorkerOutput,
    other: WorkerOutput,
) -> WorkerOutput
    requires all { IsOutput board.now all × IsCounted all }
    requires other { IsOutput board.now other × IsCounted other }
    ensures output { IsOutput board.now result }
    ensures counted { IsCounted result }
    ensures share { result.seat.share ≡ both_shares all.seat.share other.seat.share }
{
    let WorkerOutput {
        mut seat,
        expanded: before,
        is_over: was_over,
    } = all;
    let WorkerOutput {
        seat: given,
        expanded,
        is_over,
    } = other;
    board.join(&mut seat, given);
    WorkerOutput {
        seat,
        expanded: before.saturating_add(expanded),
        is_over: was_over || is_over,
    }
}

/// What many workers leave, joined to what is there. All of them have the whole board.
pub(crate) fn join_all<S: Space, A: Allocator>(
    board: &Board<S, A>,
    mut all: WorkerOutput,
    mut others: Vec<WorkerOutput, A>,
) -> WorkerOutput
    requires all { IsOutput board.now all × IsCounted all }
    requires others { All (λ output. IsOutput board.now output × IsCounted output) others.items }
    requires shares { MakeWhole all.seat.share (λ output. output.seat.share) others.items }
    ensures output { IsOutput board.now result }
    ensures counted { IsCounted result }
    ensures whole { IsWhole result.seat.share }
{
    while let Some(other) = others.pop() {
        all = join(board, all, other);
    }
    all
}

/// The answer, and how many claims were made: what the board holds if it is finished, too many words if the board said
/// so to a worker, otherwise out of memory.
pub(crate) fn answer<S: Space, A: Allocator + Copy>(
    alloc: A,
    space: &S,
    limit: usize,
    board: Board<S, A>,
    output: WorkerOutput,
) -> Exploring<A>
    requires board { (board.limit ≡ limit) × (board.places ≡ limit) × (board.space ≡ space.now) }
    requires small { limit ≤ MAX_BOARD }
    requires output { IsOutput board output × IsCounted output }
    requires whole { IsWhole output.seat.share }
    ensures found { IfOk result.found (IsExplored (S.successors space.now) (S.initial space.now) (S.is_good space.now)
        limit) }
    ensures too_many { IsErrOf result.found ExploreFault.TooMany
        → ReachExceeds (S.successors space.now) (S.initial space.now) limit }
    ensures each_once { IfOk result.found (λ found. result.claims ≡ found.total) }
    ensures at_most_once { HoldsOfAtLeast (IsReached (S.successors space.now) (S.initial space.now)) result.claims }
{
    let WorkerOutput {
        mut seat,
        expanded: claims,
        is_over,
    } = output;
    let is_finished = board.finished(&mut seat);
    let contents = board.close(seat);
    if is_finished {
        let found = collect(alloc, space, limit, &contents);
        return Exploring { claims, found };
    }
    if is_over {
        let found = Err(ExploreFault::TooMany);
        return Exploring { claims, found };
    }
    let found = Err(ExploreFault::OutOfMemory);
    Exploring { claims, found }
}
