//! The contents of a closed board, collected.
ghost use Rattle.std.specs.Prelude.{◌≡◌, ℕ, ◌+◌, ◌<◌, ◌≤◌, length, IfOk, OnOk, IsErrOf};
ghost use Rattle.std.specs.List.{concat};
ghost use Rattle.state_space.specs.Counts.{IsListOf};
ghost use Rattle.patch_sets.specs.Explored.{IsExplored, ReachExceeds};
ghost use Rattle.seen_board.specs.Clauses.{HasPlace};
ghost use Rattle.seen_board.specs.Ended.{Entries, AreSettled, IsDone};
ghost use Rattle.explorers.specs.Entries.{IsBrokenBefore, AreDistinct, AreShort};

use patch_sets::explored::{ExploreFault, Explored};
use patch_sets::order::in_order;
use seen_board::{Contents, Life, Place, SHARDS};
use state_space::{MAX_BOARD, Space};
use std::alloc::{AllocError, Allocator};

/// How many words are reached and which of them are not good, from a finished board.
pub(crate) fn collect<S: Space, A: Allocator + Copy>(
    alloc: A,
    _space: &S,
    limit: usize,
    contents: &Contents<A>,
) -> Result<Explored<A>, ExploreFault>
    requires small { limit ≤ MAX_BOARD }
    requires entries { Entries (S.successors _space.now) (S.initial _space.now) limit contents.now.rows }
    requires settled { AreSettled (S.successors _space.now) (S.is_good _space.now) contents.now }
    requires done { IsDone (S.successors _space.now) (S.initial _space.now) contents.now }
    ensures total { IfOk result (λ found. found.total ≡ length (concat contents.now.rows)) }
    ensures found { IfOk result (IsExplored (S.successors _space.now) (S.initial _space.now) (S.is_good _space.now)
        limit) }
    ensures too_many { IsErrOf result ExploreFault.TooMany
        → ReachExceeds (S.successors _space.now) (S.initial _space.now) limit }
{
    let total = count_entries(contents);
    if total > limit {
        return Err(ExploreFault::TooMany);
    }
    let broken = broken_words(alloc, contents)?;
    Ok(Explored {
        total,
        broken: in_order(broken),
    })
}

/// The number of entries.
fn count_entries<A: Allocator>(contents: &Contents<A>) -> usize
    requires thirteen { length contents.now.rows ≡ SHARDS }
    requires short { AreShort contents.now.rows }
    ensures { result ≡ length (concat contents.now.rows) }
{
    let mut total = 0;
    for shard in 0..SHARDS as u8 {
        total += contents.len(shard);
    }
    total
}

/// The words of the broken entries.
fn broken_words<A: Allocator + Copy>(
    alloc: A,
    contents: &Contents<A>,
) -> Result<Vec<u128, A>, AllocError>
    requires distinct { AreDistinct contents.now.rows }
    requires short { AreShort contents.now.rows }
    ensures { IfOk result (λ broken. IsListOf (IsBrokenBefore contents.now SHARDS 0) broken.items) }
{
    let mut broken = Vec::new(alloc);
    for shard in 0..SHARDS as u8 {
        push_broken(contents, shard, &mut broken)?;
    }
    Ok(broken)
}

/// Puts the words of a shard's broken entries at the end.
fn push_broken<A: Allocator>(
    contents: &Contents<A>,
    shard: u8,
    broken: &mut Vec<u128, A>,
) -> Result<(), AllocError>
    requires shard { shard < SHARDS }
    requires distinct { AreDistinct contents.now.rows }
    requires short { AreShort contents.now.rows }
    requires before { IsListOf (IsBrokenBefore contents.now shard 0) broken.old.items }
    ensures { OnOk result (IsListOf (IsBrokenBefore contents.now (shard + 1) 0) broken.new.items) }
{
    for at in 0..contents.len(shard) as u16 {
        push_if_broken(contents, Place { shard, at }, broken)?;
    }
    Ok(())
}

/// Puts the word of an entry at the end if the entry is broken.
fn push_if_broken<A: Allocator>(
    contents: &Contents<A>,
    place: Place,
    broken: &mut Vec<u128, A>,
) -> Result<(), AllocError>
    requires place { HasPlace contents.now.rows place }
    requires distinct { AreDistinct contents.now.rows }
    requires short { AreShort contents.now.rows }
    requires before { IsListOf (IsBrokenBefore contents.now place.shard place.at) broken.old.items }
    ensures { OnOk result (IsListOf (IsBrokenBefore contents.now place.shard (place.at + 1)) broken.new.items) }
{
    if let Life::Broken = contents.life(place) {
        broken.push(contents.word(place))?;
    }
    Ok(())
}
