ghost use Rattle.std.specs.Prelude.{◌≡◌, ℕ, ◌<◌, ◌≤◌, ◌↔◌, [], ◌∷◌, ◌++◌, length, slice_index, IsTrue, IfOk, IfSome};
ghost use Rattle.std.specs.Prelude.{OnOk, OnErr, IsErrOf, MatchOption};
ghost use Rattle.std.specs.List.{All};
ghost use Rattle.state_space.specs.Walks.{IsNextOf};
ghost use Rattle.patch_sets.specs.Sets.{Has, IsSubset};
ghost use Rattle.patch_sets.specs.Closed.{IsClosed};
ghost use Rattle.patch_sets.specs.Ready.{IsReady, successors_of};
ghost use Rattle.patch_sets.specs.Machine.{CanLeave, LeadTo};
ghost use Rattle.patch_sets.specs.Writes.{AreRuns, events_of};
ghost use Rattle.crash_model.specs.declared.patches.Patch.{Patch};
ghost use Rattle.crash_model.specs.Patches.{deps_of, homes_of};
ghost use Rattle.patch_graph.specs.Independent.{AddsId};
ghost use Rattle.patch_graph.specs.Fronts.{Leaves};
ghost use Rattle.patch_graph.specs.Leads.{IsLead};
ghost use Rattle.patch_graph.specs.Graph.{IsAt, IsPatch, IsGraph, AddsOverlaps, Overlaps, OverlapsAt};

use crate::copying::patches_copy;
use crate::fault::GraphFault;
use crash_model::patches::{MAX_PATCHES, Patch};
use patch_sets::ends::{difference, highest, lowest, without};
use patch_sets::leading::{below, below_lowest};
use patch_sets::set::{has, is_below, is_subset, with};
use patch_sets::write::BlockWrite;
use std::alloc::{AllocError, Allocator};
use std::marker::Model;

/// [`Graph::leading_writes`] cuts a set into parts of this many ids.
const STRIDE: usize = 8;

/// The number of block writes of a set that room is taken for at first. An allocator gives a kilobyte at once, and more
/// than that slowly.
const SOME_WRITES: u32 = 32;

/// Some ids of a set whose block writes come first, and the others.
#[derive(Clone, Copy, Debug)]
pub struct Lead {
    pub ids: u128,
    pub rest: u128,
}

/// Patches in the order in which they were added. Each depends only on earlier ones, and on each earlier one that it
/// overlaps.
///
/// Contracts see the list of the patches.
#[derive(Drop)]
pub struct Graph<A: Allocator + Copy> {
    patches: Vec<Patch, A>,
    /// For each id those that do not depend on it, so that the ready ids of a closed set come one by one.
    independent: [u128; MAX_PATCHES],
    /// For each block the ids of its patches, so that a run of them comes at once.
    at_block: [u128; 256],
}

impl<A: Allocator + Copy> Model for Graph<A> {
    ghost use Rattle.std.specs.Prelude.{List};
    ghost use Rattle.crash_model.specs.declared.patches.Patch.{Patch};

    ghost Value = { List Patch };

    ghost use Rattle.crash_model.specs.Patches.{deps_of, homes_of};
    ghost use Rattle.patch_graph.specs.Independent.{AreIndependent};
    ghost use Rattle.patch_graph.specs.Homes.{AreAtBlocks};
    ghost use Rattle.patch_graph.specs.Graph.{IsGraph};

    ghost view = { λ g. g.patches.items };

    ghost invariant = { λ g. IsGraph g.patches.items × AreIndependent (deps_of g.patches.items) g.independent
        × AreAtBlocks (homes_of g.patches.items) g.at_block };
}

impl<A: Allocator + Copy> Graph<A> {
    /// A graph with no patches.
    pub fn new(alloc: A) -> Graph<A>
        ensures { result ≡ [] }
    {
        Graph {
            patches: Vec::new(alloc),
            independent: [u128::MAX; MAX_PATCHES],
            at_block: [0; 256],
        }
    }

    /// Adds a patch, and each patch that it overlaps to its dependencies.
    ///
    /// It is refused as too many exactly if the graph already has `MAX_PATCHES`. After an error the graph is as it was.
    pub fn push(&mut self, mut patch: Patch) -> Result<(), GraphFault>
        requires whole { IsPatch patch }
        requires earlier { (id : ℕ) → Has patch.deps id → id < length self.old }
        ensures ok { OnOk result ((added : Patch) × AddsOverlaps self.old patch added
            × (self.new ≡ self.old ++ added ∷ [])) }
        ensures full { IsErrOf result GraphFault.TooManyPatches ↔ (length self.old ≡ MAX_PATCHES) }
        ensures err { OnErr result (self.new ≡ self.old) }
    {
        if self.patches.len() == MAX_PATCHES {
            return Err(GraphFault::TooManyPatches);
        }
        patch.deps |= overlapped_by(&patch, &self.patches);
        let id = self.patches.len();
        let (deps, block) = (patch.deps, usize::from(patch.block));
        self.patches.push(patch)?;
        take_out(&mut self.independent, id, deps);
        self.at_block[block] = with(self.at_block[block], id);
        Ok(())
    }

    /// The same graph in memory of its own. It fails only when out of memory.
    pub fn try_copy(&self) -> Result<Graph<A>, AllocError>
        ensures { IfOk result (λ copy. copy ≡ self.now) }
    {
        Ok(Graph {
            patches: patches_copy(*self.patches.allocator(), self.patches.as_slice())?,
            independent: self.independent,
            at_block: self.at_block,
        })
    }

    /// The number of patches. For the proof it also says what holds of every graph.
    pub fn len(&self) -> usize
        ensures number { result ≡ length self.now }
        ensures kept { IsGraph self.now }
    {
        self.patches.len()
    }

    /// Whether there is no patch.
    pub fn is_empty(&self) -> bool
        ensures { IsTrue result ↔ (length self.now ≡ 0) }
    {
        self.patches.is_empty()
    }

    /// The patch of an id.
    pub fn patch(&self, id: usize) -> &Patch
        requires { id < length self.now }
        ensures at { IsAt self.now id result.now }
        ensures whole { IsPatch result.now }
    {
        &self.patches[id]
    }

    /// Whether each patch changes one of the first `blocks` blocks.
    pub fn fits(&self, blocks: usize) -> bool
        ensures { IsTrue result ↔ All (λ patch. patch.block < blocks) self.now }
    {
        self.patches
            .iter()
            .all(|patch| usize::from(patch.block) < blocks)
    }

    /// Whether a crash can leave exactly the set committed: it has only ids of the graph, and with each of them all its
    /// dependencies.
    pub fn is_closed(&self, set: u128) -> bool
        ensures closed { IsTrue result ↔ IsClosed (deps_of self.now) set }
        ensures crash { IsTrue result ↔ CanLeave (deps_of self.now) (homes_of self.now) set }
    {
        is_closed_in(&self.patches, set)
    }

    /// The ids outside the set whose dependencies lie in it.
    pub fn ready(&self, set: u128) -> u128
        ensures { (id : ℕ) → Has result id ↔ IsReady (deps_of self.now) set id }
    {
        let mut ready = 0;
        for (id, patch) in self.patches.iter().enumerate() {
            if is_ready(patch, id, set) {
                ready = with(ready, id);
            }
        }
        ready
    }

    /// The ids of the graph.
    fn ids(&self) -> u128
        ensures { (id : ℕ) → Has result id ↔ (id < length self.now) }
    {
        (1 << self.patches.len()) - 1
    }

    /// What a walk over the ready ids of a closed set begins with: the ids outside it.
    pub fn ahead(&self, set: u128) -> u128
        ensures { Leaves (deps_of self.now) set result 0 }
    {
        // For the proof: that patches depend on earlier ones.
        let _len = self.len();
        difference(self.ids(), set)
    }

    /// The set with the next ready id of a walk added, by ascending ids, or none after the last. What depends on the id
    /// is not ready, and is left out of what is ahead.
    pub fn advance(&self, set: u128, ahead: &mut u128) -> Option<u128>
        requires closed { IsClosed (deps_of self.now) set }
        requires ahead { (k : ℕ) × Leaves (deps_of self.now) set ahead.old k }
        ensures next { (k : ℕ) → Leaves (deps_of self.now) set ahead.old k
            → IsNextOf (successors_of (deps_of self.now) set) k (Leaves (deps_of self.now) set ahead.new) result }
        ensures smaller { IfSome result (λ _. ahead.new < ahead.old) }
    {
        let independent = &self.independent;
        let Some(id) = lowest(*ahead) else {
            return None;
        };
        *ahead &= independent[id];
        Some(with(set, id))
    }

    /// How many sets have one ready id more than a closed set.
    pub fn degree(&self, set: u128) -> u32
        requires { IsClosed (deps_of self.now) set }
        ensures { result ≡ length (successors_of (deps_of self.now) set) }
    {
        // For the proof: how many patches every graph has at most.
        let _len = self.len();
        let mut ahead = self.ahead(set);
        let mut count = 0;
        while let Some(_next) = self.advance(set, &mut ahead) {
            count += 1;
        }
        count
    }

    /// The closed set with one ready id more, for the k-th of them, counted from 0 by ascending ids.
    pub fn next(&self, set: u128, k: u32) -> u128
        requires closed { IsClosed (deps_of self.now) set }
        requires below { k < length (successors_of (deps_of self.now) set) }
        ensures { result ≡ slice_index (successors_of (deps_of self.now) set) k }
    {
        let mut ahead = self.ahead(set);
        for _earlier in 0..k {
            self.advance(set, &mut ahead);
        }
        match self.advance(set, &mut ahead) {
            Some(next) => next,
            None => unreachable!(),
        }
    }

    /// The set's ids of the graph in ascending order, cut into longest runs of one block.
    ///
    /// For a closed set the writes, one after another, are a run of the disk from nothing to that set. It fails
    /// only when out of memory.
    pub fn writes_to(&self, set: u128) -> Result<Vec<BlockWrite, A>, AllocError>
        ensures runs { IfOk result (λ writes. AreRuns (homes_of self.now) set writes.items) }
        ensures leads { IfOk result (λ writes. IsClosed (deps_of self.now) set
            → LeadTo (deps_of self.now) (homes_of self.now) (events_of writes.items) set) }
    {
        let mut left = set & self.ids();
        let mut writes: Vec<BlockWrite, A> = Vec::with_capacity(
            *self.patches.allocator(),
            left.count_ones().min(SOME_WRITES) as usize,
        )?;
        while let Some(id) = lowest(left) {
            let block = self.patches[id].block;
            let others = difference(left, self.at_block[usize::from(block)]);
            let ahead = below_lowest(others);
            writes.push(BlockWrite {
                block,
                ids: left & ahead,
            })?;
            left = difference(left, ahead);
        }
        Ok(writes)
    }

    /// Some ids that a set begins with, cut where a block write ends, so that the writes to the set are theirs and then
    /// those of the rest. `None` if the set has no id.
    ///
    /// Sets of one graph have few such beginnings, and each of them many.
    pub fn leading_writes(&self, set: u128) -> Option<Lead>
        requires { (id : ℕ) → Has set id → id < length self.now }
        ensures { MatchOption result (set ≡ 0) (λ lead. IsLead (homes_of self.now) set lead) }
    {
        let early = below(set, next_stop(lowest(set)?));
        let last = highest(early)?;
        let block = self.patch(last).block;
        let others = difference(difference(set, early), self.at_block[usize::from(block)]);
        let before = below_lowest(others);
        Some(Lead {
            ids: set & before,
            rest: difference(set, before),
        })
    }
}

/// The end of the part of ids that this id is in.
fn next_stop(id: usize) -> usize
    requires { id < 128 }
    ensures { id < result }
{
    id - id % STRIDE + STRIDE
}

/// Whether the patches are of one block and their ranges share a byte.
pub fn overlaps(earlier: &Patch, later: &Patch) -> bool
    requires first { IsPatch earlier.now }
    requires second { IsPatch later.now }
    ensures { IsTrue result ↔ Overlaps earlier.now later.now }
{
    let (first, second) = (usize::from(earlier.offset), usize::from(later.offset));
    earlier.block == later.block
        && first < second + later.new.len()
        && second < first + earlier.new.len()
}

/// The ids of the patches that a patch overlaps.
fn overlapped_by(later: &Patch, patches: &[Patch]) -> u128
    requires few { length patches.now < MAX_PATCHES }
    requires each { All IsPatch patches.now }
    requires whole { IsPatch later.now }
    ensures { (id : ℕ) → Has result id ↔ OverlapsAt patches.now later.now id }
{
    let mut ids = 0;
    for (id, earlier) in patches.iter().enumerate() {
        if overlaps(earlier, later) {
            ids = with(ids, id);
        }
    }
    ids
}

/// Whether the id of a patch is outside the set, with its dependencies inside.
fn is_ready(patch: &Patch, id: usize, set: u128) -> bool
    requires { id < 128 }
    ensures { IsTrue result ↔ (¬ (Has set id) × IsSubset patch.now.deps set) }
{
    !has(set, id) && is_subset(patch.deps, set)
}

/// Whether the set has only ids of the patches, and with each of them all its dependencies.
fn is_closed_in(patches: &[Patch], set: u128) -> bool
    requires { length patches.now ≤ MAX_PATCHES }
    ensures { IsTrue result ↔ IsClosed (deps_of patches.now) set }
{
    if !is_below(set, patches.len()) {
        return false;
    }
    for (id, patch) in patches.iter().enumerate() {
        if has(set, id) && !is_subset(patch.deps, set) {
            return false;
        }
    }
    true
}

/// Takes an id, of a patch that depends on `deps`, out of the masks of the ids that it depends on, including its own.
fn take_out(independent: &mut [u128; MAX_PATCHES], id: usize, deps: u128)
    requires { id < MAX_PATCHES }
    ensures { AddsId id deps independent.old independent.new }
{
    for p in 0..id {
        if !is_subset(deps, independent[p]) {
            independent[p] = without(independent[p], id);
        }
    }
    independent[id] = without(independent[id], id);
}
