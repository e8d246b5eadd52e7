//! The patches so far.

ghost use Rattle.std.specs.Prelude.{◌≡◌, ℕ, ◌+◌, ◌<◌, ◌≤◌, ◌↔◌, [], ◌∷◌, ◌++◌, length, false, IsTrue, OnOk, OnErr};
ghost use Rattle.std.specs.Prelude.{IfOk, ◌&&◌, ◌==◌, map};
ghost use Rattle.std.specs.List.{list_any};
ghost use Rattle.patch_sets.specs.Sets.{Has};
ghost use Rattle.crash_model.specs.Patches.{place, places_of};
ghost use Rattle.crash_model.specs.Trace.{is_same_group};
ghost use Rattle.crash_model.specs.Waiting.{forced_by_sync, fsync_forces, ids_from};
ghost use Rattle.traced_patches.specs.Labels.{emitted_at, group_by, links_by};
ghost use Rattle.order_modules.specs.Log.{Adds, IsLog, Keeps, WaitsAt, SharesAt};

use crate::forcing;
use arrayvec::ArrayVec;
use crash_model::disk_bytes::BLOCK_SIZE;
use crash_model::modules::Module;
use crash_model::names::GroupName;
use crash_model::orderings::Ordering;
use crash_model::patches::Patch;
use crash_model::ranges::Range;
use crash_model::rules::Rule;
use disk_image::Image;
use patch_graph::{Graph, GraphFault, MAX_PATCHES};
use patch_sets::set::with;
use std::alloc::{AllocError, Allocator};
use std::marker::Model;
use traced_patches::{Label, Link, Traced, is_in_group, waits};

/// The patches of the operations so far, over a base image.
#[derive(Drop)]
pub struct PatchLog<'a, A: Allocator + Copy> {
    base: &'a Image<A>,
    written: Image<A>,
    ordering: &'a Ordering,
    graph: Graph<A>,
    labels: Vec<Label<'a>, A>,
    links: Vec<Link<'a>, A>,
}

impl<'a, A: Allocator + Copy> Model for PatchLog<'a, A> {
    ghost use Rattle.order_modules.specs.Log.{Log, IsLog, log_of};
    ghost use Rattle.std.specs.Prelude.{◌≡◌, length};

    ghost Value = { Log };

    ghost view = { λ l. log_of l.base.now l.written l.ordering.now l.graph l.labels.items l.links.items };

    ghost invariant = { λ l.
        IsLog (log_of l.base.now l.written l.ordering.now l.graph l.labels.items l.links.items)
        × (length l.labels.items ≡ length l.graph) };
}

impl<'a, A: Allocator + Copy> PatchLog<'a, A> {
    /// No patches over this image.
    pub fn new(
        alloc: A,
        base: &'a Image<A>,
        ordering: &'a Ordering,
    ) -> Result<PatchLog<'a, A>, AllocError>
        ensures ordering { IfOk result (λ log. (log.kind ≡ ordering.now.«module»)
            × (log.rules ≡ ordering.now.rules.items) × (log.whole ≡ ordering.now.whole_blocks)) }
        ensures new { IfOk result (λ log. (log.base ≡ base.now) × (log.links ≡ []) × (log.emitted ≡ [])) }
    {
        Ok(PatchLog {
            base,
            written: base.try_copy()?,
            ordering,
            graph: Graph::new(alloc),
            labels: Vec::new(alloc),
            links: Vec::new(alloc),
        })
    }

    /// The same log in memory of its own, over the same base. It fails only when out of memory.
    pub fn try_copy(&self) -> Result<PatchLog<'a, A>, AllocError>
        ensures { IfOk result (λ copy. copy ≡ self.now) }
    {
        Ok(PatchLog {
            base: self.base,
            written: self.written.try_copy()?,
            ordering: self.ordering,
            graph: self.graph.try_copy()?,
            labels: self.labels.clone()?,
            links: self.links.clone()?,
        })
    }

    /// How many patches there are.
    pub fn len(&self) -> usize
        ensures { result ≡ length self.now.emitted }
    {
        self.graph.len()
    }

    /// The ordering module.
    pub fn module(&self) -> Module
        ensures { result ≡ self.now.kind }
    {
        self.ordering.module
    }

    /// Whether `count` further patches fit the graph.
    pub fn has_room(&self, count: usize) -> bool
        requires { count ≤ 1000 }
        ensures { IsTrue result ↔ (length self.now.emitted + count ≤ MAX_PATCHES) }
    {
        self.graph.len() + count <= MAX_PATCHES
    }

    /// Whether a group has a patch.
    pub fn has_patch_in(&self, name: &GroupName) -> bool
        ensures { result ≡ list_any (λ e. is_same_group e.origin.group name.now) self.now.emitted }
    {
        has_label_in(self.labels.as_slice(), name)
    }

    /// Makes the patches that the group `later` will get wait for those of the group `earlier`.
    ///
    /// After an error the log is as it was.
    pub fn link(&mut self, later: &'a GroupName, earlier: &'a GroupName) -> Result<(), AllocError>
        requires { list_any (λ e. is_same_group e.origin.group later.now) self.old.emitted ≡ false }
        ensures ok { OnOk result (self.new
            ≡ record self.old { links = self.old.links ++ (later.now, earlier.now) ∷ [] }) }
        ensures err { OnErr result (self.new ≡ self.old) }
    {
        self.links.push(Link { later, earlier })?;
        Ok(())
    }

    /// The ids of the patches that a line `sync` waits for: all; under a journal the file data and the commits.
    pub fn forced_by_sync(&self) -> u128
        ensures { result ≡ forced_by_sync self.now.kind self.now.emitted }
    {
        let few = self.graph.len() <= MAX_PATCHES;
        prove!(few);
        forcing::forced_by_sync(self.ordering.module, self.labels.as_slice())
    }

    /// The ids of the patches that a line `fsync` waits for: those that meet the ranges of its path; under a journal
    /// the file data among them, and the commit of the last operation of which file data or a change in place is among
    /// them.
    pub fn forced_by_fsync(&self, ranges: &[Range]) -> u128
        ensures { result ≡ ids_from 0 (fsync_forces self.now.kind ranges.now self.now.emitted) self.now.emitted }
    {
        let labels = self.labels.as_slice();
        let last = forcing::last_op_number(ranges, &self.graph, labels);
        forcing::forced_by_fsync(self.ordering.module, ranges, last, &self.graph, labels)
    }

    /// The patches so far.
    pub fn graph(&self) -> &Graph<A>
        ensures patches { result.now ≡ self.now.patches }
        ensures places { places_of result.now ≡ map (λ e. e.place) self.now.emitted }
    {
        &self.graph
    }

    /// Adds a patch: new bytes from byte `offset` of a block on.
    ///
    /// It waits for the patches that it overlaps, for those of its block if blocks are written whole, and for those
    /// that follow from its label. Its undo data are the bytes before it. It fails only when out of memory, and then
    /// the log is as it was.
    pub fn emit(
        &mut self,
        label: Label<'a>,
        block: u8,
        offset: u8,
        bytes: &[u8],
    ) -> Result<(), AllocError>
        requires block { block < self.old.base.blocks }
        requires some { 0 < length bytes.now }
        requires inside { offset + length bytes.now ≤ BLOCK_SIZE }
        requires room { length self.old.emitted < MAX_PATCHES }
        ensures ok { OnOk result (Adds self.old self.new
            (emitted_at (place block offset bytes.now) label.entry ∷ [])) }
        ensures err { OnErr result (self.new ≡ self.old) }
        ensures kept { Keeps self.old self.new }
    {
        let deps = dependencies(
            self.ordering.rules.as_slice(),
            self.links.as_slice(),
            self.labels.as_slice(),
            &label,
        );
        let shared = sharing_block(self.ordering.whole_blocks, &self.graph, block);
        let from = usize::from(offset);
        let patch = Patch {
            block,
            offset,
            new: bytes_of(bytes),
            undo: bytes_of(&self.written.block(usize::from(block))[from..from + bytes.len()]),
            deps: deps | shared,
        };
        self.labels.push(label)?;
        match self.graph.push(patch) {
            Ok(()) => {}
            Err(GraphFault::OutOfMemory) => {
                self.labels.pop();
                return Err(AllocError);
            }
            Err(GraphFault::TooManyPatches) => unreachable!(),
        }
        self.written.put(usize::from(block), from, bytes);
        Ok(())
    }

    /// The patches with what they are.
    pub fn into_traced(self) -> Traced<'a, A>
        ensures patches { result.patches ≡ self.entry.patches }
        ensures emitted { result.emitted ≡ self.entry.emitted }
        ensures links { result.links ≡ self.entry.links }
        ensures rules { result.rules ≡ self.entry.rules }
        ensures whole { result.whole ≡ self.entry.whole }
        ensures log { IsLog self.entry }
    {
        Traced::new(self.graph, self.labels, self.links, self.ordering)
    }
}

/// The ids of the labels that a later one has to wait for.
fn dependencies(rules: &[Rule], links: &[Link<'_>], labels: &[Label<'_>], later: &Label<'_>) -> u128
    requires { length labels.now ≤ MAX_PATCHES }
    ensures { (id : ℕ) → Has result id ↔ WaitsAt rules.now (links_by links.now) labels.now later.now id }
{
    let mut ids = 0;
    for (id, earlier) in labels.iter().enumerate() {
        if waits(rules, links, later, id, earlier) {
            ids = with(ids, id);
        }
    }
    ids
}

/// The ids of the patches that change a block, if blocks are written whole; otherwise none.
fn sharing_block<A: Allocator + Copy>(whole: bool, graph: &Graph<A>, block: u8) -> u128
    ensures { (id : ℕ) → Has result id ↔ SharesAt whole graph.now block id }
{
    let mut ids = 0;
    for id in 0..graph.len() {
        if is_shared(whole, graph.patch(id), block) {
            ids = with(ids, id);
        }
    }
    ids
}

/// Whether blocks are written whole, and the patch changes the block.
fn is_shared(whole: bool, patch: &Patch, block: u8) -> bool
    ensures { result ≡ (whole && block == patch.now.block) }
{
    whole && block == patch.block
}

/// Whether a label is of a group.
fn has_label_in(labels: &[Label<'_>], name: &GroupName) -> bool
    ensures { result ≡ list_any (λ label. is_same_group (group_by label.origin.group) name.now) labels.now }
{
    labels
        .iter()
        .any(|label| is_in_group(label.origin.group, name))
}

/// The bytes of a range of a block.
fn bytes_of(bytes: &[u8]) -> ArrayVec<u8, BLOCK_SIZE>
    requires { length bytes.now ≤ BLOCK_SIZE }
    ensures { result.items ≡ bytes.now }
{
    let mut items = ArrayVec::new();
    for byte in bytes {
        items.push(*byte);
    }
    items
}
