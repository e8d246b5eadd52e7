//! The patches that cover each byte of a disk.

ghost use Rattle.std.specs.Prelude.{◌≡◌, ℕ, ◌+◌, ◌*◌, ◌<◌, ◌≤◌, ◌↔◌, length, IfOk};
ghost use Rattle.std.specs.List.{All};
ghost use Rattle.patch_sets.specs.Sets.{Has};
ghost use Rattle.patch_graph.specs.Graph.{IsPatch};
ghost use Rattle.known_bytes.specs.Chains.{AddsFrom, HasChains};
ghost use Rattle.known_bytes.specs.Family.{CoversAt};

use crash_model::disk_bytes::BLOCK_SIZE;
use crash_model::patches::Patch;
use disk_image::Image;
use patch_graph::Graph;
use patch_sets::set::with;
use std::alloc::{AllocError, Allocator};
use std::marker::Model;

/// A base and a graph of patches over it, with the set of the patches that cover each byte.
///
/// It is made once for a graph, and then says which patches of a family a byte depends on. Contracts see the base and
/// the patches.
#[derive(Drop)]
pub struct Chains<'a, A: Allocator + Copy> {
    base: &'a Image<A>,
    graph: &'a Graph<A>,
    /// The sets of the bytes, block after block.
    sets: Vec<u128, A>,
}

impl<'a, A: Allocator + Copy> Model for Chains<'a, A> {
    ghost use Rattle.known_bytes.specs.Chains.{Change, AreChains};

    ghost Value = { Change };

    ghost view = { λ c. record { base = c.base.now; patches = c.graph.now } };

    ghost invariant = { λ c. AreChains (record { base = c.base.now; patches = c.graph.now }) c.sets.items };
}

impl<'a, A: Allocator + Copy> Chains<'a, A> {
    /// The sets of the patches that cover each byte of the base.
    pub fn new(
        alloc: A,
        base: &'a Image<A>,
        graph: &'a Graph<A>,
    ) -> Result<Chains<'a, A>, AllocError>
        requires { All (λ patch. patch.block < base.now.blocks) graph.now }
        ensures { IfOk result (λ chains. chains ≡ record { base = base.now; patches = graph.now }) }
    {
        let mut sets = Vec::from_elem(alloc, 0u128, BLOCK_SIZE * base.blocks())?;
        for id in 0..graph.len() {
            mark(&mut sets, id, graph.patch(id));
        }
        Ok(Chains { base, graph, sets })
    }

    /// The base.
    pub fn base(&self) -> &Image<A>
        ensures { result.now ≡ self.now.base }
    {
        self.base
    }

    /// The graph.
    pub fn graph(&self) -> &Graph<A>
        ensures graph { result.now ≡ self.now.patches }
        ensures chains { HasChains self.now }
    {
        self.graph
    }

    /// The patches that cover a byte.
    pub(crate) fn at(&self, block: usize, offset: usize) -> u128
        requires block { block < self.now.base.blocks }
        requires offset { offset < BLOCK_SIZE }
        ensures { (id : ℕ) → Has result id ↔ CoversAt self.now.patches id block offset }
    {
        // For the proof: how many blocks every image has at most.
        let _blocks = self.base.blocks();
        self.sets[BLOCK_SIZE * block + offset]
    }
}

/// Adds an id to the sets of the bytes that a patch covers.
fn mark(sets: &mut [u128], id: usize, patch: &Patch)
    requires id { id < 128 }
    requires patch { IsPatch patch.now }
    requires fits { BLOCK_SIZE * patch.now.block + 128 ≤ length sets.old }
    ensures { AddsFrom id (BLOCK_SIZE * patch.now.block + patch.now.offset) (length patch.now.new.items)
        sets.old sets.new }
{
    let from = BLOCK_SIZE * usize::from(patch.block) + usize::from(patch.offset);
    for place in from..from + patch.new.len() {
        sets[place] = with(sets[place], id);
    }
}
