//! One image, brought from set to set.

ghost use Rattle.std.specs.Prelude.{◌≡◌, ℕ, ◌<◌, length};
ghost use Rattle.std.specs.List.{All};
ghost use Rattle.patch_sets.specs.Sets.{Has, IsSubset};
ghost use Rattle.patch_sets.specs.Closed.{IsClosed};
ghost use Rattle.crash_model.specs.Patches.{deps_of, image_of, AreUndo};
ghost use Rattle.crash_model.specs.Replay.{image_after_replay};
ghost use Rattle.journal_replay.specs.Changed.{DifferAtMost};
ghost use Rattle.crash_image.specs.Moves.{HasBlocks};

use crate::patching::{redo, undo};
use disk_image::Image;
use journal_replay::replay;
use patch_graph::Graph;
use patch_sets::ends::{difference, lowest, without_lowest};
use patch_sets::set::with;
use std::alloc::Allocator;
use std::marker::Model;

/// The image of a set that a crash can leave, which moves from set to set by undo and redo of patches.
///
/// Contracts see the base, the patches and the set; the image is the one that these determine. No call takes memory.
#[derive(Drop)]
pub struct Mover<'a, A: Allocator + Copy> {
    image: Image<A>,
    graph: &'a Graph<A>,
    set: u128,
}

impl<'a, A: Allocator + Copy> Model for Mover<'a, A> {
    ghost use Rattle.crash_image.specs.Moves.{Applied, applied_set, IsApplied};

    ghost Value = { Applied };

    ghost view = { λ m. applied_set m.image m.graph.now m.set };

    ghost invariant = { λ m. IsApplied (applied_set m.image m.graph.now m.set) m.image };
}

impl<'a, A: Allocator + Copy> Mover<'a, A> {
    /// The image of the empty set.
    ///
    /// The patches change blocks of the base, and their undo data are the bytes that they replace there.
    pub fn new(base: Image<A>, graph: &'a Graph<A>) -> Mover<'a, A>
        requires fits { All (λ patch. patch.block < base.blocks) graph.now }
        requires undo { AreUndo base graph.now }
        ensures { result ≡ record { base = base; patches = graph.now; set = 0 } }
    {
        // For the proof: what holds of every image and every graph.
        let _blocks = base.blocks();
        let _len = graph.len();
        Mover {
            image: base,
            graph,
            set: 0,
        }
    }

    /// Moves to a set that a crash can leave: undoes the patches that the new set lacks, the last first, and redoes
    /// those that the old set lacked, the first first.
    pub fn move_to(&mut self, set: u128)
        requires { IsClosed (deps_of self.old.patches) set }
        ensures { self.new ≡ record self.old { set = set } }
    {
        undo(&mut self.image, self.graph, difference(self.set, set));
        redo(&mut self.image, self.graph, difference(set, self.set));
        self.set = set;
    }

    /// The blocks that a move to a set changes: the image of that set differs from this one in no other.
    pub(crate) fn blocks_to(&self, set: u128) -> u128
        requires { IsClosed (deps_of self.now.patches) set }
        ensures { DifferAtMost result (image_of self.now.base self.now.patches self.now.set)
            (image_of self.now.base self.now.patches set) }
    {
        let undone = add_blocks(self.graph, difference(self.set, set), 0);
        add_blocks(self.graph, difference(set, self.set), undone)
    }

    /// The set whose image it is.
    pub fn set(&self) -> u128
        ensures { result ≡ self.now.set }
    {
        self.set
    }

    /// The image of the set.
    pub fn image(&self) -> &Image<A>
        ensures { result.now ≡ image_of self.now.base self.now.patches self.now.set }
    {
        &self.image
    }

    /// Turns another image of the base's size into the image of the set after replay of the journal.
    pub fn replayed(&self, into: &mut Image<A>)
        requires { into.old.blocks ≡ self.now.base.blocks }
        ensures { into.new ≡ image_after_replay (image_of self.now.base self.now.patches self.now.set) }
    {
        into.copy_from(&self.image);
        replay(into);
    }
}

/// The blocks given and those that a set's patches change.
fn add_blocks<A: Allocator + Copy>(graph: &Graph<A>, set: u128, blocks: u128) -> u128
    requires few { All (λ patch. patch.block < 128) graph.now }
    requires known { (id : ℕ) → Has set id → id < length graph.now }
    ensures old { IsSubset blocks result }
    ensures more { HasBlocks graph.now set result }
{
    let mut all = blocks;
    let mut left = set;
    while let Some(id) = lowest(left) {
        all = with(all, usize::from(graph.patch(id).block));
        left = without_lowest(left);
    }
    all
}
