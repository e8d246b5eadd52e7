//! The image of a set after replay, kept in step with the image before it.

ghost use Rattle.std.specs.Prelude.{◌≡◌, ◌<◌, ◌≤◌};
ghost use Rattle.std.specs.List.{All};
ghost use Rattle.patch_sets.specs.Closed.{IsClosed};
ghost use Rattle.crash_model.specs.Patches.{deps_of, image_of, AreUndo};
ghost use Rattle.crash_model.specs.Replay.{image_after_replay};
ghost use Rattle.journal_replay.specs.Changed.{DifferAtMost};

use crate::mover::Mover;
use disk_image::Image;
use journal_replay::replay;
use patch_graph::Graph;
use patch_sets::ends::{lowest, without_lowest};
use std::alloc::Allocator;
use std::marker::Model;

/// The image after replay of a set that a crash can leave, which moves from set to set.
///
/// A [`Mover`] brings the image before replay along. Only those of its blocks are copied that a move or a replay wrote
/// since the last set, and none if there is no journal. Contracts see the base, the patches and the set. No call takes
/// memory.
#[derive(Drop)]
pub struct Replayer<'a, A: Allocator + Copy> {
    mover: Mover<'a, A>,
    /// The image after replay, if there is a journal.
    after: Image<A>,
    /// The blocks in which the images before and after replay may differ.
    stale: u128,
}

impl<'a, A: Allocator + Copy> Model for Replayer<'a, A> {
    ghost use Rattle.std.specs.Prelude.{◌≤◌};
    ghost use Rattle.crash_image.specs.Moves.{Applied, IsReplayed};

    ghost Value = { Applied };

    ghost view = { λ r. r.mover };

    ghost invariant = { λ r. 1 ≤ r.mover.base.journal → IsReplayed r.mover r.after r.stale };
}

impl<'a, A: Allocator + Copy> Replayer<'a, A> {
    /// The image of the empty set after replay, from two copies of the base.
    ///
    /// The patches change blocks of the base, and their undo data are the bytes that they replace there.
    pub fn new(base: Image<A>, copy: Image<A>, graph: &'a Graph<A>) -> Replayer<'a, A>
        requires fits { All (λ patch. patch.block < base.blocks) graph.now }
        requires undo { AreUndo base graph.now }
        requires same { copy ≡ base }
        ensures { result ≡ record { base = base; patches = graph.now; set = 0 } }
    {
        let mover = Mover::new(base, graph);
        let mut after = copy;
        let stale = replay(&mut after);
        Replayer {
            mover,
            after,
            stale,
        }
    }

    /// Moves to a set that a crash can leave.
    pub fn move_to(&mut self, set: u128)
        requires { IsClosed (deps_of self.old.patches) set }
        ensures { self.new ≡ record self.old { set = set } }
    {
        if self.mover.image().journal() == 0 {
            self.mover.move_to(set);
            return;
        }
        let stale = self.stale | self.mover.blocks_to(set);
        self.mover.move_to(set);
        copy_blocks(&mut self.after, self.mover.image(), stale);
        self.stale = replay(&mut self.after);
    }

    /// The image of the set after replay.
    pub fn image(&self) -> &Image<A>
        ensures { result.now ≡ image_after_replay (image_of self.now.base self.now.patches self.now.set) }
    {
        let before = self.mover.image();
        if before.journal() == 0 {
            before
        } else {
            &self.after
        }
    }

    /// The image of the set before replay.
    pub fn image_before(&self) -> &Image<A>
        ensures { result.now ≡ image_of self.now.base self.now.patches self.now.set }
    {
        self.mover.image()
    }
}

/// Copies the blocks in which an image may differ from another of its size.
fn copy_blocks<A: Allocator + Copy>(into: &mut Image<A>, from: &Image<A>, blocks: u128)
    requires blocks { into.old.blocks ≡ from.now.blocks }
    requires journal { into.old.journal ≡ from.now.journal }
    requires generations { into.old.generations ≡ from.now.generations }
    requires others { DifferAtMost blocks from.now into.old }
    ensures { into.new ≡ from.now }
{
    let _disk = into.blocks();
    let count = from.blocks();
    let mut left = blocks;
    while let Some(block) = lowest(left) {
        if block < count {
            into.put(block, 0, from.block(block));
        }
        left = without_lowest(left);
    }
}
