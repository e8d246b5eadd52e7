//! The patches of a set, put on an image and taken back.

ghost use Rattle.std.specs.Prelude.{◌≡◌, ℕ, ◌<◌, length};
ghost use Rattle.std.specs.List.{All};
ghost use Rattle.patch_sets.specs.Sets.{Has};
ghost use Rattle.crash_model.specs.Patches.{image_of};
ghost use Rattle.crash_image.specs.Moves.{without_set};

use disk_image::Image;
use patch_graph::Graph;
use patch_sets::ends::{highest, lowest, without, without_lowest};
use std::alloc::Allocator;

/// Puts the new bytes of a set's patches in ascending order of their ids.
pub fn redo<A: Allocator + Copy>(image: &mut Image<A>, graph: &Graph<A>, set: u128)
    requires fits { All (λ patch. patch.block < image.old.blocks) graph.now }
    requires known { (id : ℕ) → Has set id → id < length graph.now }
    ensures { image.new ≡ image_of image.old graph.now set }
{
    let mut left = set;
    while let Some(id) = lowest(left) {
        let patch = graph.patch(id);
        image.put(
            usize::from(patch.block),
            usize::from(patch.offset),
            &patch.new,
        );
        left = without_lowest(left);
    }
}

/// Puts the undo bytes of a set's patches in descending order of their ids.
pub fn undo<A: Allocator + Copy>(image: &mut Image<A>, graph: &Graph<A>, set: u128)
    requires fits { All (λ patch. patch.block < image.old.blocks) graph.now }
    requires known { (id : ℕ) → Has set id → id < length graph.now }
    ensures { image.new ≡ without_set image.old graph.now set }
{
    let mut left = set;
    while let Some(id) = highest(left) {
        let patch = graph.patch(id);
        image.put(
            usize::from(patch.block),
            usize::from(patch.offset),
            &patch.undo,
        );
        left = without(left, id);
    }
}
