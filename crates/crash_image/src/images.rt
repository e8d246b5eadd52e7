//! The image of a set, made from the base.

ghost use Rattle.std.specs.Prelude.{◌≡◌, ℕ, ◌<◌, length, IfOk};
ghost use Rattle.std.specs.List.{All};
ghost use Rattle.patch_sets.specs.Sets.{Has};
ghost use Rattle.crash_model.specs.Patches.{image_of};

use crate::patching::redo;
use disk_image::Image;
use patch_graph::Graph;
use std::alloc::{AllocError, Allocator};

/// The disk that a set of patches leaves: the base with the patches put in ascending order of their ids.
///
/// The patches change blocks of the base, and the set has ids of the graph. It fails only when out of memory.
pub fn build<A: Allocator + Copy>(
    base: &Image<A>,
    graph: &Graph<A>,
    set: u128,
) -> Result<Image<A>, AllocError>
    requires fits { All (λ patch. patch.block < base.now.blocks) graph.now }
    requires known { (id : ℕ) → Has set id → id < length graph.now }
    ensures { IfOk result (λ image. image ≡ image_of base.now graph.now set) }
{
    let mut image = base.try_copy()?;
    redo(&mut image, graph, set);
    Ok(image)
}
