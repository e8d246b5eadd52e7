//! The changes of a plan, made.

ghost use Rattle.std.specs.Prelude.{◌≡◌, ◌≤◌, All};
ghost use Rattle.crash_model.specs.Plan.{with_changes};
ghost use Rattle.crash_model.specs.StepDisks.{disk_after};
ghost use Rattle.inode_fs.specs.Inside.{LiesInside};

use crate::planning::plan;
use crash_model::plans::Plan;
use crash_model::steps::{Act, Step};
use disk_image::Image;
use std::alloc::Allocator;

/// Makes the changes of a plan, the first one first.
///
/// Each of them has to lie inside the image, as those that [`crate::plan`] gives on it do.
pub fn apply<A: Allocator + Copy>(image: &mut Image<A>, plan: &Plan)
    requires { All (LiesInside image.old.blocks) plan.now.items }
    ensures changes { image.new ≡ with_changes image.old plan.now.items }
    ensures size { (image.new.blocks ≡ image.old.blocks) × (image.new.journal ≡ image.old.journal) }
{
    for change in plan.as_slice() {
        image.put(
            change.block as usize,
            change.offset as usize,
            change.new.as_slice(),
        );
    }
}

/// Turns an image into the one after a step. A step on groups changes nothing, nor does a refused operation.
pub(crate) fn advance<A: Allocator + Copy>(disk: &mut Image<A>, step: &Step)
    ensures { disk.new ≡ disk_after disk.old step.now.act }
{
    if let Act::Do(op) = &step.act {
        if let Ok(plan) = plan(disk, op) {
            apply(disk, &plan);
        }
    }
}
