//! What is free again when a name of a file goes, or its blocks.

ghost use Rattle.std.specs.Prelude.{◌≡◌, ◌<◌, ◌≤◌, ◌+◌, ◌++◌, length, option_to_list};
ghost use Rattle.crash_model.specs.Plan.{map_clear_at, map_clears, name_dropped};

use crate::changes::{inode_free, link_count, map_clear};
use crash_model::disk_bytes::{INODES, MOST_CHANGES, SLOTS};
use crash_model::plans::{Plan, Role};
use disk_image::Image;
use std::alloc::Allocator;

/// Adds what a file's inode changes for a name that goes: it has one link less, or, after the last name, is free with
/// its blocks.
pub fn drop_name<A: Allocator + Copy>(image: &Image<A>, inode: u8, plan: &mut Plan)
    requires inode { inode < INODES }
    requires room { length plan.old.items + 1 + SLOTS ≤ MOST_CHANGES }
    ensures { plan.new.items ≡ plan.old.items ++ name_dropped image.now inode }
{
    let links = image.links(inode);
    if links > 1 {
        plan.push(link_count(Role::LinkDown, inode, links - 1));
    } else {
        plan.push(inode_free(image, inode));
        add_map_clears(image, inode, plan);
    }
}

/// Adds the freeing of the block that a slot of an inode names, if that is a block of the data area.
pub fn add_map_clear<A: Allocator + Copy>(image: &Image<A>, inode: u8, slot: u8, plan: &mut Plan)
    requires inode { inode < INODES }
    requires slot { slot < SLOTS }
    requires room { length plan.old.items < MOST_CHANGES }
    ensures { plan.new.items ≡ plan.old.items ++ option_to_list (map_clear_at image.now inode slot) }
{
    let block = image.pointer(inode, slot);
    if image.is_data(block) {
        plan.push(map_clear(block));
    }
}

/// Adds the freeing of all blocks of an inode, by ascending slot.
#[tactic(auto, using(crash_model::proofs::EachBelow::each_below_steps, std::proofs::lemmas::Grind::common_steps))]
pub fn add_map_clears<A: Allocator + Copy>(image: &Image<A>, inode: u8, plan: &mut Plan)
    requires inode { inode < INODES }
    requires room { length plan.old.items + SLOTS ≤ MOST_CHANGES }
    ensures { plan.new.items ≡ plan.old.items ++ map_clears image.now inode }
{
    for slot in 0..SLOTS {
        add_map_clear(image, inode, slot, plan);
    }
}
