//! Operations that programs save files with: overwriting, truncating, and renaming onto a name that exists.

ghost use Rattle.std.specs.Prelude.{◌≡◌, ◌<◌, ◌≤◌, ◌+◌, ◌++◌, length, option_to_list, IfOk, MatchResult, Ok, Err};
ghost use Rattle.crash_model.specs.Names.{IsName};
ghost use Rattle.crash_model.specs.Plan.{plan_of, new_data_at, new_data_in, lacks_block_in};
ghost use Rattle.crash_model.specs.declared.operations.Op.TheVariants.{Overwrite, Truncate, Replace};

use crate::changes::{entry_clear, entry_set, link_count, new_data, pointers_clear, touch};
use crate::dropping::{add_map_clears, drop_name};
use crate::lookup::find;
use arrayvec::ArrayVec;
use crash_model::disk_bytes::{FILE_KIND, INODES, MOST_CHANGES, MOST_LINKS, SLOTS};
use crash_model::names::Path;
use crash_model::operations::Slot;
use crash_model::plans::{Plan, Role};
use crash_model::refusals::FsFault;
use disk_image::Image;
use std::alloc::Allocator;

/// The data of a file anew: of its block in one slot, or of all its blocks.
#[tactic(auto, unfolding(crash_model::specs::Plan::plan_of))]
pub fn overwrite<A: Allocator + Copy>(
    image: &Image<A>,
    path: &Path,
    slot: Option<Slot>,
) -> Result<Plan, FsFault>
    ensures { MatchResult result (λ plan. plan_of image.now (Overwrite path.now slot) ≡ Ok plan.items) (λ fault.
        plan_of image.now (Overwrite path.now slot) ≡ Err fault) }
{
    let target = find(image, path)?.target;
    if image.kind(target) != FILE_KIND {
        return Err(FsFault::NotAFile);
    }
    if lacks_block_in(image, target, slot) {
        return Err(FsFault::NotFound);
    }
    let mut plan = ArrayVec::new();
    add_new_data_in(image, target, slot, &mut plan);
    plan.push(touch(image, target));
    Ok(plan)
}

/// Whether a slot that is asked for names no block.
fn lacks_block_in<A: Allocator + Copy>(image: &Image<A>, inode: u8, slot: Option<Slot>) -> bool
    requires { inode < INODES }
    ensures { result ≡ lacks_block_in image.now inode slot }
{
    match slot {
        None => false,
        Some(slot) => image.pointer(inode, slot.number()) == 0,
    }
}

/// Adds the data of the block in one slot, or of those in all slots.
fn add_new_data_in<A: Allocator + Copy>(
    image: &Image<A>,
    inode: u8,
    slot: Option<Slot>,
    plan: &mut Plan,
)
    requires inode { inode < INODES }
    requires room { length plan.old.items + SLOTS < MOST_CHANGES }
    ensures added { plan.new.items ≡ plan.old.items ++ new_data_in image.now inode slot }
    ensures few { length plan.new.items ≤ length plan.old.items + SLOTS }
{
    match slot {
        None => add_all_new_data(image, inode, plan),
        Some(slot) => add_new_data(image, inode, slot.number(), plan),
    }
}

/// Adds the data of all blocks of an inode, by ascending slot.
#[tactic(auto, using(crash_model::proofs::EachBelow::each_below_steps, std::proofs::lemmas::Grind::common_steps))]
fn add_all_new_data<A: Allocator + Copy>(image: &Image<A>, inode: u8, plan: &mut Plan)
    requires inode { inode < INODES }
    requires room { length plan.old.items + SLOTS < MOST_CHANGES }
    ensures added { plan.new.items ≡ plan.old.items ++ new_data_in image.now inode None }
    ensures few { length plan.new.items ≤ length plan.old.items + SLOTS }
{
    for slot in 0..SLOTS {
        add_new_data(image, inode, slot, plan);
    }
}

/// Adds the data of the block that a slot of an inode names, if that is a block of the data area.
fn add_new_data<A: Allocator + Copy>(image: &Image<A>, inode: u8, slot: u8, plan: &mut Plan)
    requires inode { inode < INODES }
    requires slot { slot < SLOTS }
    requires room { length plan.old.items < MOST_CHANGES }
    ensures added { plan.new.items ≡ plan.old.items ++ option_to_list (new_data_at image.now inode slot) }
    ensures few { length plan.new.items ≤ length plan.old.items + 1 }
{
    let block = image.pointer(inode, slot);
    if image.is_data(block) {
        plan.push(new_data(image, block));
    }
}

/// A file loses its blocks.
#[tactic(auto, unfolding(crash_model::specs::Plan::plan_of))]
pub fn truncate<A: Allocator + Copy>(image: &Image<A>, path: &Path) -> Result<Plan, FsFault>
    ensures { MatchResult result (λ plan. plan_of image.now (Truncate path.now) ≡ Ok plan.items) (λ fault.
        plan_of image.now (Truncate path.now) ≡ Err fault) }
{
    let target = find(image, path)?.target;
    if image.kind(target) != FILE_KIND {
        return Err(FsFault::NotAFile);
    }
    let mut plan = ArrayVec::new();
    plan.push(pointers_clear(target));
    add_map_clears(image, target, &mut plan);
    Ok(plan)
}

/// A file's name becomes one that another file has, which loses it: the new entry is there before the old one goes.
#[tactic(auto, unfolding(crash_model::specs::Plan::plan_of))]
pub fn replace<A: Allocator + Copy>(
    image: &Image<A>,
    old: &Path,
    new: &Path,
) -> Result<Plan, FsFault>
    ensures changes { MatchResult result (λ plan. plan_of image.now (Replace old.now new.now) ≡ Ok plan.items) (λ fault.
        plan_of image.now (Replace old.now new.now) ≡ Err fault) }
    ensures name { IfOk result (λ _. IsName new.now.last) }
{
    let from = find(image, old)?;
    let to = find(image, new)?;
    if image.kind(from.target) != FILE_KIND || image.kind(to.target) != FILE_KIND {
        return Err(FsFault::NotAFile);
    }
    if from.target == to.target {
        return Err(FsFault::Exists);
    }
    let links = image.links(from.target);
    if links >= MOST_LINKS {
        return Err(FsFault::LinksFull);
    }
    let mut plan = ArrayVec::new();
    plan.push(link_count(Role::LinkUp, from.target, links + 1));
    plan.push(entry_set(image, to.dir, to.place, from.target, &new.last));
    plan.push(entry_clear(image, from.dir, from.place));
    plan.push(link_count(Role::LinkDown, from.target, links));
    drop_name(image, to.target, &mut plan);
    Ok(plan)
}
