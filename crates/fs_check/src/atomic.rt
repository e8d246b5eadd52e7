//! Whether an image shows a disk that whole operations leave.

ghost use Rattle.std.specs.Prelude.{◌≡◌, ℕ, ◌+◌, ◌<◌, ◌↔◌, IsTrue, OnOk, bytes_eq, true};
ghost use Rattle.std.specs.List.{list_any};
ghost use Rattle.patch_sets.specs.Sets.{Has};
ghost use Rattle.crash_model.specs.Atomic.{shows, ShowsSome};
ghost use Rattle.crash_model.specs.Checker.{faults_showing};
ghost use Rattle.crash_model.specs.Disk.{block_of};
ghost use Rattle.crash_model.specs.Layout.{is_live};
ghost use Rattle.fs_check.specs.Compared.{AreCompared, AreFound, AreWithSlots};

use crash_model::disk_bytes::{INODES, SLOTS};
use crash_model::fault::Fault;
use disk_image::{Demands, Image};
use patch_sets::set::{has, with};
use std::alloc::{AllocError, Allocator};

/// Whether an image shows one of the disks, if it is to show any. It takes no memory.
pub(crate) fn shows_some<A: Allocator + Copy>(image: &Image<A>, demands: &Demands<A>) -> bool
    ensures { IsTrue result ↔ ShowsSome demands.now.disks image.now }
{
    match demands.disks() {
        Some(disks) => shows_any(image, disks),
        None => true,
    }
}

/// Adds the fault of an image that shows none of the disks, if it is to show one.
pub(crate) fn push_half_done<A: Allocator + Copy>(
    found: &mut Vec<Fault, A>,
    image: &Image<A>,
    demands: &Demands<A>,
) -> Result<(), AllocError>
    ensures { OnOk result (found.new.items ≡ faults_showing demands.now.disks image.now found.old.items) }
{
    if !shows_some(image, demands) {
        found.push(Fault::HalfDone)?;
    }
    Ok(())
}

/// Whether an image shows one of these disks.
fn shows_any<A: Allocator + Copy>(image: &Image<A>, disks: &[Image<A>]) -> bool
    ensures { result ≡ list_any (shows image.now) disks.now }
{
    disks.iter().any(|disk| shows(image, disk))
}

/// Whether an image has the bytes of a disk in each block that is compared.
fn shows<A: Allocator + Copy>(image: &Image<A>, disk: &Image<A>) -> bool
    ensures { result ≡ shows image.now disk.now }
{
    // Most operations change an inode, so the first block of inodes mostly differs if a disk is not shown.
    let blocks = disk.blocks();
    if !has_block(image, disk, 2) {
        return false;
    }
    let compared = compared_blocks(disk);
    for block in 0..blocks {
        if !has_if_compared(image, disk, compared, block) {
            return false;
        }
    }
    true
}

/// Whether an image has the bytes of a disk's block, if it is one of those that are compared.
fn has_if_compared<A: Allocator + Copy>(
    image: &Image<A>,
    disk: &Image<A>,
    compared: u128,
    block: usize,
) -> bool
    requires { block < disk.now.blocks }
    ensures { IsTrue result
        ↔ (Has compared block → bytes_eq (block_of image.now block) (block_of disk.now block) ≡ true) }
{
    let _blocks = disk.blocks();
    if !has(compared, block) {
        return true;
    }
    has_block(image, disk, block)
}

/// Whether an image has the bytes of a disk's block.
fn has_block<A: Allocator + Copy>(image: &Image<A>, disk: &Image<A>, block: usize) -> bool
    requires { block < disk.now.blocks }
    ensures { result ≡ bytes_eq (block_of image.now block) (block_of disk.now block) }
{
    // For the proof: what every image keeps.
    let _disk = disk.blocks();
    let most = image.blocks();
    if block >= most {
        return false;
    }
    image.block(block) == disk.block(block)
}

/// The blocks of a disk that are compared with those of an image, as a set: the map, the inodes, and what live inodes
/// point to.
pub fn compared_blocks<A: Allocator + Copy>(disk: &Image<A>) -> u128
    ensures { AreCompared disk.now result }
{
    let _blocks = disk.blocks();
    let mut compared = with(with(with(0, 1), 2), 3);
    for inode in 0..INODES {
        compared = with_inode(disk, inode, compared);
    }
    compared
}

/// The set with the blocks that an inode points to, if it is live.
fn with_inode<A: Allocator + Copy>(disk: &Image<A>, inode: u8, blocks: u128) -> u128
    requires { inode < INODES }
    ensures { AreFound disk.now inode blocks → AreFound disk.now (inode + 1) result }
{
    if !disk.is_live(inode) {
        return blocks;
    }
    let mut all = blocks;
    for slot in 0..SLOTS {
        all = with_slot(disk, inode, slot, all);
    }
    all
}

/// The set with the block that a slot of a live inode names, if it is one of the disk.
fn with_slot<A: Allocator + Copy>(disk: &Image<A>, inode: u8, slot: u8, blocks: u128) -> u128
    requires inode { inode < INODES }
    requires slot { slot < SLOTS }
    requires live { IsTrue (is_live disk.now inode) }
    ensures { (old : ℕ) → AreWithSlots disk.now inode slot old blocks
        → AreWithSlots disk.now inode (slot + 1) old result }
{
    let most = disk.blocks();
    let block = usize::from(disk.pointer(inode, slot));
    if block == 0 {
        return blocks;
    }
    if block >= most {
        return blocks;
    }
    with(blocks, block)
}
