//! What the pointers of an image name, and where its entries lead.

ghost use Rattle.std.specs.Prelude.{◌≡◌, ◌≢◌, [], replicate, ◌+◌, ◌*◌, ◌++◌, ◌<◌, ◌≤◌, IsTrue, OnOk, IfOk};
ghost use Rattle.arrayvec.specs.ArrayVec.{array_vec_len};
ghost use Rattle.crash_model.specs.Layout.{is_live, counts, pointer_of};
ghost use Rattle.crash_model.specs.Lists.{some_below};
ghost use Rattle.fs_check.specs.TableCounts.{IsTally};
ghost use Rattle.fs_check.specs.References.{wrong_at, wrong_pointers, named_at, dangling_at, dangling_entries, led_at};

use crate::clean::is_right_block;
use arrayvec::ArrayVec;
use crash_model::disk_bytes::{ENTRIES, INODES, SLOTS};
use crash_model::fault::Fault;
use disk_image::Image;
use std::alloc::{AllocError, Allocator};

/// A pointer that is not 0: its inode and slot, and the block that it names.
#[derive(Clone, Copy, Default, Drop)]
pub(crate) struct Pointer {
    pub inode: u8,
    pub slot: u8,
    pub block: u8,
}

/// Adds the pointers of the live inodes that have a fault of their own, by inode and slot, and counts how many pointers
/// name each block of the data area.
#[tactic(auto, unfolding(crash_model::specs::Faults::each_slot))]
pub(crate) fn read_pointers<A: Allocator + Copy>(
    image: &Image<A>,
    wrong: &mut ArrayVec<Pointer, 64>,
    pointer_counts: &mut [u8; 128],
)
    requires none { wrong.old.items ≡ [] }
    requires zero { pointer_counts.old ≡ replicate 128 0 }
    ensures wrong { wrong.new.items ≡ wrong_pointers image.now }
    ensures pointer_counts { IsTally SLOTS (named_at image.now) INODES 0 pointer_counts.new }
{
    for inode in 0..INODES {
        if image.is_live(inode) {
            read_slots(image, inode, wrong, pointer_counts);
        }
    }
}

/// Reads the pointers of one inode.
fn read_slots<A: Allocator + Copy>(
    image: &Image<A>,
    inode: u8,
    wrong: &mut ArrayVec<Pointer, 64>,
    pointer_counts: &mut [u8; 128],
)
    requires inode { inode < INODES }
    requires live { IsTrue (is_live image.now inode) }
    requires room { array_vec_len wrong.old ≤ 4 * inode }
    requires pointer_counts { IsTally SLOTS (named_at image.now) inode 0 pointer_counts.old }
    ensures wrong { wrong.new.items ≡ wrong.old.items ++ some_below SLOTS (wrong_at image.now inode) }
    ensures room { array_vec_len wrong.new ≤ 4 * (inode + 1) }
    ensures pointer_counts { IsTally SLOTS (named_at image.now) (inode + 1) 0 pointer_counts.new }
{
    for slot in 0..SLOTS {
        let block = image.pointer(inode, slot);
        if block != 0 {
            let pointer = Pointer { inode, slot, block };
            count_pointer(image, pointer, pointer_counts);
            if !is_right_block(image, inode, block) {
                wrong.push(pointer);
            }
        }
    }
}

/// Counts one more pointer.
fn count_pointer<A: Allocator + Copy>(
    image: &Image<A>,
    pointer: Pointer,
    pointer_counts: &mut [u8; 128],
)
    requires inode { pointer.inode < INODES }
    requires live { IsTrue (is_live image.now pointer.inode) }
    requires slot { pointer.slot < SLOTS }
    requires some { pointer.block ≢ 0 }
    requires block { pointer_of image.now pointer.inode pointer.slot ≡ pointer.block }
    requires pointer_counts { IsTally SLOTS (named_at image.now) pointer.inode pointer.slot pointer_counts.old }
    ensures { IsTally SLOTS (named_at image.now) pointer.inode (pointer.slot + 1) pointer_counts.new }
{
    if image.is_data(pointer.block) {
        pointer_counts[pointer.block as usize] += 1;
    }
}

/// Adds the entries that lead to no live inode, by directory and place; how many entries lead to each live inode.
#[tactic(auto, unfolding(crash_model::specs::Faults::each_entry))]
pub(crate) fn push_dangling<A: Allocator + Copy>(
    found: &mut Vec<Fault, A>,
    image: &Image<A>,
) -> Result<[u8; 16], AllocError>
    ensures found { OnOk result (found.new.items ≡ found.old.items ++ dangling_entries image.now) }
    ensures entry_counts { IfOk result (IsTally ENTRIES (led_at image.now) INODES 0) }
{
    let mut entry_counts = [0; 16];
    for dir in 0..INODES {
        if image.counts(dir) {
            push_dangling_of(found, image, dir, &mut entry_counts)?;
        }
    }
    Ok(entry_counts)
}

/// The same of one directory's entries.
fn push_dangling_of<A: Allocator + Copy>(
    found: &mut Vec<Fault, A>,
    image: &Image<A>,
    dir: u8,
    entry_counts: &mut [u8; 16],
) -> Result<(), AllocError>
    requires dir { dir < INODES }
    requires counts { IsTrue (counts image.now dir) }
    requires entry_counts { IsTally ENTRIES (led_at image.now) dir 0 entry_counts.old }
    ensures found { OnOk result (found.new.items ≡ found.old.items ++ some_below ENTRIES (dangling_at image.now dir)) }
    ensures entry_counts { OnOk result (IsTally ENTRIES (led_at image.now) (dir + 1) 0 entry_counts.new) }
{
    for k in 0..ENTRIES {
        let entry = image.entry(dir, k);
        if entry != 0 {
            let inode = entry - 1;
            if image.is_live(inode) {
                entry_counts[inode as usize] += 1;
            } else {
                found.push(Fault::Dangling {
                    dir,
                    entry: k,
                    inode,
                })?;
            }
        }
    }
    Ok(())
}
