//! Whether an image has one of the faults that count.

ghost use Rattle.std.specs.Prelude.{◌≡◌, ◌+◌, ◌<◌, ◌↔◌, [], Some, IsTrue};
ghost use Rattle.std.specs.List.{All, filter, filter_map};
ghost use Rattle.patch_sets.specs.Sets.{has};
ghost use Rattle.crash_model.specs.Checker.{IsCleanUnder};
ghost use Rattle.crash_model.specs.FaultKinds.{fault_number};
ghost use Rattle.crash_model.specs.Faults.{is_dangling, has_low_links, is_twice};
ghost use Rattle.crash_model.specs.Layout.{counts};
ghost use Rattle.crash_model.specs.Strict.{is_lost, lacks_block};
ghost use Rattle.fs_check.specs.Counted.{HasNoEntryFault, HasNoPointerFault, HasNoLossOf, HasNoFault};
ghost use Rattle.fs_check.specs.Counted.{HasNoDiskFault, HasRightPointers, InNoEntry, InNoSlot, AtNoneBelow, fails};
ghost use Rattle.fs_check.specs.References.{named_at, led_at, fault_of, wrong_pointers};
ghost use Rattle.fs_check.specs.Strict.{IsReachOf};
ghost use Rattle.fs_check.specs.TableCounts.{IsTally};

use crate::atomic::shows_some;
use crate::list::{Test, fault_of};
use crate::promises::keeps_promises;
use crate::references::{Pointer, read_pointers};
use crate::strict::{bare_at, lost_at, reached};
use arrayvec::ArrayVec;
use crash_model::disk_bytes::{ENTRIES, INODES, SLOTS};
use crash_model::fault::Fault;
use disk_image::{Demands, Image};
use patch_sets::set::has;
use std::alloc::Allocator;

/// Whether a fault is of one of these numbers, which are given as a set.
pub fn is_counted(fault: Fault, counted: u16) -> bool
    ensures { result ≡ has counted (fault_number fault) }
{
    has(u128::from(counted), fault.numbers()[0])
}

/// Leaves of a list the faults of these numbers.
pub fn keep_counted<A: Allocator + Copy>(faults: &mut Vec<Fault, A>, counted: u16)
    ensures { faults.new.items ≡ filter (λ fault. has counted (fault_number fault)) faults.old.items }
{
    faults.retain(|fault| is_counted(*fault, counted));
}

/// Whether the image of a set has no fault that counts, where only faults of these numbers do. It takes no memory.
pub(crate) fn is_clean_counting<A: Allocator + Copy>(
    image: &Image<A>,
    set: u128,
    demands: &Demands<A>,
    counted: u16,
) -> bool
    requires { demands.now.counted ≡ Some counted }
    ensures { IsTrue result ↔ IsCleanUnder demands.now set image.now }
{
    has_no_fault(image, set, demands, u128::from(counted))
}

/// Whether the image of a set has no fault of some numbers.
fn has_no_fault<A: Allocator + Copy>(
    image: &Image<A>,
    set: u128,
    demands: &Demands<A>,
    counted: u128,
) -> bool
    ensures { IsTrue result ↔ HasNoFault counted demands.now set image.now }
{
    has_no_disk_fault(image, demands, counted)
        && (!has(counted, 10) || keeps_promises(image, set, demands.promises()))
}

/// Whether an image by itself has no fault of some numbers.
fn has_no_disk_fault<A: Allocator + Copy>(
    image: &Image<A>,
    demands: &Demands<A>,
    counted: u128,
) -> bool
    ensures { IsTrue result ↔ HasNoDiskFault counted demands.now image.now }
{
    has_no_entry_fault(image, counted)
        && has_no_pointer_fault(image, counted)
        && loses_none(image, demands.kept(), counted)
        && (!has(counted, 9) || shows_some(image, demands))
}

/// Whether the entries have no fault of some numbers.
fn has_no_entry_fault<A: Allocator + Copy>(image: &Image<A>, counted: u128) -> bool
    ensures { IsTrue result ↔ HasNoEntryFault counted image.now }
{
    (!has(counted, 1) || are_entries_live(image)) && (!has(counted, 4) || are_links_enough(image))
}

/// Whether each entry leads to a live inode.
fn are_entries_live<A: Allocator + Copy>(image: &Image<A>) -> bool
    ensures { IsTrue result ↔ InNoEntry (is_dangling image.now) }
{
    for dir in 0..INODES {
        if !are_entries_live_in(image, dir) {
            return false;
        }
    }
    true
}

/// Whether each entry of a directory leads to a live inode.
fn are_entries_live_in<A: Allocator + Copy>(image: &Image<A>, dir: u8) -> bool
    requires { dir < INODES }
    ensures { IsTrue result ↔ AtNoneBelow ENTRIES (is_dangling image.now dir) }
{
    for k in 0..ENTRIES {
        if is_dangling(image, dir, k) {
            return false;
        }
    }
    true
}

/// Whether an entry leads to no live inode.
fn is_dangling<A: Allocator + Copy>(image: &Image<A>, dir: u8, k: u8) -> bool
    requires dir { dir < INODES }
    requires k { k < ENTRIES }
    ensures { result ≡ is_dangling image.now dir k }
{
    if !image.counts(dir) {
        return false;
    }
    let entry = image.entry(dir, k);
    entry != 0 && !image.is_live(entry - 1)
}

/// Whether no more entries lead to a live inode than its link count says.
fn are_links_enough<A: Allocator + Copy>(image: &Image<A>) -> bool
    ensures { IsTrue result ↔ AtNoneBelow INODES (has_low_links image.now) }
{
    has_links(image, &count_entries(image))
}

/// The same, where the entries have been counted.
fn has_links<A: Allocator + Copy>(image: &Image<A>, entry_counts: &[u8; 16]) -> bool
    requires { IsTally ENTRIES (led_at image.now) INODES 0 entry_counts.now }
    ensures { IsTrue result ↔ AtNoneBelow INODES (has_low_links image.now) }
{
    for inode in 0..INODES {
        let entries = entry_counts[inode as usize];
        let links = image.links(inode);
        if links < entries {
            return false;
        }
    }
    true
}

/// How many entries lead to each live inode.
fn count_entries<A: Allocator + Copy>(image: &Image<A>) -> [u8; 16]
    ensures { IsTally ENTRIES (led_at image.now) INODES 0 result }
{
    let mut entry_counts = [0; 16];
    for dir in 0..INODES {
        if image.counts(dir) {
            count_entries_of(image, dir, &mut entry_counts);
        }
    }
    entry_counts
}

/// The same of one directory's entries.
fn count_entries_of<A: Allocator + Copy>(image: &Image<A>, dir: u8, entry_counts: &mut [u8; 16])
    requires dir { dir < INODES }
    requires counts { IsTrue (counts image.now dir) }
    requires entry_counts { IsTally ENTRIES (led_at image.now) dir 0 entry_counts.old }
    ensures { IsTally ENTRIES (led_at image.now) (dir + 1) 0 entry_counts.new }
{
    for k in 0..ENTRIES {
        let entry = image.entry(dir, k);
        if entry != 0 && image.is_live(entry - 1) {
            let inode = entry - 1;
            entry_counts[inode as usize] += 1;
        }
    }
}

/// Whether the pointers, and the blocks that they name, have no fault of some numbers.
fn has_no_pointer_fault<A: Allocator + Copy>(image: &Image<A>, counted: u128) -> bool
    ensures { IsTrue result ↔ HasNoPointerFault counted image.now }
{
    let mut wrong = ArrayVec::new();
    let mut pointer_counts = [0; 128];
    read_pointers(image, &mut wrong, &mut pointer_counts);
    (!has(counted, 2) || are_blocks_used_once(image, &pointer_counts))
        && are_pointers_right(image, counted, wrong.as_slice())
}

/// Whether each pointer by itself has no fault of some numbers. It has none if it is not one of the wrong ones.
fn are_pointers_right<A: Allocator + Copy>(
    image: &Image<A>,
    counted: u128,
    wrong: &[Pointer],
) -> bool
    requires { wrong.now ≡ wrong_pointers image.now }
    ensures { IsTrue result ↔ HasRightPointers counted image.now }
{
    (!has(counted, 3) || all_pass(image, Test::IsUnwritten, wrong))
        && (!has(counted, 5) || all_pass(image, Test::IsMarkedFree, wrong))
        && (!has(counted, 6) || all_pass(image, Test::IsWild, wrong))
}

/// Whether a test finds no fault of any pointer.
fn all_pass<A: Allocator + Copy>(image: &Image<A>, test: Test, wrong: &[Pointer]) -> bool
    requires { wrong.now ≡ wrong_pointers image.now }
    ensures { IsTrue result ↔ InNoSlot (fails image.now test) }
{
    finds_none(image, test, wrong)
}

/// Whether no block is used twice.
fn are_blocks_used_once<A: Allocator + Copy>(image: &Image<A>, pointer_counts: &[u8; 128]) -> bool
    requires { IsTally SLOTS (named_at image.now) INODES 0 pointer_counts.now }
    ensures { IsTrue result ↔ AtNoneBelow image.now.blocks (is_twice image.now) }
{
    let blocks = image.blocks();
    for block in 0..blocks {
        if pointer_counts[block] > 1 {
            return false;
        }
    }
    true
}

/// Whether a test finds no fault of these pointers.
fn finds_none<A: Allocator + Copy>(image: &Image<A>, test: Test, pointers: &[Pointer]) -> bool
    requires { All (λ pointer. pointer.inode < INODES) pointers.now }
    ensures { IsTrue result ↔ (filter_map (fault_of image.now test) pointers.now ≡ []) }
{
    for pointer in pointers {
        if fault_of(image, test, *pointer).is_some() {
            return false;
        }
    }
    true
}

/// Whether a script's inodes and directories have no fault of some numbers, if it keeps a set of inodes.
fn loses_none<A: Allocator + Copy>(image: &Image<A>, kept: Option<u16>, counted: u128) -> bool
    ensures { IsTrue result ↔ HasNoLossOf counted kept image.now }
{
    let Some(kept) = kept else {
        return true;
    };
    let reached = reached(image);
    (!has(counted, 7) || is_none_lost(image, kept, reached))
        && (!has(counted, 8) || have_blocks(image, reached))
}

/// Whether each inode of a set is reached.
fn is_none_lost<A: Allocator + Copy>(image: &Image<A>, kept: u16, reached: u128) -> bool
    requires { IsReachOf image.now reached }
    ensures { IsTrue result ↔ AtNoneBelow INODES (is_lost image.now kept) }
{
    for inode in 0..INODES {
        if lost_at(image, kept, reached, inode).is_some() {
            return false;
        }
    }
    true
}

/// Whether each directory that is reached has a block.
fn have_blocks<A: Allocator + Copy>(image: &Image<A>, reached: u128) -> bool
    requires { IsReachOf image.now reached }
    ensures { IsTrue result ↔ AtNoneBelow INODES (lacks_block image.now) }
{
    for inode in 0..INODES {
        if bare_at(image, reached, inode).is_some() {
            return false;
        }
    }
    true
}
