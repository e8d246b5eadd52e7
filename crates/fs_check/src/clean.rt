//! Whether an image has no fault.

ghost use Rattle.std.specs.Prelude.{◌≡◌, ◌+◌, ◌<◌, ◌↔◌, IsTrue, MatchBool, MatchOption};
ghost use Rattle.crash_model.specs.Layout.{is_live, counts};
ghost use Rattle.crash_model.specs.Faults.{IsClean};
ghost use Rattle.fs_check.specs.Passed.{HasCleanPointers, HasCleanEntries, HavePassed, slots_of, entries_of, is_marked};
ghost use Rattle.fs_check.specs.Passed.{is_right_block};
ghost use Rattle.fs_check.specs.Strict.{IsNamedBy, AreDirectories};

use crash_model::disk_bytes::{
    DIRECTORY_KIND, DIRECTORY_MARK, ENTRIES, FILE_KIND, FILE_MARK, INODES, SLOTS,
};
use disk_image::{Image, with_inode};
use std::alloc::Allocator;

/// Whether an image has no fault. It takes no memory, and ends at the first fault that it meets.
pub fn is_clean<A: Allocator + Copy>(image: &Image<A>) -> bool
    ensures { IsTrue result ↔ IsClean image.now }
{
    has_clean_pointers(image) && has_clean_entries(image)
}

/// Whether each pointer names a data block that is in use, marked as its inode's, and named by no other pointer.
pub(crate) fn has_clean_pointers<A: Allocator + Copy>(image: &Image<A>) -> bool
    ensures { IsTrue result ↔ HasCleanPointers image.now }
{
    let _at_most_128 = image.blocks();
    let mut named = [0; 128];
    for inode in 0..INODES {
        if image.is_live(inode) && !has_clean_slots(image, inode, &mut named) {
            return false;
        }
    }
    true
}

/// The same of one inode's pointers. `named` counts the pointers passed that name each block.
fn has_clean_slots<A: Allocator + Copy>(image: &Image<A>, inode: u8, named: &mut [u8; 128]) -> bool
    requires inode { inode < INODES }
    requires live { IsTrue (is_live image.now inode) }
    requires passed { HavePassed (slots_of image.now) inode 0 named.old }
    ensures { MatchBool result (HavePassed (slots_of image.now) (inode + 1) 0 named.new)
        (¬ (HasCleanPointers image.now)) }
{
    for slot in 0..SLOTS {
        let block = image.pointer(inode, slot);
        if block != 0 {
            if !is_right_block(image, inode, block) || named[block as usize] != 0 {
                return false;
            }
            named[block as usize] = 1;
        }
    }
    true
}

/// Whether a block is one of the data area, in use, and marked as an inode's.
pub(crate) fn is_right_block<A: Allocator + Copy>(image: &Image<A>, inode: u8, block: u8) -> bool
    requires { inode < INODES }
    ensures value { result ≡ is_right_block image.now inode block }
    ensures within { IsTrue result → block < 128 }
{
    image.is_data(block) && image.map(block) != 0 && is_marked(image, inode, block)
}

/// Whether a block's mark is that of an inode's kind, and names the inode with its generation.
pub(crate) fn is_marked<A: Allocator + Copy>(image: &Image<A>, inode: u8, block: u8) -> bool
    requires inode { inode < INODES }
    requires block { block < image.now.blocks }
    ensures { result ≡ is_marked image.now inode block }
{
    let mark = image.byte(block as usize, 0);
    let is_right_mark = match image.kind(inode) {
        FILE_KIND => mark == FILE_MARK,
        DIRECTORY_KIND => mark == DIRECTORY_MARK,
        _ => false,
    };
    is_right_mark && image.is_owned(block, inode)
}

/// Whether each entry leads to a live inode, and no inode has more entries than links.
fn has_clean_entries<A: Allocator + Copy>(image: &Image<A>) -> bool
    ensures { IsTrue result ↔ HasCleanEntries image.now }
{
    clean_directories(image).is_some()
}

/// What the directories of an image hold.
#[derive(Clone, Copy, Drop)]
pub(crate) struct Directories {
    /// By inode: the live inodes to which its entries lead, as a set.
    pub named: [u16; 16],
    /// The inodes that are directories, as a set.
    pub inodes: u16,
}

/// What the directories hold, if each entry leads to a live inode, and no inode has more entries than links.
pub(crate) fn clean_directories<A: Allocator + Copy>(image: &Image<A>) -> Option<Directories>
    ensures { MatchOption result (¬ (HasCleanEntries image.now))
        (λ found. HasCleanEntries image.now × AreDirectories image.now found) }
{
    let mut entries = [0; 16];
    let mut named = [0; 16];
    let mut inodes = 0;
    for dir in 0..INODES {
        if image.kind(dir) == DIRECTORY_KIND {
            inodes = with_inode(inodes, dir);
            if image.counts(dir) {
                named[dir as usize] = clean_directory(image, dir, &mut entries)?;
            }
        }
    }
    Some(Directories { named, inodes })
}

/// The same of one directory's entries: the inodes to which they lead, as a set. `entries` counts the entries passed
/// that lead to each inode.
fn clean_directory<A: Allocator + Copy>(
    image: &Image<A>,
    dir: u8,
    entries: &mut [u8; 16],
) -> Option<u16>
    requires dir { dir < INODES }
    requires counts { IsTrue (counts image.now dir) }
    requires passed { HavePassed (entries_of image.now) dir 0 entries.old }
    ensures { MatchOption result (¬ (HasCleanEntries image.now)) (λ named. IsNamedBy image.now dir named
        × HavePassed (entries_of image.now) (dir + 1) 0 entries.new) }
{
    let mut named = 0;
    for k in 0..ENTRIES {
        let entry = image.entry(dir, k);
        if entry != 0 {
            let inode = entry - 1;
            if !image.is_live(inode) || entries[inode as usize] == image.links(inode) {
                return None;
            }
            entries[inode as usize] += 1;
            named = with_inode(named, inode);
        }
    }
    Some(named)
}
