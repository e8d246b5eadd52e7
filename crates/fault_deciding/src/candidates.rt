//! The numbers that faults can have, whatever a crash leaves.
//!
//! A fault's text has the value of a pointer, of a link count or of an entry. Here are all values that such a byte has
//! on any disk of a family after replay, and the faults with these values, so trying each of them misses no fault.

ghost use Rattle.std.specs.Prelude.{◌≡◌, ◌<◌, true};
ghost use Rattle.crash_model.specs.Layout.{pointer_of, links_of, entry_of, counts};
ghost use Rattle.crash_model.specs.Replay.{image_after_replay};
ghost use Rattle.known_bytes.specs.Family.{InEach, HasValue};

mod by_entry;
mod by_inode;
mod by_slot;
mod last_byte;
mod listing;

use crash_model::disk_bytes::{ENTRIES, INODES, POINTERS_FROM, SLOTS};
use disk_image::{entry_offset, inode_place};
use known_bytes::{ByteSet, KnownBytes};
pub use listing::possible_faults;
use std::alloc::Allocator;

/// The values that a slot of an inode has on any of the disks after replay.
pub fn pointers<A: Allocator + Copy>(bytes: &KnownBytes<A>, inode: u8, slot: u8) -> ByteSet
    requires inode { inode < INODES }
    requires slot { slot < SLOTS }
    ensures { InEach bytes.now
        (λ d. HasValue result.low result.high (pointer_of (image_after_replay d) inode slot)) }
{
    // For the proof: how many blocks every image has at least.
    let _blocks = bytes.base().blocks();
    let (block, from) = inode_place(inode);
    let at = usize::from(from + POINTERS_FROM + slot);
    bytes.possible(usize::from(block), at)
}

/// The link counts that an inode has on any of the disks after replay.
pub fn link_counts<A: Allocator + Copy>(bytes: &KnownBytes<A>, inode: u8) -> ByteSet
    requires { inode < INODES }
    ensures { InEach bytes.now (λ d. HasValue result.low result.high (links_of (image_after_replay d) inode)) }
{
    // For the proof: how many blocks every image has at least.
    let _blocks = bytes.base().blocks();
    let (block, from) = inode_place(inode);
    bytes.possible(usize::from(block), usize::from(from) + 1)
}

/// The values that the first byte of an entry has on any of the disks after replay, if the directory counts.
pub fn entries<A: Allocator + Copy>(bytes: &KnownBytes<A>, dir: u8, k: u8) -> ByteSet
    requires dir { dir < INODES }
    requires k { k < ENTRIES }
    ensures { InEach bytes.now (λ d. counts (image_after_replay d) dir ≡ true
        → HasValue result.low result.high (entry_of (image_after_replay d) dir k)) }
{
    let blocks = pointers(bytes, dir, 0);
    let end = bytes.base().blocks() as u8;
    let mut values = ByteSet::default();
    for block in 0..end {
        if bytes.base().is_data(block) && blocks.has(block) {
            values = values.union(bytes.possible(usize::from(block), usize::from(entry_offset(k))));
        }
    }
    values
}
