//! The disks of a family, read at once.

ghost use Rattle.std.specs.Prelude.{◌≡◌, ℕ, ◌+◌, ◌*◌, ◌==◌, ◌||◌, not, ◌<◌, ◌≤◌, IsTrue, IfOk, IfErr, IfSome};
ghost use Rattle.std.specs.Prelude.{slice_index, length, true, false, ◌&&◌};
ghost use Rattle.crash_model.specs.Disk.{byte, IsDisk};
ghost use Rattle.crash_model.specs.Layout.{kind_of, links_of, pointer_of, is_live, is_data, counts};
ghost use Rattle.known_bytes.specs.Family.{IsUndecided, HasValue, IsLike, is_one_of};
ghost use Rattle.known_bytes.specs.Reading.{InEachDisk, IsKnown};

use crate::answers::{are_alike, both, negation};
use crate::byte_set::ByteSet;
use crate::bytes::KnownBytes;
use crate::homes::Homes;
use crash_model::disk_bytes::{
    BLOCK_SIZE, FREE_KIND, INODE_SIZE, INODES, KINDS_AT, POINTERS_FROM, SLOTS,
};
use disk_image::{Image, inode_place};
use patch_sets::ends::{lowest, without_lowest};
use std::alloc::Allocator;
use std::marker::Model;

/// The disks that the closed sets of a family leave, after replay of the journal.
///
/// A question about them has one answer for all, or an undecided patch on which the answer depends. Contracts see the
/// family, whose disks are read after replay.
#[derive(Drop)]
pub struct KnownDisk<'a, A: Allocator + Copy> {
    bytes: KnownBytes<'a, A>,
    homes: Homes,
}

impl<'a, A: Allocator + Copy> Model for KnownDisk<'a, A> {
    ghost use Rattle.std.specs.Prelude.{true};
    ghost use Rattle.known_bytes.specs.Reading.{Reading, AreHomes};

    ghost Value = { Reading };

    ghost view = { λ k. record { family = k.bytes; replayed = true } };

    ghost invariant = { λ k. AreHomes (record { family = k.bytes; replayed = true }) k.homes.blocks k.homes.others
        k.homes.asks };
}

impl<'a, A: Allocator + Copy> KnownDisk<'a, A> {
    /// The disks after replay. No header need be known. An error is an undecided patch on which a header depends.
    pub fn replayed(bytes: KnownBytes<'a, A>) -> Result<KnownDisk<'a, A>, usize>
        ensures ok { IfOk result (λ disk. disk ≡ record { family = bytes.entry; replayed = true }) }
        ensures err { IfErr result (IsUndecided bytes.entry) }
    {
        let homes = bytes.homes()?;
        Ok(KnownDisk { bytes, homes })
    }

    /// The base. All disks have its numbers of blocks.
    pub fn base(&self) -> &Image<A>
        ensures base { result.now ≡ self.now.family.base }
        ensures disk { IsDisk self.now.family.base }
        ensures alike { InEachDisk self.now (IsLike self.now.family.base) }
        ensures few { length self.now.family.patches < 128 }
    {
        self.bytes.base()
    }

    /// Whether a byte of a block has a value. The answer may be known even if the byte is not, or the block of the
    /// image in which it is read: it is known if all blocks in which it may be read give the same answer.
    pub fn byte_is(&self, block: usize, offset: usize, value: u8) -> Result<bool, usize>
        requires block { block < self.now.family.base.blocks }
        requires offset { offset < BLOCK_SIZE }
        ensures { IsKnown self.now (λ d. byte d block offset == value) result }
    {
        // For the proof: how many blocks every image has at most.
        let _blocks = self.bytes.base().blocks();
        let home = usize::from(self.homes.blocks[block]);
        let answer = self.bytes.byte_is(home, offset, value);
        let others = self.homes.others[block];
        let mut left = others;
        while let Some(other) = lowest(left) {
            if !are_alike(answer, self.bytes.byte_is(other, offset, value)) {
                return Err(usize::from(self.homes.asks[block]));
            }
            left = without_lowest(left);
        }
        answer
    }

    /// The values that a byte of a block has on any disk, and perhaps others.
    pub(crate) fn values(&self, block: usize, offset: usize) -> ByteSet
        requires block { block < self.now.family.base.blocks }
        requires offset { offset < BLOCK_SIZE }
        ensures { InEachDisk self.now (λ d. HasValue result.low result.high (byte d block offset)) }
    {
        // For the proof: how many blocks every image has at most.
        let _blocks = self.bytes.base().blocks();
        let home = usize::from(self.homes.blocks[block]);
        let mut values = self.bytes.values(home, offset);
        let others = self.homes.others[block];
        let mut left = others;
        while let Some(other) = lowest(left) {
            let more = self.bytes.values(other, offset);
            values = values.union(more);
            left = without_lowest(left);
        }
        values
    }

    /// The only value but 0 that a byte of a block has on any disk, or 0.
    pub(crate) fn only(&self, block: usize, offset: usize) -> Result<u8, usize>
        requires block { block < self.now.family.base.blocks }
        requires offset { offset < BLOCK_SIZE }
        ensures ok { IfOk result (λ value. InEachDisk self.now (λ d. is_one_of 0 value (byte d block offset) ≡ true)) }
        ensures err { IfErr result (IsUndecided self.now.family) }
    {
        // For the proof: how many blocks every image has at most.
        let _blocks = self.bytes.base().blocks();
        let home = usize::from(self.homes.blocks[block]);
        let mut value = self.bytes.only(home, offset)?;
        let others = self.homes.others[block];
        let mut left = others;
        while let Some(other) = lowest(left) {
            let more = self.bytes.only(other, offset)?;
            let Some(both) = only_one(value, more) else {
                return Err(usize::from(self.homes.asks[block]));
            };
            value = both;
            left = without_lowest(left);
        }
        Ok(value)
    }

    /// Whether a number is that of a block of the data area.
    pub fn is_data(&self, block: u8) -> bool
        ensures value { InEachDisk self.now (λ d. is_data d block ≡ result) }
        ensures within { IsTrue result → block < self.now.family.base.blocks }
    {
        self.bytes.base().is_data(block)
    }

    /// Whether a byte of an inode has a value.
    fn inode_byte_is(&self, inode: u8, at: usize, value: u8) -> Result<bool, usize>
        requires inode { inode < INODES }
        requires at { at < INODE_SIZE }
        ensures { IsKnown self.now (λ d. slice_index d.bytes (KINDS_AT + INODE_SIZE * inode + at) == value) result }
    {
        // For the proof: how many blocks every image has at least.
        let _blocks = self.bytes.base().blocks();
        let (block, from) = inode_place(inode);
        self.byte_is(usize::from(block), usize::from(from) + at, value)
    }

    /// Whether an inode is of a kind.
    pub fn kind_is(&self, inode: u8, kind: u8) -> Result<bool, usize>
        requires { inode < INODES }
        ensures { IsKnown self.now (λ d. kind_of d inode == kind) result }
    {
        self.inode_byte_is(inode, 0, kind)
    }

    /// Whether an inode's link count is `links`.
    pub fn links_are(&self, inode: u8, links: u8) -> Result<bool, usize>
        requires { inode < INODES }
        ensures { IsKnown self.now (λ d. links_of d inode == links) result }
    {
        self.inode_byte_is(inode, 1, links)
    }

    /// Whether a slot of an inode has a value.
    pub fn pointer_is(&self, inode: u8, slot: u8, block: u8) -> Result<bool, usize>
        requires inode { inode < INODES }
        requires slot { slot < SLOTS }
        ensures { IsKnown self.now (λ d. pointer_of d inode slot == block) result }
    {
        self.inode_byte_is(inode, usize::from(POINTERS_FROM + slot), block)
    }

    /// Whether a number is that of an inode in use.
    pub fn is_live(&self, inode: u8) -> Result<bool, usize>
        ensures { IsKnown self.now (λ d. is_live d inode) result }
    {
        if inode >= INODES {
            return Ok(false);
        }
        negation(self.kind_is(inode, FREE_KIND))
    }
}

/// The only value but 0 of two, or 0; `None` if they are two.
fn only_one(value: u8, other: u8) -> Option<u8>
    ensures { IfSome result (λ both. (x : ℕ)
        → (is_one_of 0 value x ≡ true → is_one_of 0 both x ≡ true)
        × (is_one_of 0 other x ≡ true → is_one_of 0 both x ≡ true)) }
{
    if value == 0 || value == other {
        Some(other)
    } else if other == 0 {
        Some(value)
    } else {
        None
    }
}
