//! What the bytes of an image mean.
//!
//! Blocks 2 and 3 hold the inodes, 16 bytes each, so inode i begins at byte 256 + 16 * i of the disk: its kind, its
//! link count, its generation, a zero, its four pointers and a byte that an overwriting changes. Block 1 is the
//! allocation map. No other crate turns inodes and entries into offsets.

ghost use Rattle.std.specs.Prelude.{◌≡◌, ◌<◌, IsTrue, IfSome, bytes_eq};
ghost use Rattle.crash_model.specs.Layout.{kind_of, links_of, pointer_of, map_of, is_live, is_data, counts, entry_of};
ghost use Rattle.crash_model.specs.Layout.{spelling_of, inode_block, inode_offset, entry_offset, is_owned};
ghost use Rattle.crash_model.specs.Generations.{generation_of, mark_generation};
ghost use Rattle.crash_model.specs.Plan.{free_entry, touched_of};

use crate::image::Image;
use crash_model::disk_bytes::{
    BLOCK_SIZE, DIRECTORY_KIND, DIRECTORY_MARK, ENTRIES, ENTRIES_FROM, ENTRY_SIZE, FREE_KIND,
    GENERATIONS_AT, INODE_BLOCK, INODE_SIZE, INODES, INODES_IN_BLOCK, JOURNAL_AT, KINDS_AT,
    LINKS_AT, MAP_AT, MOST_BLOCKS, POINTERS_AT, SLOTS, SPELLING_SIZE, TOUCHED_FROM,
};
use std::alloc::Allocator;

/// The block of an inode, and the byte of that block at which the inode begins.
pub fn inode_place(inode: u8) -> (u8, u8)
    requires { inode < INODES }
    ensures block { result.0 ≡ inode_block inode }
    ensures offset { result.1 ≡ inode_offset inode }
{
    let offset = INODE_SIZE as u8 * (inode % INODES_IN_BLOCK);
    (INODE_BLOCK + inode / INODES_IN_BLOCK, offset)
}

/// The byte of a directory's block at which entry `k` begins.
pub fn entry_offset(k: u8) -> u8
    requires { k < ENTRIES }
    ensures { result ≡ entry_offset k }
{
    ENTRIES_FROM + ENTRY_SIZE * k
}

impl<A: Allocator + Copy> Image<A> {
    /// An inode's kind: 0 free, 1 file, 2 directory. Another byte is a kind that no operation writes.
    pub fn kind(&self, inode: u8) -> u8
        requires { inode < INODES }
        ensures { result ≡ kind_of self.now inode }
    {
        self.bytes[KINDS_AT + INODE_SIZE * inode as usize]
    }

    /// An inode's link count.
    pub fn links(&self, inode: u8) -> u8
        requires { inode < INODES }
        ensures { result ≡ links_of self.now inode }
    {
        self.bytes[LINKS_AT + INODE_SIZE * inode as usize]
    }

    /// The block that a slot of an inode names, or 0.
    pub fn pointer(&self, inode: u8, slot: u8) -> u8
        requires inode { inode < INODES }
        requires slot { slot < SLOTS }
        ensures { result ≡ pointer_of self.now inode slot }
    {
        self.bytes[POINTERS_AT + INODE_SIZE * inode as usize + slot as usize]
    }

    /// The byte of an inode that an overwriting changes.
    pub fn touched(&self, inode: u8) -> u8
        requires { inode < INODES }
        ensures { result ≡ touched_of self.now inode }
    {
        self.bytes[KINDS_AT + INODE_SIZE * inode as usize + TOUCHED_FROM as usize]
    }

    /// An inode's generation; 0 on a disk without generations.
    #[tactic(auto, unfolding(crash_model::specs::Generations::generation_of))]
    pub fn generation(&self, inode: u8) -> u8
        requires { inode < INODES }
        ensures { result ≡ generation_of self.now inode }
    {
        if !self.generations {
            return 0;
        }
        self.bytes[GENERATIONS_AT + INODE_SIZE * inode as usize]
    }

    /// The generation of a block's mark; 0 on a disk without generations.
    #[tactic(auto, unfolding(crash_model::specs::Generations::mark_generation))]
    pub fn mark_generation(&self, block: u8) -> u8
        requires { block < self.now.blocks }
        ensures { result ≡ mark_generation self.now block }
    {
        if !self.generations {
            return 0;
        }
        self.byte(block as usize, 2)
    }

    /// Whether the mark of a block names the inode and has its generation.
    pub fn is_owned(&self, block: u8, inode: u8) -> bool
        requires block { block < self.now.blocks }
        requires inode { inode < INODES }
        ensures { result ≡ is_owned self.now block inode }
    {
        self.byte(block as usize, 1) == inode
            && self.mark_generation(block) == self.generation(inode)
    }

    /// Whether a number is that of an inode in use.
    pub fn is_live(&self, inode: u8) -> bool
        ensures { result ≡ is_live self.now inode }
    {
        inode < INODES && self.kind(inode) != FREE_KIND
    }

    /// Whether a number is that of a block of the data area, which begins after the journal.
    pub fn is_data(&self, block: u8) -> bool
        ensures value { result ≡ is_data self.now block }
        ensures within { IsTrue result → block < MOST_BLOCKS }
    {
        JOURNAL_AT + self.journal <= block as usize && (block as usize) < self.blocks
    }

    /// The allocation map's byte for a block: 0 if it is free.
    pub fn map(&self, block: u8) -> u8
        requires { block < self.now.blocks }
        ensures { result ≡ map_of self.now block }
    {
        self.bytes[MAP_AT + block as usize]
    }

    /// Whether an inode is a directory whose slot 0 names a data block that is marked as its own.
    pub fn counts(&self, dir: u8) -> bool
        requires { dir < INODES }
        ensures { result ≡ counts self.now dir }
    {
        let block = self.pointer(dir, 0);
        self.kind(dir) == DIRECTORY_KIND
            && self.is_data(block)
            && self.byte(block as usize, 0) == DIRECTORY_MARK
            && self.is_owned(block, dir)
    }

    /// Byte 0 of entry `k` of a directory that counts: 0 if it is free, else its inode's number + 1.
    pub fn entry(&self, dir: u8, k: u8) -> u8
        requires dir { dir < INODES }
        requires k { k < ENTRIES }
        requires counts { IsTrue (counts self.now dir) }
        ensures { result ≡ entry_of self.now dir k }
    {
        self.byte(self.pointer(dir, 0) as usize, entry_offset(k) as usize)
    }

    /// Whether the 11 bytes after byte 0 of an entry, its name's length and its padded name, are these.
    pub fn is_spelled(&self, dir: u8, k: u8, spelled: &[u8]) -> bool
        requires dir { dir < INODES }
        requires k { k < ENTRIES }
        requires counts { IsTrue (counts self.now dir) }
        ensures { result ≡ bytes_eq (spelling_of self.now dir k) spelled.now }
    {
        let at = BLOCK_SIZE * self.pointer(dir, 0) as usize + entry_offset(k) as usize + 1;
        &self.bytes[at..at + SPELLING_SIZE] == spelled
    }

    /// The lowest free entry of a directory that counts.
    pub fn free_entry(&self, dir: u8) -> Option<u8>
        requires { dir < INODES }
        ensures value { result ≡ free_entry self.now dir }
        ensures within { IfSome result (λ k. k < ENTRIES) }
    {
        if !self.counts(dir) {
            return None;
        }
        for k in 0..ENTRIES {
            if self.entry(dir, k) == 0 {
                return Some(k);
            }
        }
        None
    }
}
