//! The bytes of an image.

ghost use Rattle.std.specs.Prelude.{◌≡◌, ℕ, ◌+◌, ◌*◌, ◌<◌, ◌≤◌, length, take, drop, IfOk};
ghost use Rattle.crash_model.specs.Disk.{Disk, IsDisk, byte, block_of, overwrite, with_bytes};
ghost use Rattle.crash_model.specs.Atomic.{is_same_disk};

use crash_model::disk_bytes::{BLOCK_SIZE, LEAST_BLOCKS, MOST_BLOCKS, OTHER_BLOCKS};
use std::alloc::{AllocError, Allocator};
use std::marker::Model;

/// A disk in memory: 16 to 128 blocks of 128 bytes, of which the journal leaves at least six.
#[derive(Drop)]
pub struct Image<A: Allocator + Copy> {
    pub(crate) blocks: usize,
    pub(crate) journal: usize,
    pub(crate) generations: bool,
    pub(crate) bytes: Vec<u8, A>,
}

impl<A: Allocator + Copy> Model for Image<A> {
    ghost Value = { Disk };

    ghost view = { λ i. record {
      blocks = i.blocks;
      journal = i.journal;
      generations = i.generations;
      bytes = i.bytes.items;
    } };

    ghost invariant = { λ i. IsDisk (record {
      blocks = i.blocks;
      journal = i.journal;
      generations = i.generations;
      bytes = i.bytes.items;
    }) };
}

impl<A: Allocator + Copy> Image<A> {
    /// The number of blocks.
    pub fn blocks(&self) -> usize
        ensures value { result ≡ self.now.blocks }
        ensures range { (LEAST_BLOCKS ≤ result) × (result ≤ MOST_BLOCKS) }
        ensures disk { IsDisk self.now }
    {
        self.blocks
    }

    /// The number of journal blocks, which begin at block 4.
    pub fn journal(&self) -> usize
        ensures value { result ≡ self.now.journal }
        ensures range { result + OTHER_BLOCKS ≤ self.now.blocks }
        ensures disk { IsDisk self.now }
    {
        self.journal
    }

    /// Whether its inodes and the marks of its blocks have generations.
    pub fn has_generations(&self) -> bool
        ensures { result ≡ self.now.generations }
    {
        self.generations
    }

    /// One byte of a block.
    pub fn byte(&self, block: usize, offset: usize) -> u8
        requires block { block < self.now.blocks }
        requires offset { offset < BLOCK_SIZE }
        ensures { result ≡ byte self.now block offset }
    {
        self.bytes[BLOCK_SIZE * block + offset]
    }

    /// The 128 bytes of a block.
    pub fn block(&self, block: usize) -> &[u8]
        requires { block < self.now.blocks }
        ensures bytes { result.now ≡ block_of self.now block }
        ensures size { length result.now ≡ BLOCK_SIZE }
    {
        &self.bytes[BLOCK_SIZE * block..BLOCK_SIZE * block + BLOCK_SIZE]
    }

    /// Replaces a range of bytes inside one block.
    pub fn put(&mut self, block: usize, offset: usize, bytes: &[u8])
        requires block { block < self.old.blocks }
        requires inside { offset + length bytes.now ≤ BLOCK_SIZE }
        ensures { self.new ≡ with_bytes self.old block offset bytes.now }
    {
        write_over(
            self.bytes.as_mut_slice(),
            BLOCK_SIZE * block + offset,
            bytes,
        );
    }

    /// Replaces a block by the bytes of another.
    pub fn copy_block(&mut self, from: usize, to: usize)
        requires from { from < self.old.blocks }
        requires to { to < self.old.blocks }
        ensures { self.new ≡ with_bytes self.old to 0 (block_of self.old from) }
    {
        copy_over(
            self.bytes.as_mut_slice(),
            BLOCK_SIZE * from,
            BLOCK_SIZE * to,
        );
    }

    /// Makes this image equal to another one with as many blocks; it takes no memory.
    pub fn copy_from(&mut self, from: &Image<A>)
        requires { from.now.blocks ≡ self.old.blocks }
        ensures { self.new ≡ from.now }
    {
        self.journal = from.journal;
        self.generations = from.generations;
        self.bytes.copy_from_slice(from.bytes.as_slice());
    }

    /// Whether another image has the same numbers of blocks and the same bytes, and both have generations or neither.
    pub fn is_same(&self, other: &Image<A>) -> bool
        ensures { result ≡ is_same_disk self.now other.now }
    {
        self.blocks == other.blocks
            && self.journal == other.journal
            && self.generations == other.generations
            && self.bytes.as_slice() == other.bytes.as_slice()
    }

    /// The same image in memory of its own.
    pub fn try_copy(&self) -> Result<Image<A>, AllocError>
        ensures { IfOk result (λ copy. copy ≡ self.now) }
    {
        Ok(Image {
            blocks: self.blocks,
            journal: self.journal,
            generations: self.generations,
            bytes: self.bytes.clone()?,
        })
    }
}

/// Writes bytes over those from `at` on.
#[tactic(auto, unfolding(crash_model::specs::Disk::overwrite))]
fn write_over(into: &mut [u8], at: usize, bytes: &[u8])
    requires { at + length bytes.now ≤ length into.old }
    ensures { into.new ≡ overwrite into.old at bytes.now }
{
    // Many patches are of one byte, for which a call to copy takes longer than the copy.
    if bytes.len() == 1 {
        into[at] = bytes[0];
        return;
    }
    into[at..at + bytes.len()].copy_from_slice(bytes);
}

/// Copies the 128 bytes from `from` on over those from `to` on.
#[tactic(auto, using(crate::proofs::Copies::copied))]
fn copy_over(bytes: &mut [u8], from: usize, to: usize)
    requires from { from + BLOCK_SIZE ≤ length bytes.old }
    requires to { to + BLOCK_SIZE ≤ length bytes.old }
    ensures { bytes.new ≡ overwrite bytes.old to (take BLOCK_SIZE (drop from bytes.old)) }
{
    bytes.copy_within(from..from + BLOCK_SIZE, to);
}
