//! Whose blocks are, read on all disks of a family at once.

ghost use Rattle.std.specs.Prelude.{◌==◌, ◌<◌};
ghost use Rattle.crash_model.specs.Disk.{byte};
ghost use Rattle.crash_model.specs.Layout.{is_owned};
ghost use Rattle.known_bytes.specs.Generations.{generation_byte};
ghost use Rattle.known_bytes.specs.Reading.{IsKnown};

use crate::answers::both;
use crate::disk::KnownDisk;
use crash_model::disk_bytes::{BLOCK_SIZE, INODES};
use disk_image::inode_place;
use std::alloc::Allocator;

impl<'a, A: Allocator + Copy> KnownDisk<'a, A> {
    /// Whether the mark of a block names an inode and, on disks with generations, has the inode's generation.
    pub(crate) fn is_owned(&self, block: u8, inode: u8) -> Result<bool, usize>
        requires block { block < self.now.family.base.blocks }
        requires inode { inode < INODES }
        ensures { IsKnown self.now (λ d. is_owned d block inode) result }
    {
        let is_named = self.byte_is(usize::from(block), 1, inode);
        if !self.base().has_generations() {
            return is_named;
        }
        both(is_named, self.is_of_generation(block, inode))
    }

    /// Whether the mark of a block has the generation of an inode.
    fn is_of_generation(&self, block: u8, inode: u8) -> Result<bool, usize>
        requires block { block < self.now.family.base.blocks }
        requires inode { inode < INODES }
        ensures { IsKnown self.now (λ d. byte d block 2 == generation_byte inode d) result }
    {
        let generation = self.generation(inode)?;
        self.byte_is(usize::from(block), 2, generation)
    }

    /// The byte of an inode that has its generation, if all disks have the same.
    fn generation(&self, inode: u8) -> Result<u8, usize>
        requires { inode < INODES }
        ensures { IsKnown self.now (generation_byte inode) result }
    {
        // For the proof: how many blocks every image has at least.
        let _blocks = self.base().blocks();
        let (block, from) = inode_place(inode);
        self.known(usize::from(block), usize::from(from) + 2)
    }

    /// A byte of a block, if all disks have the same.
    pub(crate) fn known(&self, block: usize, offset: usize) -> Result<u8, usize>
        requires block { block < self.now.family.base.blocks }
        requires offset { offset < BLOCK_SIZE }
        ensures { IsKnown self.now (λ d. byte d block offset) result }
    {
        let value = self.only(block, offset)?;
        if self.byte_is(block, offset, value)? {
            Ok(value)
        } else {
            Ok(0)
        }
    }
}
