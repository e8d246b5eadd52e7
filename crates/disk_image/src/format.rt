//! The disk that a format leaves, or why there is none.

ghost use Rattle.std.specs.Prelude.{◌≡◌, ◌≤◌, ◌↔◌, IfOk, IsErrOf, OnOk, replicate};
ghost use Rattle.crash_model.specs.Disk.{with_bytes, empty_disk, IsGeometry};
ghost use Rattle.crash_model.specs.Generations.{new_disk};
ghost use Rattle.crash_model.specs.Sound.{IsSound, HasZeroJournal};

use crate::image::Image;
use crash_model::disk_bytes::{
    BLOCK_SIZE, DIRECTORY_KIND, DIRECTORY_MARK, INODE_BLOCK, JOURNAL_AT, LEAST_BLOCKS, MOST_BLOCKS,
    OTHER_BLOCKS,
};
use crash_model::refusals::RunFault;
use std::alloc::{AllocError, Allocator};
use std::fmt;
use thiserror::Error;

/// Why no image is made.
#[derive(Clone, Copy, Debug, PartialEq, Eq, Error)]
pub enum ImageFault {
    BadGeometry,
    OutOfMemory,
}

impl fmt::Display for ImageFault {
    fn fmt<W: fmt::Write>(&self, f: &mut fmt::Formatter<W>) -> fmt::Result {
        let refusal = match *self {
            ImageFault::BadGeometry => RunFault::BadGeometry,
            ImageFault::OutOfMemory => RunFault::OutOfMemory,
        };
        write!(f, "{refusal}")
    }
}

impl From<AllocError> for ImageFault {
    ghost use Rattle.std.specs.Prelude.{◌≡◌};
    ghost use Rattle.disk_image.specs.declared.format.ImageFault.TheVariants.{OutOfMemory};

    ghost from_gives = { λ _ fault. fault ≡ OutOfMemory };

    fn from(_error: AllocError) -> ImageFault {
        ImageFault::OutOfMemory
    }
}

impl<A: Allocator + Copy> Image<A> {
    /// A new disk with this number of blocks and of journal blocks, whose inodes have no generations.
    ///
    /// It is that of [`Image::formatted_with`].
    pub fn formatted(alloc: A, blocks: usize, journal: usize) -> Result<Image<A>, ImageFault>
        ensures ok { IfOk result (λ image. image ≡ empty_disk blocks journal) }
        ensures lawful { OnOk result (IsGeometry blocks journal) }
        ensures sound { IfOk result (λ image. IsSound image × HasZeroJournal image) }
        ensures bad { IsErrOf result ImageFault.BadGeometry ↔ ¬ (IsGeometry blocks journal) }
    {
        Image::formatted_with(alloc, blocks, journal, false)
    }

    /// A new disk with this number of blocks and of journal blocks, whose inodes and marks of blocks have generations
    /// if they are asked for.
    ///
    /// It holds the superblock, the map with the blocks up to the root's in use, inode 0, which is the root directory,
    /// and the root's empty block; its journal is zero. There are 16 to 128 blocks, and at least six more than journal
    /// blocks; else the geometry is bad.
    pub fn formatted_with(
        alloc: A,
        blocks: usize,
        journal: usize,
        generations: bool,
    ) -> Result<Image<A>, ImageFault>
        ensures ok { IfOk result (λ image. image ≡ new_disk blocks journal generations) }
        ensures lawful { OnOk result (IsGeometry blocks journal) }
        ensures sound { IfOk result (λ image. IsSound image × HasZeroJournal image) }
        ensures bad { IsErrOf result ImageFault.BadGeometry ↔ ¬ (IsGeometry blocks journal) }
    {
        if blocks < LEAST_BLOCKS || blocks > MOST_BLOCKS || journal > blocks - OTHER_BLOCKS {
            return Err(ImageFault::BadGeometry);
        }
        let bytes = Vec::from_elem(alloc, 0u8, BLOCK_SIZE * blocks)?;
        let mut image = Image {
            blocks,
            journal,
            generations,
            bytes,
        };
        image.put(0, 0, &[0x53, blocks as u8, journal as u8]);
        image.mark_used(5 + journal);
        image.put(
            INODE_BLOCK as usize,
            0,
            &[DIRECTORY_KIND, 1, 0, 0, (JOURNAL_AT + journal) as u8],
        );
        image.put(JOURNAL_AT + journal, 0, &[DIRECTORY_MARK, 0]);
        Ok(image)
    }

    /// Marks the blocks below `count` as in use.
    fn mark_used(&mut self, count: usize)
        requires { count ≤ MOST_BLOCKS }
        ensures { self.new ≡ with_bytes self.old 1 0 (replicate count 1) }
    {
        let _blocks = self.blocks;
        let ones = [1; MOST_BLOCKS];
        self.put(1, 0, &ones[..count]);
    }
}
