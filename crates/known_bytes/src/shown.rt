//! Whether the disks of a family show a disk that whole operations leave.

ghost use Rattle.std.specs.Prelude.{◌≡◌, ◌+◌, ◌<◌, bytes_eq};
ghost use Rattle.std.specs.List.{list_any};
ghost use Rattle.crash_model.specs.Atomic.{shows};
ghost use Rattle.crash_model.specs.Disk.{block_of};
ghost use Rattle.fs_check.specs.Compared.{AreCompared};
ghost use Rattle.known_bytes.specs.Reading.{IsKnown};
ghost use Rattle.known_bytes.specs.Shown.{shows_below};
ghost use Rattle.known_bytes.specs.Texts.{half_done_there};

use crate::answers::{both, either, negation, never_holds};
use crate::disk::KnownDisk;
use disk_image::{Demands, Image};
use fs_check::compared_blocks;
use patch_sets::set::has;
use std::alloc::Allocator;

impl<'a, A: Allocator + Copy> KnownDisk<'a, A> {
    /// Whether the disks show none of those of which they must show one.
    pub(crate) fn is_half_done(&self, demands: &Demands<A>) -> Result<bool, usize>
        ensures { IsKnown self.now (λ d. half_done_there demands.now.disks d) result }
    {
        match demands.disks() {
            Some(disks) => negation(self.shows_any(disks)),
            None => Ok(false),
        }
    }

    /// Whether the disks show one of these.
    fn shows_any(&self, disks: &[Image<A>]) -> Result<bool, usize>
        ensures { IsKnown self.now (λ d. list_any (shows d) disks.now) result }
    {
        let mut answer = Ok(false);
        for disk in disks {
            answer = either(answer, self.shows(disk));
        }
        answer
    }

    /// Whether the disks show one.
    fn shows(&self, disk: &Image<A>) -> Result<bool, usize>
        ensures { IsKnown self.now (λ d. shows d disk.now) result }
    {
        let blocks = disk.blocks();
        let compared = compared_blocks(disk);
        let mut answer = Ok(true);
        for block in 0..blocks {
            answer = self.and_block(answer, compared, disk, block);
        }
        answer
    }

    /// Whether the disks have the blocks of another that are compared, up to one, if it was known of those before. No
    /// byte is read where they differ.
    fn and_block(
        &self,
        before: Result<bool, usize>,
        compared: u128,
        disk: &Image<A>,
        block: usize,
    ) -> Result<bool, usize>
        requires block { block < disk.now.blocks }
        requires compared { AreCompared disk.now compared }
        ensures { IsKnown self.now (λ d. shows_below block disk.now d) before
            → IsKnown self.now (λ d. shows_below (block + 1) disk.now d) result }
    {
        // For the proof: how many blocks every image has at most.
        let _blocks = disk.blocks();
        if !has(compared, block) {
            return before;
        }
        if never_holds(before) {
            return Ok(false);
        }
        both(before, self.has_block(disk, block))
    }

    /// Whether the disks have a block of another.
    fn has_block(&self, disk: &Image<A>, block: usize) -> Result<bool, usize>
        requires { block < disk.now.blocks }
        ensures { IsKnown self.now (λ d. bytes_eq (block_of d block) (block_of disk.now block)) result }
    {
        // For the proof: what every image keeps.
        let _blocks = disk.blocks();
        let base = self.base();
        let most = base.blocks();
        if block >= most {
            return Ok(false);
        }
        let mut answer = Ok(true);
        for offset in 0..128 {
            let value = disk.byte(block, offset);
            answer = both(answer, self.byte_is(block, offset, value));
        }
        answer
    }
}
