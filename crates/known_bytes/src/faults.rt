//! Faults, each tested on all disks of a family at once.

ghost use Rattle.std.specs.Prelude.{◌≡◌, ◌<◌, ◌==◌, ◌&&◌, ◌||◌, not, false, IfOk, IfErr, IfSome, MatchOption};
ghost use Rattle.crash_model.specs.Disk.{byte};
ghost use Rattle.crash_model.specs.Layout.{target_of, pointer_of, map_of, counts, is_live};
ghost use Rattle.crash_model.specs.Faults.{is_dangling, is_tame, is_wild, is_unwritten, is_marked_free, names_block};
ghost use Rattle.known_bytes.specs.Family.{IsUndecided};
ghost use Rattle.known_bytes.specs.Reading.{IsKnown, InEachDisk};
ghost use Rattle.fs_check.specs.Passed.{is_marked};
ghost use Rattle.known_bytes.specs.Directories.{IsItsBlock, counts_at};

use crate::answers::{both, either, negation, never_holds};
use crate::disk::KnownDisk;
use crash_model::disk_bytes::{
    DIRECTORY_KIND, DIRECTORY_MARK, ENTRIES, FILE_KIND, FILE_MARK, INODES, POINTERS_FROM, SLOTS,
};
use disk_image::{entry_offset, inode_place};
use std::alloc::Allocator;

impl<'a, A: Allocator + Copy> KnownDisk<'a, A> {
    /// The block that a directory has if it counts, and if it may count at all; otherwise an undecided patch that gives
    /// it another.
    pub(crate) fn directory_block(&self, dir: u8) -> Result<Option<u8>, usize>
        requires { dir < INODES }
        ensures ok { IfOk result (λ found. MatchOption found (InEachDisk self.now (λ d. counts d dir ≡ false))
            (λ block. InEachDisk self.now (IsItsBlock dir block))) }
        ensures within { IfOk result (λ found. IfSome found (λ block. block < self.now.family.base.blocks)) }
        ensures err { IfErr result (IsUndecided self.now.family) }
    {
        // For the proof: how many blocks every image has at least.
        let _blocks = self.base().blocks();
        if never_holds(self.kind_is(dir, DIRECTORY_KIND)) {
            return Ok(None);
        }
        let (inodes, from) = inode_place(dir);
        let block = self.only(usize::from(inodes), usize::from(from + POINTERS_FROM))?;
        if self.is_data(block) {
            Ok(Some(block))
        } else {
            Ok(None)
        }
    }

    /// Whether a directory counts with a block of the data area.
    pub(crate) fn counts_at(&self, dir: u8, block: u8) -> Result<bool, usize>
        requires dir { dir < INODES }
        requires block { block < self.now.family.base.blocks }
        ensures { IsKnown self.now (λ d. counts_at dir block d) result }
    {
        let at = usize::from(block);
        let is_directory = both(
            self.kind_is(dir, DIRECTORY_KIND),
            self.pointer_is(dir, 0, block),
        );
        let is_marked = both(
            self.byte_is(at, 0, DIRECTORY_MARK),
            self.is_owned(block, dir),
        );
        both(is_directory, is_marked)
    }

    /// Whether an entry names an inode that is not live.
    pub fn dangles(&self, dir: u8, k: u8, inode: u8) -> Result<bool, usize>
        requires dir { dir < INODES }
        requires k { k < ENTRIES }
        requires inode { inode < 255 }
        ensures { IsKnown self.now (λ d. is_dangling d dir k && target_of d dir k == inode) result }
    {
        let Some(block) = self.directory_block(dir)? else {
            return Ok(false);
        };
        let names = self.byte_is(usize::from(block), usize::from(entry_offset(k)), inode + 1);
        let is_free = negation(self.is_live(inode));
        both(self.counts_at(dir, block), both(names, is_free))
    }

    /// Whether a slot of a live inode has a value.
    fn points_to(&self, inode: u8, slot: u8, block: u8) -> Result<bool, usize>
        requires inode { inode < INODES }
        requires slot { slot < SLOTS }
        ensures { IsKnown self.now (λ d. pointer_of d inode slot == block && is_live d inode) result }
    {
        both(self.pointer_is(inode, slot, block), self.is_live(inode))
    }

    /// Whether a slot names a block of the data area.
    pub fn names(&self, inode: u8, slot: u8, block: u8) -> Result<bool, usize>
        requires inode { inode < INODES }
        requires slot { slot < SLOTS }
        ensures { IsKnown self.now (λ d. names_block d inode slot block) result }
    {
        // For the proof: where the data area begins.
        let _journal = self.base().journal();
        if !self.is_data(block) {
            return Ok(false);
        }
        self.points_to(inode, slot, block)
    }

    /// Whether a slot names this block outside the data area.
    pub fn is_wild(&self, inode: u8, slot: u8, block: u8) -> Result<bool, usize>
        requires inode { inode < INODES }
        requires slot { slot < SLOTS }
        ensures { IsKnown self.now (λ d. is_wild d inode slot && pointer_of d inode slot == block) result }
    {
        if block == 0 {
            return Ok(false);
        }
        if self.is_data(block) {
            return Ok(false);
        }
        self.points_to(inode, slot, block)
    }

    /// Whether a block's mark is that of an inode's kind, and names the inode with its generation.
    fn is_marked(&self, inode: u8, block: u8) -> Result<bool, usize>
        requires inode { inode < INODES }
        requires block { block < self.now.family.base.blocks }
        ensures { IsKnown self.now (λ d. is_marked d inode block) result }
    {
        let at = usize::from(block);
        let is_file = both(
            self.kind_is(inode, FILE_KIND),
            self.byte_is(at, 0, FILE_MARK),
        );
        let is_directory = both(
            self.kind_is(inode, DIRECTORY_KIND),
            self.byte_is(at, 0, DIRECTORY_MARK),
        );
        both(either(is_file, is_directory), self.is_owned(block, inode))
    }

    /// Whether a slot names this block, and the block is not marked as the inode's.
    pub fn is_unwritten(&self, inode: u8, slot: u8, block: u8) -> Result<bool, usize>
        requires inode { inode < INODES }
        requires slot { slot < SLOTS }
        ensures { IsKnown self.now (λ d. is_unwritten d inode slot && pointer_of d inode slot == block) result }
    {
        if !self.is_data(block) {
            return Ok(false);
        }
        let names = self.names(inode, slot, block);
        both(names, negation(self.is_marked(inode, block)))
    }

    /// Whether a slot names this block, and the allocation map has the block as free.
    pub fn is_marked_free(&self, inode: u8, slot: u8, block: u8) -> Result<bool, usize>
        requires inode { inode < INODES }
        requires slot { slot < SLOTS }
        ensures { IsKnown self.now (λ d. is_marked_free d inode slot && pointer_of d inode slot == block) result }
    {
        // For the proof: how many blocks every image has at most.
        let _blocks = self.base().blocks();
        if !self.is_data(block) {
            return Ok(false);
        }
        let names = self.names(inode, slot, block);
        both(names, self.byte_is(1, usize::from(block), 0))
    }
}
