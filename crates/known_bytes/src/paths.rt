//! What a path shows on all disks of a family at once.

ghost use Rattle.std.specs.Prelude.{◌≡◌, ◌+◌, ◌*◌, ◌<◌, Some, IfOk, IfSome, length, slice_range, if◌then◌else◌};
ghost use Rattle.crash_model.specs.declared.disk_bytes.TheConstants.{BLOCK_SIZE, SPELLING_SIZE};
ghost use Rattle.crash_model.specs.declared.showing.Shown.TheVariants.{Nothing, Directory};
ghost use Rattle.crash_model.specs.Disk.{byte};
ghost use Rattle.crash_model.specs.Layout.{counts, pointer_of, entry_offset};
ghost use Rattle.crash_model.specs.Paths.{path_shows, end_of, child_of, inode_shown, slot_shown, file_shown, names_of};
ghost use Rattle.crash_model.specs.Plan.{name_spelling};
ghost use Rattle.known_bytes.specs.NamedIn.{child_in, end_in, first_child_in};
ghost use Rattle.known_bytes.specs.Reading.{IsKnown};

use crate::disk::KnownDisk;
use crash_model::disk_bytes::{DIRECTORY_KIND, ENTRIES, INODES, POINTERS_FROM, SHOWN_BYTES, SLOTS};
use crash_model::names::{Name, Path};
use crash_model::showing::{Shown, ShownSlot};
use disk_image::{entry_offset, inode_place};
use std::alloc::Allocator;

impl<'a, A: Allocator + Copy> KnownDisk<'a, A> {
    /// What a path shows, if all disks show the same; else an undecided patch on which it depends.
    pub fn path_shows(&self, path: &Path) -> Result<Shown, usize>
        ensures { IsKnown self.now (λ d. path_shows d path.now) result }
    {
        match self.end_of(path)? {
            Some(inode) => self.inode_shows(inode),
            None => Ok(Shown::Nothing),
        }
    }

    /// The live inode that a path leads to.
    fn end_of(&self, path: &Path) -> Result<Option<u8>, usize>
        ensures known { IsKnown self.now (λ d. end_of d (Some 0) (names_of path.now)) result }
        ensures within { IfOk result (λ end. IfSome end (λ inode. inode < INODES)) }
    {
        let mut dir = 0;
        for name in path.through.as_slice() {
            let Some(child) = self.child(dir, name)? else {
                return Ok(None);
            };
            dir = child;
        }
        self.child(dir, &path.last)
    }

    /// The live inode that a name of a directory leads to.
    fn child(&self, dir: u8, name: &Name) -> Result<Option<u8>, usize>
        requires { dir < INODES }
        ensures known { IsKnown self.now (λ d. child_of d dir name.now) result }
        ensures within { IfOk result (λ child. IfSome child (λ inode. inode < INODES)) }
    {
        let Some(directory) = self.directory(dir)? else {
            return Ok(None);
        };
        let counts = directory.counts?;
        if counts {
            self.first_child(directory.block, name)
        } else {
            Ok(None)
        }
    }

    /// The live inode that the first entry of a name leads to.
    fn first_child(&self, block: u8, name: &Name) -> Result<Option<u8>, usize>
        requires { block < self.now.family.base.blocks }
        ensures known { IsKnown self.now (first_child_in ENTRIES block (name_spelling name.now)) result }
        ensures within { IfOk result (λ child. IfSome child (λ inode. inode < INODES)) }
    {
        let spelled = name.spelled();
        for k in 0..ENTRIES {
            let found = self.named_at(block, k, spelled.as_slice())?;
            if found.is_some() {
                return Ok(found);
            }
        }
        Ok(None)
    }

    /// The live inode that an entry leads to, if it has the name.
    fn named_at(&self, block: u8, k: u8, spelled: &[u8]) -> Result<Option<u8>, usize>
        requires block { block < self.now.family.base.blocks }
        requires k { k < ENTRIES }
        requires spelled { length spelled.now ≡ SPELLING_SIZE }
        ensures known { IsKnown self.now (child_in block k spelled.now) result }
        ensures within { IfOk result (λ child. IfSome child (λ inode. inode < INODES)) }
    {
        let is_spelled = self.is_spelled(block, k, spelled)?;
        if is_spelled {
            self.end_at(block, k)
        } else {
            Ok(None)
        }
    }

    /// The live inode that an entry leads to.
    fn end_at(&self, block: u8, k: u8) -> Result<Option<u8>, usize>
        requires block { block < self.now.family.base.blocks }
        requires k { k < ENTRIES }
        ensures known { IsKnown self.now (end_in block k) result }
        ensures within { IfOk result (λ end. IfSome end (λ inode. inode < INODES)) }
    {
        let entry = self.entry_known(block, k)?;
        if entry == 0 {
            return Ok(None);
        }
        if entry > INODES {
            return Ok(None);
        }
        let is_live = self.is_live(entry - 1)?;
        if is_live {
            Ok(Some(entry - 1))
        } else {
            Ok(None)
        }
    }

    /// Byte 0 of an entry.
    fn entry_known(&self, block: u8, k: u8) -> Result<u8, usize>
        requires block { block < self.now.family.base.blocks }
        requires k { k < ENTRIES }
        ensures { IsKnown self.now (λ d. byte d block (entry_offset k)) result }
    {
        self.known(usize::from(block), usize::from(entry_offset(k)))
    }

    /// What is shown at an inode.
    fn inode_shows(&self, inode: u8) -> Result<Shown, usize>
        requires { inode < INODES }
        ensures { IsKnown self.now (λ d. inode_shown d (Some inode)) result }
    {
        let is_directory = self.kind_is(inode, DIRECTORY_KIND)?;
        if is_directory {
            self.directory_shows(inode)
        } else {
            self.file_shows(inode)
        }
    }

    /// What is shown at an inode of a directory.
    fn directory_shows(&self, dir: u8) -> Result<Shown, usize>
        requires { dir < INODES }
        ensures { IsKnown self.now (λ d. if counts d dir then Directory else Nothing) result }
    {
        let Some(directory) = self.directory(dir)? else {
            return Ok(Shown::Nothing);
        };
        let counts = directory.counts?;
        if counts {
            Ok(Shown::Directory)
        } else {
            Ok(Shown::Nothing)
        }
    }

    /// What is shown at an inode of a file.
    fn file_shows(&self, inode: u8) -> Result<Shown, usize>
        requires { inode < INODES }
        ensures { IsKnown self.now (λ d. file_shown d inode) result }
    {
        let first = self.slot_shows(inode, 0)?;
        let second = self.slot_shows(inode, 1)?;
        let third = self.slot_shows(inode, 2)?;
        let fourth = self.slot_shows(inode, 3)?;
        Ok(Shown::File([first, second, third, fourth]))
    }

    /// What a slot of an inode shows.
    fn slot_shows(&self, inode: u8, slot: u8) -> Result<ShownSlot, usize>
        requires inode { inode < INODES }
        requires slot { slot < SLOTS }
        ensures { IsKnown self.now (λ d. slot_shown d inode slot) result }
    {
        let block = self.pointer_known(inode, slot)?;
        if block == 0 {
            return Ok(ShownSlot::Hole);
        }
        if !self.is_data(block) {
            return Ok(ShownSlot::Wild);
        }
        Ok(ShownSlot::Begins(self.begins(block)?))
    }

    /// The block in a slot, or 0.
    fn pointer_known(&self, inode: u8, slot: u8) -> Result<u8, usize>
        requires inode { inode < INODES }
        requires slot { slot < SLOTS }
        ensures { IsKnown self.now (λ d. pointer_of d inode slot) result }
    {
        // For the proof: how many blocks every image has at least.
        let _blocks = self.base().blocks();
        let (block, from) = inode_place(inode);
        self.known(usize::from(block), usize::from(from + POINTERS_FROM + slot))
    }

    /// The first bytes of a block.
    fn begins(&self, block: u8) -> Result<[u8; SHOWN_BYTES], usize>
        requires { block < self.now.family.base.blocks }
        ensures { IsKnown self.now
            (λ d. slice_range d.bytes (BLOCK_SIZE * block) (BLOCK_SIZE * block + SHOWN_BYTES)) result }
    {
        // For the proof: what every disk keeps.
        let _blocks = self.base().blocks();
        let block = usize::from(block);
        let first = self.known(block, 0)?;
        let second = self.known(block, 1)?;
        let third = self.known(block, 2)?;
        let fourth = self.known(block, 3)?;
        Ok([first, second, third, fourth])
    }
}
