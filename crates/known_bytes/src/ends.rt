//! Where a path may lead on some disks of a family.

ghost use Rattle.std.specs.Prelude.{◌≡◌, ◌<◌, ◌∷◌, [], ◌||◌, not, ℕ, Some, Option, length, bit_or, true};
ghost use Rattle.patch_sets.specs.Sets.{Has};
ghost use Rattle.crash_model.specs.Disk.{Disk, byte};
ghost use Rattle.crash_model.specs.Layout.{pointer_of, entry_offset};
ghost use Rattle.crash_model.specs.Paths.{end_of, child_of, names_of};
ghost use Rattle.known_bytes.specs.Family.{HasValue};
ghost use Rattle.known_bytes.specs.NamedIn.{is_spelled_in, child_in, end_in, end_by, first_child_in};
ghost use Rattle.known_bytes.specs.NamedIn.{AreEnds, AreEndsAt};
ghost use Rattle.known_bytes.specs.Reading.{InEachDisk, IsKnown};

use crate::answers::{always_holds, both, never_holds};
use crate::byte_set::ByteSet;
use crate::disk::KnownDisk;
use crash_model::disk_bytes::{ENTRIES, INODES, POINTERS_FROM, SLOTS, SPELLING_SIZE};
use crash_model::names::{Name, Path};
use disk_image::{entry_offset, inode_place};
use patch_sets::ends::{lowest, without_lowest};
use patch_sets::set::with;
use std::alloc::Allocator;

/// Where names may lead: to these inodes, as a set, and perhaps nowhere.
#[derive(Clone, Copy)]
pub(crate) struct Ends {
    pub(crate) inodes: u128,
    pub(crate) nowhere: bool,
}

impl Ends {
    /// Nowhere.
    fn none() -> Ends
        ensures inodes { result.inodes ≡ 0 }
        ensures nowhere { result.nowhere ≡ true }
    {
        Ends {
            inodes: 0,
            nowhere: true,
        }
    }

    /// Where either may lead.
    fn or(self, more: Ends) -> Ends
        ensures inodes { result.inodes ≡ bit_or self.inodes more.inodes }
        ensures nowhere { result.nowhere ≡ (self.nowhere || more.nowhere) }
    {
        Ends {
            inodes: self.inodes | more.inodes,
            nowhere: self.nowhere || more.nowhere,
        }
    }

    /// The same, and nowhere as well if it is not sure that names lead at all.
    fn if_sure(self, is_sure: bool) -> Ends
        ensures inodes { result.inodes ≡ self.inodes }
        ensures nowhere { result.nowhere ≡ (self.nowhere || not is_sure) }
    {
        Ends {
            inodes: self.inodes,
            nowhere: self.nowhere || !is_sure,
        }
    }
}

impl<'a, A: Allocator + Copy> KnownDisk<'a, A> {
    /// Where a path may lead.
    pub(crate) fn ends_of_path(&self, path: &Path) -> Ends
        ensures within { (inode : ℕ) → Has result.inodes inode → inode < INODES }
        ensures ends { AreEnds self.now (λ d. end_of d (Some 0) (names_of path.now)) result.inodes result.nowhere }
    {
        let mut here = Ends {
            inodes: 1,
            nowhere: false,
        };
        for name in path.through.as_slice() {
            here = self.ends_from(here, name);
        }
        self.ends_from(here, &path.last)
    }

    /// Where a name may lead from some inodes.
    fn ends_from(&self, here: Ends, name: &Name) -> Ends
        requires { (inode : ℕ) → Has here.inodes inode → inode < INODES }
        ensures within { (inode : ℕ) → Has result.inodes inode → inode < INODES }
        ensures ends { (end : Disk → Option ℕ) → AreEnds self.now end here.inodes here.nowhere
            → AreEnds self.now (λ d. end_of d (end d) (name.now ∷ [])) result.inodes result.nowhere }
    {
        let mut ends = Ends {
            inodes: 0,
            nowhere: here.nowhere,
        };
        let mut left = here.inodes;
        while let Some(dir) = lowest(left) {
            let more = self.ends_in(dir as u8, name);
            ends = ends.or(more);
            left = without_lowest(left);
        }
        ends
    }

    /// Where a name of a directory may lead.
    fn ends_in(&self, dir: u8, name: &Name) -> Ends
        requires { dir < INODES }
        ensures within { (inode : ℕ) → Has result.inodes inode → inode < INODES }
        ensures ends { AreEnds self.now (λ d. child_of d dir name.now) result.inodes result.nowhere }
    {
        let blocks = self.pointers(dir, 0);
        let mut ends = Ends {
            inodes: 0,
            nowhere: false,
        };
        for block in 0..256u16 {
            if blocks.has(block as u8) {
                let more = self.ends_through(dir, block as u8, name);
                ends = ends.or(more);
            }
        }
        ends
    }

    /// Where a name of a directory may lead on the disks where the directory has a block.
    fn ends_through(&self, dir: u8, block: u8, name: &Name) -> Ends
        requires { dir < INODES }
        ensures within { (inode : ℕ) → Has result.inodes inode → inode < INODES }
        ensures ends { AreEndsAt self.now (λ d. pointer_of d dir 0) block (λ d. child_of d dir name.now) result.inodes
            result.nowhere }
    {
        if !self.is_data(block) {
            return Ends::none();
        }
        let counts = self.counts_at(dir, block);
        if never_holds(counts) {
            return Ends::none();
        }
        let spelled = name.spelled();
        let ends = self.ends_at(block, spelled.as_slice());
        ends.if_sure(always_holds(counts))
    }

    /// Where a name may lead by the entries of a block.
    fn ends_at(&self, block: u8, spelled: &[u8]) -> Ends
        requires block { block < self.now.family.base.blocks }
        requires spelled { length spelled.now ≡ SPELLING_SIZE }
        ensures within { (inode : ℕ) → Has result.inodes inode → inode < INODES }
        ensures ends { AreEnds self.now (first_child_in ENTRIES block spelled.now) result.inodes result.nowhere }
    {
        let mut inodes = 0;
        for k in 0..ENTRIES {
            let more = self.ends_named(block, k, spelled);
            inodes |= more.inodes;
            if !more.nowhere {
                return Ends {
                    inodes,
                    nowhere: false,
                };
            }
        }
        Ends {
            inodes,
            nowhere: true,
        }
    }

    /// Where a name may lead by an entry of a block.
    fn ends_named(&self, block: u8, k: u8, spelled: &[u8]) -> Ends
        requires block { block < self.now.family.base.blocks }
        requires k { k < ENTRIES }
        requires spelled { length spelled.now ≡ SPELLING_SIZE }
        ensures within { (inode : ℕ) → Has result.inodes inode → inode < INODES }
        ensures ends { AreEnds self.now (child_in block k spelled.now) result.inodes result.nowhere }
    {
        let is_spelled = self.is_spelled(block, k, spelled);
        if never_holds(is_spelled) {
            return Ends::none();
        }
        let ends = self.ends_of(block, k);
        ends.if_sure(always_holds(is_spelled))
    }

    /// Where an entry of a block may lead, whatever its name.
    fn ends_of(&self, block: u8, k: u8) -> Ends
        requires block { block < self.now.family.base.blocks }
        requires k { k < ENTRIES }
        ensures within { (inode : ℕ) → Has result.inodes inode → inode < INODES }
        ensures ends { AreEnds self.now (end_in block k) result.inodes result.nowhere }
    {
        let entries = self.entries(block, k);
        let mut ends = Ends {
            inodes: 0,
            nowhere: false,
        };
        for entry in 0..256u16 {
            if entries.has(entry as u8) {
                let more = self.ends_by(entry as u8);
                ends = ends.or(more);
            }
        }
        ends
    }

    /// Where an entry may lead that has this as byte 0.
    fn ends_by(&self, entry: u8) -> Ends
        ensures within { (inode : ℕ) → Has result.inodes inode → inode < INODES }
        ensures ends { AreEnds self.now (end_by entry) result.inodes result.nowhere }
    {
        if entry == 0 {
            return Ends::none();
        }
        if entry > INODES {
            return Ends::none();
        }
        let is_live = self.is_live(entry - 1);
        if never_holds(is_live) {
            return Ends::none();
        }
        let ends = Ends {
            inodes: with(0, usize::from(entry - 1)),
            nowhere: false,
        };
        ends.if_sure(always_holds(is_live))
    }

    /// The values that byte 0 of an entry may have.
    fn entries(&self, block: u8, k: u8) -> ByteSet
        requires block { block < self.now.family.base.blocks }
        requires k { k < ENTRIES }
        ensures { InEachDisk self.now (λ d. HasValue result.low result.high (byte d block (entry_offset k))) }
    {
        self.values(usize::from(block), usize::from(entry_offset(k)))
    }

    /// The values that a slot of an inode may have.
    pub(crate) fn pointers(&self, inode: u8, slot: u8) -> ByteSet
        requires inode { inode < INODES }
        requires slot { slot < SLOTS }
        ensures { InEachDisk self.now (λ d. HasValue result.low result.high (pointer_of d inode slot)) }
    {
        // For the proof: how many blocks every image has at least.
        let _blocks = self.base().blocks();
        let (block, from) = inode_place(inode);
        self.values(usize::from(block), usize::from(from + POINTERS_FROM + slot))
    }

    /// Whether an entry of a block has a name.
    pub(crate) fn is_spelled(&self, block: u8, k: u8, spelled: &[u8]) -> Result<bool, usize>
        requires block { block < self.now.family.base.blocks }
        requires k { k < ENTRIES }
        requires spelled { length spelled.now ≡ SPELLING_SIZE }
        ensures { IsKnown self.now (is_spelled_in block k spelled.now) result }
    {
        // For the proof: how many blocks every image has at least.
        let _blocks = self.base().blocks();
        let from = usize::from(entry_offset(k)) + 1;
        let mut answer = Ok(true);
        for at in 0..SPELLING_SIZE {
            let byte = spelled[at];
            answer = both(answer, self.byte_is(usize::from(block), from + at, byte));
        }
        answer
    }
}
