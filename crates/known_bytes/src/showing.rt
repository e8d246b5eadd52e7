//! What a path may show on some disks of a family.

ghost use Rattle.std.specs.Prelude.{◌≡◌, ◌<◌, ◌∷◌, [], ℕ, IsTrue, Some, Option, true, if◌then◌else◌};
ghost use Rattle.patch_sets.specs.Sets.{Has};
ghost use Rattle.std.specs.List.{Contains};
ghost use Rattle.crash_model.specs.declared.showing.Shown.{Shown as WhatIsShown};
ghost use Rattle.crash_model.specs.declared.showing.ShownSlot.{ShownSlot as WhatASlotShows};
ghost use Rattle.crash_model.specs.declared.showing.Shown.TheVariants.{File, Nothing, Directory};
ghost use Rattle.crash_model.specs.Disk.{Disk};
ghost use Rattle.crash_model.specs.Layout.{pointer_of, counts};
ghost use Rattle.crash_model.specs.Paths.{path_shows, inode_shown, file_shown};
ghost use Rattle.known_bytes.specs.NamedIn.{AreEnds};
ghost use Rattle.known_bytes.specs.Reading.{InEachDisk};

use crate::answers::{always_holds, never_holds};
use crate::disk::KnownDisk;
use crate::ends::Ends;
use crash_model::disk_bytes::{DIRECTORY_KIND, INODES};
use crash_model::names::Path;
use crash_model::showing::{Shown, ShownSlot};
use patch_sets::ends::{lowest, without_lowest};
use std::alloc::Allocator;

/// What may be shown.
pub trait Showing {
    /// What is allowed to be shown.
    ghost excuses: { Self → WhatIsShown → Type 0 };

    /// Whether this is known to be allowed.
    fn allows(&self, shown: &Shown) -> bool
        ensures { IsTrue result → excuses self.now shown.now };
}

impl<'a, A: Allocator + Copy> KnownDisk<'a, A> {
    /// Whether what a path shows is allowed, on whichever of the disks. If it is not, it may be so nevertheless.
    pub fn shows_allowed<S: Showing>(&self, path: &Path, showing: &S) -> bool
        ensures { IsTrue result → InEachDisk self.now (λ d. S.excuses showing.now (path_shows d path.now)) }
    {
        let ends = self.ends_of_path(path);
        if !nothing_allowed(ends, showing) {
            return false;
        }
        self.inodes_allowed(ends.inodes, showing)
    }

    /// Whether what is shown at each of some inodes is allowed.
    fn inodes_allowed<S: Showing>(&self, inodes: u128, showing: &S) -> bool
        requires { (inode : ℕ) → Has inodes inode → inode < INODES }
        ensures { IsTrue result → (inode : ℕ) → Has inodes inode
            → InEachDisk self.now (λ d. S.excuses showing.now (inode_shown d (Some inode))) }
    {
        let mut left = inodes;
        while let Some(inode) = lowest(left) {
            if !self.inode_allowed(inode as u8, showing) {
                return false;
            }
            left = without_lowest(left);
        }
        true
    }

    /// Whether what is shown at an inode is allowed.
    fn inode_allowed<S: Showing>(&self, inode: u8, showing: &S) -> bool
        requires { inode < INODES }
        ensures { IsTrue result → InEachDisk self.now (λ d. S.excuses showing.now (inode_shown d (Some inode))) }
    {
        let is_directory = self.kind_is(inode, DIRECTORY_KIND);
        if never_holds(is_directory) {
            return self.file_allowed(inode, showing);
        }
        if !self.directory_allowed(inode, showing) {
            return false;
        }
        if always_holds(is_directory) {
            return true;
        }
        self.file_allowed(inode, showing)
    }

    /// Whether what is shown at a directory is allowed.
    fn directory_allowed<S: Showing>(&self, dir: u8, showing: &S) -> bool
        requires { dir < INODES }
        ensures { IsTrue result
            → InEachDisk self.now (λ d. S.excuses showing.now (if counts d dir then Directory else Nothing)) }
    {
        let blocks = self.pointers(dir, 0);
        for block in 0..256u16 {
            if blocks.has(block as u8) {
                if !self.directory_at_allowed(dir, block as u8, showing) {
                    return false;
                }
            }
        }
        true
    }

    /// Whether what is shown at a directory is allowed on the disks where the directory has a block.
    fn directory_at_allowed<S: Showing>(&self, dir: u8, block: u8, showing: &S) -> bool
        requires { dir < INODES }
        ensures { IsTrue result → InEachDisk self.now (λ d. pointer_of d dir 0 ≡ block
            → S.excuses showing.now (if counts d dir then Directory else Nothing)) }
    {
        if !self.is_data(block) {
            return showing.allows(&Shown::Nothing);
        }
        let counts = self.counts_at(dir, block);
        if never_holds(counts) {
            return showing.allows(&Shown::Nothing);
        }
        if !showing.allows(&Shown::Directory) {
            return false;
        }
        if always_holds(counts) {
            return true;
        }
        showing.allows(&Shown::Nothing)
    }

    /// Whether what is shown at a file is allowed.
    fn file_allowed<S: Showing>(&self, inode: u8, showing: &S) -> bool
        requires { inode < INODES }
        ensures { IsTrue result → InEachDisk self.now (λ d. S.excuses showing.now (file_shown d inode)) }
    {
        let Some(first) = self.slot_list(inode, 0) else {
            return false;
        };
        let Some(second) = self.slot_list(inode, 1) else {
            return false;
        };
        let Some(third) = self.slot_list(inode, 2) else {
            return false;
        };
        let Some(fourth) = self.slot_list(inode, 3) else {
            return false;
        };
        are_allowed(
            first.as_slice(),
            second.as_slice(),
            third.as_slice(),
            fourth.as_slice(),
            showing,
        )
    }
}

/// Whether it is allowed that nothing is shown, if names may lead nowhere.
fn nothing_allowed<S: Showing>(ends: Ends, showing: &S) -> bool
    ensures { IsTrue result → ends.nowhere ≡ true → S.excuses showing.now Nothing }
{
    if !ends.nowhere {
        return true;
    }
    showing.allows(&Shown::Nothing)
}

/// Whether each file is allowed of which each slot shows one of these.
fn are_allowed<S: Showing>(
    first: &[ShownSlot],
    second: &[ShownSlot],
    third: &[ShownSlot],
    fourth: &[ShownSlot],
    showing: &S,
) -> bool
    ensures { IsTrue result → (a b c e : WhatASlotShows) → Contains first.now a → Contains second.now b
        → Contains third.now c → Contains fourth.now e → S.excuses showing.now (File (a ∷ b ∷ c ∷ e ∷ [])) }
{
    for one in first {
        if !are_allowed_after_one(*one, second, third, fourth, showing) {
            return false;
        }
    }
    true
}

/// The same of the files whose first slot shows this.
fn are_allowed_after_one<S: Showing>(
    one: ShownSlot,
    second: &[ShownSlot],
    third: &[ShownSlot],
    fourth: &[ShownSlot],
    showing: &S,
) -> bool
    ensures { IsTrue result → (b c e : WhatASlotShows) → Contains second.now b → Contains third.now c
        → Contains fourth.now e → S.excuses showing.now (File (one ∷ b ∷ c ∷ e ∷ [])) }
{
    for two in second {
        if !are_allowed_after_two(one, *two, third, fourth, showing) {
            return false;
        }
    }
    true
}

/// The same of the files whose first two slots show these.
fn are_allowed_after_two<S: Showing>(
    one: ShownSlot,
    two: ShownSlot,
    third: &[ShownSlot],
    fourth: &[ShownSlot],
    showing: &S,
) -> bool
    ensures { IsTrue result → (c e : WhatASlotShows) → Contains third.now c → Contains fourth.now e
        → S.excuses showing.now (File (one ∷ two ∷ c ∷ e ∷ [])) }
{
    for three in third {
        if !are_allowed_after_three(one, two, *three, fourth, showing) {
            return false;
        }
    }
    true
}

/// The same of the files whose first three slots show these.
fn are_allowed_after_three<S: Showing>(
    one: ShownSlot,
    two: ShownSlot,
    three: ShownSlot,
    fourth: &[ShownSlot],
    showing: &S,
) -> bool
    ensures { IsTrue result → (e : WhatASlotShows) → Contains fourth.now e
        → S.excuses showing.now (File (one ∷ two ∷ three ∷ e ∷ [])) }
{
    for four in fourth {
        if !showing.allows(&Shown::File([one, two, three, *four])) {
            return false;
        }
    }
    true
}
