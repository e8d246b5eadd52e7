//! How many entries lead to an inode and how many slots name a block, on all disks of a family at once.

ghost use Rattle.std.specs.Prelude.{◌≡◌, ◌<◌, ◌≤◌, ◌&&◌, ◌==◌, length, IfOk, IfErr, IfSome, MatchOption, false};
ghost use Rattle.crash_model.specs.Layout.{is_live, links_of, counts};
ghost use Rattle.crash_model.specs.Faults.{entries_to, has_low_links, namers, is_twice, leads_to};
ghost use Rattle.known_bytes.specs.Counts.{entries_in, slots_in, AreBounds};
ghost use Rattle.known_bytes.specs.Directories.{IsFound};
ghost use Rattle.known_bytes.specs.Family.{IsUndecided};
ghost use Rattle.known_bytes.specs.Reading.{IsKnown, InEachDisk};

use crate::answers::both;
use crate::bounds::Bounds;
use crate::directories::Directory;
use crate::disk::KnownDisk;
use crash_model::disk_bytes::{ENTRIES, INODES, SLOTS};
use disk_image::entry_offset;
use std::alloc::Allocator;

impl<'a, A: Allocator + Copy> KnownDisk<'a, A> {
    /// How many slots of an inode name a block.
    fn named_in(&self, inode: u8, block: u8) -> Bounds
        requires { inode < INODES }
        ensures count { AreBounds self.now (λ d. slots_in SLOTS d block inode) result.least result.most result.ask }
        ensures few { (result.least ≤ result.most) × (result.most ≤ SLOTS) }
    {
        let mut count = Bounds::none();
        for slot in 0..SLOTS {
            count = count.with(self.names(inode, slot, block));
        }
        count
    }

    /// How many slots name a block.
    fn namers(&self, block: u8) -> Bounds
        ensures { AreBounds self.now (λ d. length (namers d block)) result.least result.most result.ask }
    {
        let mut count = Bounds::none();
        for inode in 0..INODES {
            count = count.plus(self.named_in(inode, block));
        }
        count
    }

    /// Whether two slots name a block.
    pub fn is_twice(&self, block: u8) -> Result<bool, usize>
        ensures { IsKnown self.now (λ d. is_twice d block) result }
    {
        self.namers(block).reach(2)
    }

    /// How many entries of a directory that may count lead to an inode.
    fn leads_from(&self, dir: u8, directory: Directory, inode: u8) -> Bounds
        requires dir { dir < INODES }
        requires inode { inode < INODES }
        requires block { directory.block < self.now.family.base.blocks }
        requires found { IsFound self.now dir directory.block directory.counts }
        ensures count { AreBounds self.now (λ d. entries_in ENTRIES d inode dir) result.least result.most result.ask }
        ensures few { (result.least ≤ result.most) × (result.most ≤ ENTRIES) }
    {
        let block = usize::from(directory.block);
        let mut count = Bounds::none();
        for k in 0..ENTRIES {
            let names = self.byte_is(block, usize::from(entry_offset(k)), inode + 1);
            count = count.with(both(directory.counts, names));
        }
        count
    }

    /// How many entries of a directory lead to an inode, once the directory was looked for.
    pub(crate) fn leads_in(&self, dir: u8, found: Option<Directory>, inode: u8) -> Bounds
        requires dir { dir < INODES }
        requires inode { inode < INODES }
        requires found { MatchOption found (InEachDisk self.now (λ d. counts d dir ≡ false))
            (λ it. IsFound self.now dir it.block it.counts) }
        requires within { IfSome found (λ it. it.block < self.now.family.base.blocks) }
        ensures count { AreBounds self.now (λ d. entries_in ENTRIES d inode dir) result.least result.most result.ask }
        ensures few { (result.least ≤ result.most) × (result.most ≤ ENTRIES) }
    {
        match found {
            None => Bounds::none(),
            Some(directory) => self.leads_from(dir, directory, inode),
        }
    }

    /// How many entries lead to an inode.
    fn entries_to(&self, inode: u8) -> Result<Bounds, usize>
        requires { inode < INODES }
        ensures ok { IfOk result (λ count. AreBounds self.now (λ d. length (entries_to d inode)) count.least count.most
            count.ask) }
        ensures err { IfErr result (IsUndecided self.now.family) }
    {
        let mut count = Bounds::none();
        for dir in 0..INODES {
            let found = self.directory(dir)?;
            count = count.plus(self.leads_in(dir, found, inode));
        }
        Ok(count)
    }

    /// Whether exactly `entries` entries lead to an inode.
    fn entries_are(&self, inode: u8, entries: u8) -> Result<bool, usize>
        requires { inode < INODES }
        ensures { IsKnown self.now (λ d. length (entries_to d inode) == entries) result }
    {
        let count = self.entries_to(inode)?;
        count.are(entries)
    }

    /// Whether an inode in use has a link count of `links`, exactly `entries` entries lead to it, and these are more.
    pub fn has_low_links(&self, inode: u8, entries: u8, links: u8) -> Result<bool, usize>
        requires { inode < INODES }
        ensures { IsKnown self.now (λ d. has_low_links d inode && (length (entries_to d inode) == entries
            && links_of d inode == links)) result }
    {
        if entries <= links {
            return Ok(false);
        }
        let is_used = both(self.is_live(inode), self.links_are(inode, links));
        both(is_used, self.entries_are(inode, entries))
    }
}
