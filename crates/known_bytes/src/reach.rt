//! The inodes that entries lead to from the root, on all disks of a family at once.

ghost use Rattle.std.specs.Prelude.{◌≡◌, ◌==◌, ◌<◌, ◌⊎◌, ◌&&◌, ℕ, IfOk, IfErr, IfSome, IsTrue, MatchOption, Ok};
ghost use Rattle.std.specs.Prelude.{bit_and, false, true};
ghost use Rattle.known_bytes.specs.Directories.{IsFound};
ghost use Rattle.known_bytes.specs.Family.{IsUndecided};
ghost use Rattle.patch_sets.specs.Sets.{Has};
ghost use Rattle.crash_model.specs.Layout.{kind_of, pointer_of, counts};
ghost use Rattle.crash_model.specs.Strict.{is_lost, lacks_block, is_reached};
ghost use Rattle.crash_model.specs.declared.disk_bytes.TheConstants.{DIRECTORY_KIND};
ghost use Rattle.known_bytes.specs.Reached.{names_live, IsReach, ReachesNoOther, NamesNoOther};
ghost use Rattle.known_bytes.specs.Reading.{Reading, InEachDisk, IsKnown};

use crate::answers::{both, negation, never_holds};
use crate::directories::Directory;
use crate::disk::KnownDisk;
use crash_model::disk_bytes::{DIRECTORY_KIND, INODES};
use patch_sets::ends::{lowest, without};
use patch_sets::set::{has, with};
use std::alloc::Allocator;

/// Which inodes are reached, as far as the entries of directories have been read.
#[derive(Clone, Copy)]
pub(crate) struct ReachedInodes {
    /// The inodes that each disk reaches.
    pub(crate) sure: u128,
    /// The inodes that some disk may reach, these among them.
    pub(crate) may: u128,
    /// For each inode that some disk may reach but not surely each, an undecided patch on which it depends.
    pub(crate) asks: [u8; 16],
}

impl ReachedInodes {
    /// Only the root.
    fn root() -> ReachedInodes
        ensures sure { result.sure ≡ 1 }
        ensures may { result.may ≡ 1 }
    {
        ReachedInodes {
            sure: 1,
            may: 1,
            asks: [0; 16],
        }
    }

    /// The next inode whose entries are to be read: one that is surely reached before one that may be.
    ///
    /// So what is surely reached is known before the first patch is asked for.
    fn next(&self, unread: u128) -> Option<usize>
        requires { (id : ℕ) → Has self.now.sure id → Has self.now.may id }
        ensures { MatchOption result (bit_and self.now.may unread ≡ 0)
            (λ dir. Has self.now.may dir × Has unread dir × (dir < 128)) }
    {
        match lowest(self.sure & unread) {
            Some(dir) => Some(dir),
            None => lowest(self.may & unread),
        }
    }

    /// Whether nothing that a directory's entries say of an inode would change what is known of it.
    fn is_settled(&self, dir: usize, inode: usize) -> bool
        requires { (dir < INODES) × (inode < INODES) }
        ensures { IsTrue result → Has self.now.may inode }
    {
        has(self.may, inode) && (has(self.sure, inode) || !has(self.sure, dir))
    }

    /// Adds an inode to which an entry of a directory leads on each disk, on none, or as a patch decides.
    fn add(&mut self, dir: usize, inode: usize, named: Result<bool, usize>)
        requires dir { (dir < INODES) × Has self.old.may dir }
        requires inode { inode < INODES }
        requires patch { IfErr named (λ id. id < 128) }
        ensures reach { (r : Reading) → IsReach r self.old.sure self.old.may self.old.asks
            → IsKnown r (names_live dir inode) named → IsReach r self.new.sure self.new.may self.new.asks }
        ensures grown { (id : ℕ) → Has self.old.may id → Has self.new.may id }
        ensures added { (named ≡ Ok false) ⊎ Has self.new.may inode }
    {
        let is_sure = has(self.sure, dir);
        match named {
            Ok(false) => {}
            Ok(true) => {
                if is_sure {
                    self.add_sure(inode);
                } else {
                    self.add_open(inode, self.asks[dir]);
                }
            }
            Err(id) => {
                let ask = if is_sure { id as u8 } else { self.asks[dir] };
                self.add_open(inode, ask);
            }
        }
    }

    /// Adds an inode that each disk reaches.
    fn add_sure(&mut self, inode: usize)
        requires { inode < INODES }
        ensures reach { (r : Reading) → IsReach r self.old.sure self.old.may self.old.asks
            → InEachDisk r (λ d. is_reached d inode ≡ true)
            → IsReach r self.new.sure self.new.may self.new.asks }
        ensures grown { (id : ℕ) → Has self.old.may id → Has self.new.may id }
        ensures added { Has self.new.may inode }
    {
        self.sure = with(self.sure, inode);
        self.may = with(self.may, inode);
    }

    /// Adds an inode that some disk may reach, unless it is there. Whether a disk reaches it depends on a patch.
    fn add_open(&mut self, inode: usize, ask: u8)
        requires { inode < INODES }
        ensures reach { (r : Reading) → IsReach r self.old.sure self.old.may self.old.asks
            → IsUndecided r.family ask → IsReach r self.new.sure self.new.may self.new.asks }
        ensures grown { (id : ℕ) → Has self.old.may id → Has self.new.may id }
        ensures added { Has self.new.may inode }
    {
        if !has(self.may, inode) {
            self.asks[inode] = ask;
            self.may = with(self.may, inode);
        }
    }

    /// Whether an inode is reached.
    fn of(&self, inode: u8) -> Result<bool, usize>
        requires { inode < INODES }
        ensures { (r : Reading) → IsReach r self.now.sure self.now.may self.now.asks → ReachesNoOther r self.now.may
            → IsKnown r (λ d. is_reached d inode) result }
    {
        let at = usize::from(inode);
        if has(self.sure, at) {
            Ok(true)
        } else if has(self.may, at) {
            Err(usize::from(self.asks[at]))
        } else {
            Ok(false)
        }
    }
}

impl<'a, A: Allocator + Copy> KnownDisk<'a, A> {
    /// Whether an entry of a directory leads to an inode, and the inode is in use. The directory was looked for.
    fn names_live(
        &self,
        dir: u8,
        found: Result<Option<Directory>, usize>,
        inode: u8,
    ) -> Result<bool, usize>
        requires dir { dir < INODES }
        requires inode { inode < INODES }
        requires ok { IfOk found (λ it. MatchOption it (InEachDisk self.now (λ d. counts d dir ≡ false))
            (λ it. IsFound self.now dir it.block it.counts)) }
        requires within { IfOk found (λ it. IfSome it (λ it. it.block < self.now.family.base.blocks)) }
        requires err { IfErr found (IsUndecided self.now.family) }
        ensures { IsKnown self.now (names_live dir inode) result }
    {
        let is_live = self.is_live(inode);
        if never_holds(is_live) {
            return Ok(false);
        }
        let is_named = match found {
            Ok(directory) => self.leads_in(dir, directory, inode).reach(1),
            Err(id) => Err(id),
        };
        both(is_live, is_named)
    }

    /// Adds the inodes to which the entries of a directory lead.
    fn read(&self, reach: &mut ReachedInodes, dir: u8)
        requires dir { (dir < INODES) × Has reach.old.may dir }
        requires reach { IsReach self.now reach.old.sure reach.old.may reach.old.asks }
        ensures reach { IsReach self.now reach.new.sure reach.new.may reach.new.asks }
        ensures grown { (id : ℕ) → Has reach.old.may id → Has reach.new.may id }
        ensures all { NamesNoOther self.now dir reach.new.may }
    {
        // For the proof: how many patches every graph has at most.
        let _base = self.base();
        let found = self.directory(dir);
        for inode in 0..INODES {
            if !reach.is_settled(usize::from(dir), usize::from(inode)) {
                let named = self.names_live(dir, found, inode);
                reach.add(usize::from(dir), usize::from(inode), named);
            }
        }
    }

    /// What is reached from the root, which each disk has.
    fn reach(&self) -> ReachedInodes
        requires { InEachDisk self.now (λ d. kind_of d 0 ≡ DIRECTORY_KIND) }
        ensures reach { IsReach self.now result.sure result.may result.asks }
        ensures all { ReachesNoOther self.now result.may }
    {
        let mut reach = ReachedInodes::root();
        let mut unread = 0xFFFF;
        while let Some(dir) = reach.next(unread) {
            unread = without(unread, dir);
            self.read(&mut reach, dir as u8);
        }
        reach
    }

    /// Whether an inode is reached.
    fn is_reached(&self, inode: u8) -> Result<bool, usize>
        requires { inode < INODES }
        ensures { IsKnown self.now (λ d. is_reached d inode) result }
    {
        let is_root = self.kind_is(0, DIRECTORY_KIND)?;
        if !is_root {
            return Ok(false);
        }
        self.reach().of(inode)
    }

    /// Whether one of the kept inodes is not reached.
    pub fn is_lost(&self, kept: u16, inode: u8) -> Result<bool, usize>
        requires { inode < INODES }
        ensures { IsKnown self.now (λ d. is_lost d kept inode) result }
    {
        if !has(u128::from(kept), usize::from(inode)) {
            return Ok(false);
        }
        negation(self.is_reached(inode))
    }

    /// Whether an inode is a directory and has no block.
    fn is_bare(&self, inode: u8) -> Result<bool, usize>
        requires { inode < INODES }
        ensures { IsKnown self.now (λ d. kind_of d inode == DIRECTORY_KIND && pointer_of d inode 0 == 0) result }
    {
        both(
            self.kind_is(inode, DIRECTORY_KIND),
            self.pointer_is(inode, 0, 0),
        )
    }

    /// Whether an inode is a directory that is reached and has no block.
    pub fn lacks_block(&self, inode: u8) -> Result<bool, usize>
        requires { inode < INODES }
        ensures { IsKnown self.now (λ d. lacks_block d inode) result }
    {
        let is_bare = self.is_bare(inode)?;
        if !is_bare {
            return Ok(false);
        }
        self.is_reached(inode)
    }
}
