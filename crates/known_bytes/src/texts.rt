//! Each fault by its text, tested on all disks of a family at once.

ghost use Rattle.std.specs.Prelude.{◌≡◌, Bool};
ghost use Rattle.known_bytes.specs.Texts.{has_fault, dangling_there, twice_there, unwritten_there, low_there};
ghost use Rattle.known_bytes.specs.Texts.{marked_free_there, wild_there, lost_there, bare_there};
ghost use Rattle.known_bytes.specs.Reading.{IsKnown};

use crate::disk::KnownDisk;
use crash_model::disk_bytes::{ENTRIES, INODES, SLOTS};
use crash_model::fault::Fault;
use disk_image::Demands;
use std::alloc::Allocator;

impl<'a, A: Allocator + Copy> KnownDisk<'a, A> {
    /// Whether the disks have a fault, if all or none of them have it; else an undecided patch on which it depends.
    ///
    /// The faults are those of the checker with what is demanded of a disk.
    pub fn has(&self, fault: Fault, demands: &Demands<A>) -> Result<bool, usize>
        ensures { IsKnown self.now (λ d. has_fault demands.now d fault) result }
    {
        match fault {
            Fault::Dangling { dir, entry, inode } => self.has_dangling(dir, entry, inode),
            Fault::Twice { block } => self.has_twice(block),
            Fault::Unwritten { inode, slot, block } => self.has_unwritten(inode, slot, block),
            Fault::LowLinks {
                inode,
                entries,
                links,
            } => self.has_low(inode, entries, links),
            Fault::MarkedFree { inode, slot, block } => self.has_marked_free(inode, slot, block),
            Fault::Wild { inode, slot, block } => self.has_wild(inode, slot, block),
            Fault::Lost { inode } => self.has_lost(inode, demands.kept()),
            Fault::NoBlock { inode } => self.has_no_block(inode, demands.kept()),
            Fault::HalfDone => self.is_half_done(demands),
            // A promise is of a set, and not of a disk alone.
            Fault::BrokenPromise { .. } => Ok(false),
        }
    }

    fn has_dangling(&self, dir: u8, entry: u8, inode: u8) -> Result<bool, usize>
        ensures { IsKnown self.now (λ d. dangling_there d dir entry inode) result }
    {
        if dir < INODES && entry < ENTRIES && inode < 255 {
            self.dangles(dir, entry, inode)
        } else {
            Ok(false)
        }
    }

    fn has_twice(&self, block: u8) -> Result<bool, usize>
        ensures { IsKnown self.now (λ d. twice_there d block) result }
    {
        self.is_twice(block)
    }

    fn has_unwritten(&self, inode: u8, slot: u8, block: u8) -> Result<bool, usize>
        ensures { IsKnown self.now (λ d. unwritten_there d inode slot block) result }
    {
        if inode < INODES && slot < SLOTS {
            self.is_unwritten(inode, slot, block)
        } else {
            Ok(false)
        }
    }

    fn has_low(&self, inode: u8, entries: u8, links: u8) -> Result<bool, usize>
        ensures { IsKnown self.now (λ d. low_there d inode entries links) result }
    {
        if inode < INODES {
            self.has_low_links(inode, entries, links)
        } else {
            Ok(false)
        }
    }

    fn has_marked_free(&self, inode: u8, slot: u8, block: u8) -> Result<bool, usize>
        ensures { IsKnown self.now (λ d. marked_free_there d inode slot block) result }
    {
        if inode < INODES && slot < SLOTS {
            self.is_marked_free(inode, slot, block)
        } else {
            Ok(false)
        }
    }

    fn has_wild(&self, inode: u8, slot: u8, block: u8) -> Result<bool, usize>
        ensures { IsKnown self.now (λ d. wild_there d inode slot block) result }
    {
        if inode < INODES && slot < SLOTS {
            self.is_wild(inode, slot, block)
        } else {
            Ok(false)
        }
    }

    fn has_lost(&self, inode: u8, kept: Option<u16>) -> Result<bool, usize>
        ensures { IsKnown self.now (λ d. lost_there kept d inode) result }
    {
        match kept {
            None => Ok(false),
            Some(kept) => {
                if inode < INODES {
                    self.is_lost(kept, inode)
                } else {
                    Ok(false)
                }
            }
        }
    }

    fn has_no_block(&self, inode: u8, kept: Option<u16>) -> Result<bool, usize>
        ensures { IsKnown self.now (λ d. bare_there kept d inode) result }
    {
        match kept {
            None => Ok(false),
            Some(_) => {
                if inode < INODES {
                    self.lacks_block(inode)
                } else {
                    Ok(false)
                }
            }
        }
    }
}
