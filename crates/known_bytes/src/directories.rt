//! Directories, read once for all their entries.

ghost use Rattle.std.specs.Prelude.{◌≡◌, ◌<◌, IfOk, IfErr, IfSome, MatchOption, false};
ghost use Rattle.crash_model.specs.Layout.{counts};
ghost use Rattle.known_bytes.specs.Directories.{IsFound};
ghost use Rattle.known_bytes.specs.Family.{IsUndecided};
ghost use Rattle.known_bytes.specs.Reading.{InEachDisk};

use crate::answers::never_holds;
use crate::disk::KnownDisk;
use crash_model::disk_bytes::INODES;
use std::alloc::Allocator;

/// A directory that may count: the block that it has if it does, and whether it does.
#[derive(Clone, Copy)]
pub(crate) struct Directory {
    pub(crate) block: u8,
    pub(crate) counts: Result<bool, usize>,
}

impl<'a, A: Allocator + Copy> KnownDisk<'a, A> {
    /// A directory, if it may count; else an undecided patch that gives it another block.
    pub(crate) fn directory(&self, dir: u8) -> Result<Option<Directory>, usize>
        requires { dir < INODES }
        ensures ok { IfOk result (λ found. MatchOption found (InEachDisk self.now (λ d. counts d dir ≡ false))
            (λ it. IsFound self.now dir it.block it.counts)) }
        ensures within { IfOk result (λ found. IfSome found (λ it. it.block < self.now.family.base.blocks)) }
        ensures err { IfErr result (IsUndecided self.now.family) }
    {
        let Some(block) = self.directory_block(dir)? else {
            return Ok(None);
        };
        let counts = self.counts_at(dir, block);
        if never_holds(counts) {
            return Ok(None);
        }
        Ok(Some(Directory { block, counts }))
    }
}
