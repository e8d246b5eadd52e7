//! Headers of the journal that may or may not be there.

ghost use Rattle.std.specs.Prelude.{◌≡◌, ◌+◌, ◌<◌, ◌≤◌, length, IfOk, IfErr, IfSome, MatchOption, true};
ghost use Rattle.std.specs.List.{list_all};
ghost use Rattle.crash_model.specs.Disk.{block_of};
ghost use Rattle.crash_model.specs.Replay.{is_header, is_ascending, is_target};
ghost use Rattle.known_bytes.specs.Family.{IsUndecided};
ghost use Rattle.known_bytes.specs.Reading.{IsKnown, left};
ghost use Rattle.known_bytes.specs.Headers.{HasNoHeader, HasTargets, may_have, has_first};

use crate::answers::both;
use crate::bytes::KnownBytes;
use arrayvec::ArrayVec;
use crash_model::disk_bytes::{COMMITTED_MARK, DONE_MARK};
use disk_image::Image;
use std::alloc::Allocator;

impl<'a, A: Allocator + Copy> KnownBytes<'a, A> {
    /// The targets of the header in a journal block, if an image has one there and all that do have the same; otherwise
    /// an undecided patch that puts others there.
    pub(crate) fn targets(&self, at: usize) -> Result<Option<ArrayVec<u8, 8>>, usize>
        requires { at < self.now.base.blocks }
        ensures ok { IfOk result (λ found. MatchOption found (HasNoHeader self.now at)
            (λ targets. HasTargets self.now at targets.items)) }
        ensures some { IfOk result (λ found. IfSome found (λ targets. 1 ≤ length targets.items)) }
        ensures err { IfErr result (IsUndecided self.now) }
    {
        // For the proof: that all images are disks.
        let _base = self.base();
        let count = self.only(at, 2)?;
        if count == 0 || count > 8 {
            return Ok(None);
        }
        let mut targets = ArrayVec::new();
        for k in 0..usize::from(count) {
            let target = self.only(at, 3 + k)?;
            targets.push(target);
        }
        Ok(Some(targets))
    }

    /// Whether there is a header of the transaction with this number in a journal block, if a header there has these
    /// targets.
    pub(crate) fn has_header(
        &self,
        at: usize,
        transaction: u8,
        targets: &[u8],
    ) -> Result<bool, usize>
        requires block { at < self.now.base.blocks }
        requires few { (1 ≤ length targets.now) × (length targets.now ≤ 8) }
        requires may { may_have self.now.base at targets.now ≡ true }
        requires targets { HasTargets self.now at targets.now }
        ensures { IsKnown (left self.now) (λ d. is_header d at transaction (block_of d at)) result }
    {
        // For the proof: that all images are disks.
        let _base = self.base();
        let is_marked = self.byte_is_one_of(at, 0, [COMMITTED_MARK, DONE_MARK])?;
        if !is_marked {
            return Ok(false);
        }
        let number = self.byte_is(at, 1, transaction);
        both(number, self.has_targets(at, targets))
    }

    /// Whether a journal block has the number of the targets and the targets after it.
    fn has_targets(&self, at: usize, targets: &[u8]) -> Result<bool, usize>
        requires block { at < self.now.base.blocks }
        requires few { length targets.now ≤ 8 }
        ensures { IsKnown (left self.now) (λ d. has_first (length targets.now) d at targets.now) result }
    {
        let mut all = self.byte_is(at, 2, targets.len() as u8);
        for k in 0..targets.len() {
            all = both(all, self.byte_is(at, 3 + k, targets[k]));
        }
        all
    }
}

/// Whether a header in a journal block may have these targets: there is room after it, they ascend, and a transaction
/// may change each of them.
pub(crate) fn may_have<A: Allocator + Copy>(base: &Image<A>, at: usize, targets: &[u8]) -> bool
    requires few { length targets.now ≤ 8 }
    requires block { at < base.now.blocks }
    ensures { result ≡ may_have base.now at targets.now }
{
    // For the proof: how many blocks every image has at most.
    let _blocks = base.blocks();
    at + targets.len() <= 3 + base.journal() && is_ascending(targets) && are_targets(base, targets)
}

/// Whether a transaction may change all of the blocks.
fn are_targets<A: Allocator + Copy>(base: &Image<A>, blocks: &[u8]) -> bool
    ensures { result ≡ list_all (is_target base.now) blocks.now }
{
    blocks.iter().all(|block| is_target(base, *block))
}

/// Whether each number is greater than the one before it.
fn is_ascending(numbers: &[u8]) -> bool
    ensures { result ≡ is_ascending numbers.now }
{
    for i in 1..numbers.len() {
        if numbers[i - 1] >= numbers[i] {
            return false;
        }
    }
    true
}

/// Whether a transaction may change the block: one with the map or inodes, or one of the data area.
fn is_target<A: Allocator + Copy>(image: &Image<A>, block: u8) -> bool
    ensures { result ≡ is_target image.now block }
{
    1 <= block && block <= 3 || image.is_data(block)
}
