//! What a byte can be at all, before and after replay.

ghost use Rattle.std.specs.Prelude.{◌≢◌, ◌+◌, ◌<◌, ◌≤◌, ℕ, IsTrue};
ghost use Rattle.crash_model.specs.Disk.{byte};
ghost use Rattle.crash_model.specs.Replay.{image_after_replay};
ghost use Rattle.known_bytes.specs.Family.{InEach, HasValue};
ghost use Rattle.known_bytes.specs.Headers.{IsCopyOf};

use crate::byte_set::ByteSet;
use crate::bytes::KnownBytes;
use crash_model::disk_bytes::{BLOCK_SIZE, JOURNAL_AT};
use std::alloc::Allocator;

impl<'a, A: Allocator + Copy> KnownBytes<'a, A> {
    /// The values that a byte of a block has on any of the disks, as they are left or after replay.
    ///
    /// After replay it is the byte of the block itself, or of a journal block that may have a copy of it. So the set
    /// may have values too that no disk has there.
    pub fn possible(&self, block: usize, offset: usize) -> ByteSet
        requires block { block < self.now.base.blocks }
        requires offset { offset < BLOCK_SIZE }
        ensures left { InEach self.now (λ d. HasValue result.low result.high (byte d block offset)) }
        ensures replayed { InEach self.now
            (λ d. HasValue result.low result.high (byte (image_after_replay d) block offset)) }
    {
        let end = JOURNAL_AT + self.base().journal();
        let mut values = self.values(block, offset);
        for at in JOURNAL_AT..end {
            values = self.with_copy(values, at, block, offset);
        }
        values
    }

    /// The values, with those of a byte of a journal block if that may have a copy of the block.
    fn with_copy(&self, values: ByteSet, at: usize, block: usize, offset: usize) -> ByteSet
        requires at { (JOURNAL_AT ≤ at) × (at < self.now.base.blocks) }
        requires block { block < self.now.base.blocks }
        requires offset { offset < BLOCK_SIZE }
        ensures grown { (value : ℕ) → HasValue values.low values.high value → HasValue result.low result.high value }
        ensures copied { InEach self.now
            (λ d. IsCopyOf d block at → HasValue result.low result.high (byte d at offset)) }
    {
        let more = self.values(at, offset);
        if more.is_within(values) {
            return values;
        }
        if !self.may_copy(at, block) {
            return values;
        }
        values.union(more)
    }

    /// Whether a journal block may have a copy of a block: one of the eight blocks before it may name that block as a
    /// header would.
    fn may_copy(&self, at: usize, block: usize) -> bool
        requires at { (JOURNAL_AT ≤ at) × (at < self.now.base.blocks) }
        requires block { block < self.now.base.blocks }
        ensures { (¬ (IsTrue result)) → InEach self.now (λ d. ¬ (IsCopyOf d block at)) }
    {
        // For the proof: how many blocks every image has at most.
        let _base = self.base();
        for place in 0..8 {
            if at >= 5 + place && self.may_name(at - 1 - place, place, block) {
                return true;
            }
        }
        false
    }

    /// Whether a journal block may name a block at a place of a header.
    fn may_name(&self, at: usize, place: usize, block: usize) -> bool
        requires at { at < self.now.base.blocks }
        requires place { place < 8 }
        requires block { block < 128 }
        ensures { (¬ (IsTrue result)) → InEach self.now (λ d. byte d at (3 + place) ≢ block) }
    {
        self.values(at, 3 + place).has(block as u8)
    }
}
