//! Bytes that the images of a family share.

ghost use Rattle.std.specs.Prelude.{◌≡◌, ℕ, ◌==◌, ◌||◌, ◌<◌, ◌≤◌, ◌↔◌, IsTrue, IfOk, IfErr, MatchOption, slice_index};
ghost use Rattle.std.specs.Prelude.{length, true};
ghost use Rattle.patch_sets.specs.Sets.{Has};
ghost use Rattle.crash_model.specs.Disk.{byte, IsDisk};
ghost use Rattle.crash_model.specs.Patches.{image_of};
ghost use Rattle.known_bytes.specs.Family.{InEach, IsUndecided, Covers, CoversAt, IsLike, HasValue, new_byte};
ghost use Rattle.known_bytes.specs.Family.{is_one_of};
ghost use Rattle.known_bytes.specs.Reading.{IsKnown, left};

use crate::byte_set::ByteSet;
use crate::chains::Chains;
use crash_model::disk_bytes::BLOCK_SIZE;
use crash_model::patches::Patch;
use disk_image::Image;
use patch_graph::Graph;
use patch_sets::ends::{difference, highest, lowest, without_lowest};
use std::alloc::Allocator;
use std::marker::Model;

/// The bytes of the images of all closed sets that hold some patches and bar others.
///
/// Contracts see the base, all patches, and the two sets.
#[derive(Drop)]
pub struct KnownBytes<'a, A: Allocator + Copy> {
    chains: &'a Chains<'a, A>,
    held: u128,
    barred: u128,
    /// The ids that are neither held nor barred.
    undecided: u128,
}

impl<'a, A: Allocator + Copy> Model for KnownBytes<'a, A> {
    ghost use Rattle.known_bytes.specs.Family.{Family};
    ghost use Rattle.known_bytes.specs.Chains.{IsSplit};

    ghost Value = { Family };

    ghost view = { λ k. record {
      base = k.chains.now.base;
      patches = k.chains.now.patches;
      held = k.held;
      barred = k.barred;
    } };

    ghost invariant = { λ k. IsSplit (record {
      base = k.chains.now.base;
      patches = k.chains.now.patches;
      held = k.held;
      barred = k.barred;
    }) k.undecided };
}

impl<'a, A: Allocator + Copy> KnownBytes<'a, A> {
    /// The bytes of the images of all closed sets with the patches of one set and with none of another.
    pub fn new(chains: &'a Chains<'a, A>, held: u128, barred: u128) -> KnownBytes<'a, A>
        ensures { result ≡ record {
          base = chains.now.base;
          patches = chains.now.patches;
          held = held;
          barred = barred;
        } }
    {
        let free = difference(ids(chains.graph()), held);
        let undecided = difference(free, barred);
        KnownBytes {
            chains,
            held,
            barred,
            undecided,
        }
    }

    /// The base. All images are disks of its numbers of blocks.
    pub fn base(&self) -> &Image<A>
        ensures base { result.now ≡ self.now.base }
        ensures disk { IsDisk self.now.base }
        ensures alike { InEach self.now (IsLike self.now.base) }
        ensures few { length self.now.patches < 128 }
    {
        // For the proof: how many patches every graph has at most.
        let _len = self.chains.graph().len();
        self.chains.base()
    }

    /// The patches that are held, as a set.
    pub fn held(&self) -> u128
        ensures { result ≡ self.now.held }
    {
        self.held
    }

    /// The patches that are neither held nor barred, as a set.
    pub fn undecided(&self) -> u128
        ensures { (id : ℕ) → (Has result id ↔ IsUndecided self.now id) }
    {
        self.undecided
    }

    /// The byte of the image of the patches held.
    fn held_byte(&self, block: usize, offset: usize) -> u8
        requires block { block < self.now.base.blocks }
        requires offset { offset < BLOCK_SIZE }
        ensures { result ≡ byte (image_of self.now.base self.now.patches self.now.held) block offset }
    {
        match highest(self.held & self.chains.at(block, offset)) {
            None => self.chains.base().byte(block, offset),
            Some(id) => new_byte(self.chains.graph().patch(id), offset),
        }
    }

    /// A byte, if all images have the same; otherwise an undecided patch that puts another there.
    pub fn byte(&self, block: usize, offset: usize) -> Result<u8, usize>
        requires block { block < self.now.base.blocks }
        requires offset { offset < BLOCK_SIZE }
        ensures { IsKnown (left self.now) (λ d. byte d block offset) result }
    {
        let value = self.held_byte(block, offset);
        match self.other(block, offset, [value, value], true) {
            None => Ok(value),
            Some(id) => Err(id),
        }
    }

    /// Whether a byte is one of two values, if that holds of all images or of none; otherwise an undecided patch on
    /// which it depends.
    ///
    /// The byte need not be known. It is that of the patches held, or one that an undecided patch puts there: the
    /// answer is known if all of these agree on it.
    pub fn byte_is_one_of(
        &self,
        block: usize,
        offset: usize,
        values: [u8; 2],
    ) -> Result<bool, usize>
        requires block { block < self.now.base.blocks }
        requires offset { offset < BLOCK_SIZE }
        ensures { IsKnown (left self.now)
            (λ d. is_one_of (slice_index values 0) (slice_index values 1) (byte d block offset)) result }
    {
        let held = self.held_byte(block, offset);
        let test = is_one_of(values, held);
        match self.other(block, offset, values, test) {
            None => Ok(test),
            Some(id) => Err(id),
        }
    }

    /// Whether a byte has a value, in the same way.
    pub fn byte_is(&self, block: usize, offset: usize, value: u8) -> Result<bool, usize>
        requires block { block < self.now.base.blocks }
        requires offset { offset < BLOCK_SIZE }
        ensures { IsKnown (left self.now) (λ d. byte d block offset == value) result }
    {
        self.byte_is_one_of(block, offset, [value, value])
    }

    /// The only value but 0 that a byte has in any image, or 0; else an undecided patch that puts another there.
    pub fn only(&self, block: usize, offset: usize) -> Result<u8, usize>
        requires block { block < self.now.base.blocks }
        requires offset { offset < BLOCK_SIZE }
        ensures ok { IfOk result (λ value. InEach self.now (λ d. is_one_of 0 value (byte d block offset) ≡ true)) }
        ensures err { IfErr result (IsUndecided self.now) }
    {
        let held = self.held_byte(block, offset);
        let value = if held == 0 {
            self.later(block, offset)
        } else {
            held
        };
        match self.other(block, offset, [0, value], true) {
            None => Ok(value),
            Some(id) => Err(id),
        }
    }

    /// A value but 0 that an undecided patch puts at a byte, or 0.
    fn later(&self, block: usize, offset: usize) -> u8
        requires block { block < self.now.base.blocks }
        requires offset { offset < BLOCK_SIZE }
    {
        let mut left = self.undecided & self.chains.at(block, offset);
        while let Some(id) = lowest(left) {
            let value = new_byte(self.chains.graph().patch(id), offset);
            if value != 0 {
                return value;
            }
            left = without_lowest(left);
        }
        0
    }

    /// The values that a byte has in any image, and no more than the patches put there.
    pub fn values(&self, block: usize, offset: usize) -> ByteSet
        requires block { block < self.now.base.blocks }
        requires offset { offset < BLOCK_SIZE }
        ensures { InEach self.now (λ d. HasValue result.low result.high (byte d block offset)) }
    {
        let mut values = ByteSet::default().with(self.held_byte(block, offset));
        let mut left = self.undecided & self.chains.at(block, offset);
        while let Some(id) = lowest(left) {
            values = values.with(new_byte(self.chains.graph().patch(id), offset));
            left = without_lowest(left);
        }
        values
    }

    /// The lowest undecided patch that covers a byte and does not put one of the values there; or, if the others are
    /// not to be alike, one that does.
    fn other(&self, block: usize, offset: usize, values: [u8; 2], alike: bool) -> Option<usize>
        requires block { block < self.now.base.blocks }
        requires offset { offset < BLOCK_SIZE }
        ensures { MatchOption result
            (is_one_of (slice_index values 0) (slice_index values 1)
            (byte (image_of self.now.base self.now.patches self.now.held) block offset) ≡ alike
            → InEach self.now (λ d.
            is_one_of (slice_index values 0) (slice_index values 1) (byte d block offset) ≡ alike))
            (IsUndecided self.now) }
    {
        let mut left = self.undecided & self.chains.at(block, offset);
        while let Some(id) = lowest(left) {
            let value = new_byte(self.chains.graph().patch(id), offset);
            if is_one_of(values, value) != alike {
                return Some(id);
            }
            left = without_lowest(left);
        }
        None
    }
}

/// The ids of a graph.
fn ids<A: Allocator + Copy>(graph: &Graph<A>) -> u128
    ensures { (id : ℕ) → Has result id ↔ (id < length graph.now) }
{
    (1 << graph.len()) - 1
}

/// Whether a byte is one of two values.
fn is_one_of(values: [u8; 2], value: u8) -> bool
    ensures { result ≡ is_one_of (slice_index values 0) (slice_index values 1) value }
{
    value == values[0] || value == values[1]
}

/// A patch's new byte for a byte of its block.
fn new_byte(patch: &Patch, offset: usize) -> u8
    requires { Covers patch.now patch.now.block offset }
    ensures { result ≡ new_byte patch.now offset }
{
    patch.new[offset - usize::from(patch.offset)]
}
