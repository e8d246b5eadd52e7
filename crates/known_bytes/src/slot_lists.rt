//! Lists of what the slots of a file may show on some disks of a family.

ghost use Rattle.std.specs.Prelude.{◌≡◌, ◌+◌, ◌*◌, ◌<◌, ℕ, List, IsTrue, IfSome, slice_range, slice_set, take};
ghost use Rattle.std.specs.List.{Contains};
ghost use Rattle.crash_model.specs.declared.disk_bytes.TheConstants.{BLOCK_SIZE};
ghost use Rattle.crash_model.specs.declared.showing.ShownSlot.{ShownSlot as WhatASlotShows};
ghost use Rattle.crash_model.specs.declared.showing.ShownSlot.TheVariants.{Begins};
ghost use Rattle.crash_model.specs.Paths.{slot_shown};
ghost use Rattle.known_bytes.specs.Family.{HasValue};
ghost use Rattle.known_bytes.specs.Reading.{InEachDisk};
ghost use Rattle.known_bytes.specs.Slots.{block_shown};

use crate::byte_set::ByteSet;
use crate::disk::KnownDisk;
use arrayvec::ArrayVec;
use crash_model::disk_bytes::{INODES, SHOWN_BYTES, SLOTS};
use crash_model::showing::ShownSlot;
use std::alloc::Allocator;

/// The most that a slot, or a byte, may show to be looked at one by one.
const MOST_SHOWN: usize = 32;

/// What a slot may show.
pub(crate) type ShownSlots = ArrayVec<ShownSlot, MOST_SHOWN>;

/// How a block may begin.
type Words = ArrayVec<[u8; SHOWN_BYTES], MOST_SHOWN>;

impl<'a, A: Allocator + Copy> KnownDisk<'a, A> {
    /// What a slot of an inode may show, if that is not too much.
    pub(crate) fn slot_list(&self, inode: u8, slot: u8) -> Option<ShownSlots>
        requires inode { inode < INODES }
        requires slot { slot < SLOTS }
        ensures { IfSome result (λ shows. InEachDisk self.now (λ d. Contains shows.items (slot_shown d inode slot))) }
    {
        let blocks = self.pointers(inode, slot);
        let mut shows = ShownSlots::new();
        for block in 0..256u16 {
            if blocks.has(block as u8) {
                if !self.list_block(block as u8, &mut shows) {
                    return None;
                }
            }
        }
        Some(shows)
    }

    /// Lists what a slot may show that names a block, if that is not too much.
    fn list_block(&self, block: u8, shows: &mut ShownSlots) -> bool
        ensures kept { (shown : WhatASlotShows) → Contains shows.old.items shown → Contains shows.new.items shown }
        ensures listed { IsTrue result → InEachDisk self.now (λ d. Contains shows.new.items (block_shown d block)) }
    {
        if block == 0 {
            return push_slot(shows, ShownSlot::Hole);
        }
        if !self.is_data(block) {
            return push_slot(shows, ShownSlot::Wild);
        }
        self.list_begins(block, shows)
    }

    /// Lists how a block may begin, if that is not too much.
    fn list_begins(&self, block: u8, shows: &mut ShownSlots) -> bool
        requires { block < self.now.family.base.blocks }
        ensures kept { (shown : WhatASlotShows) → Contains shows.old.items shown → Contains shows.new.items shown }
        ensures begins { IsTrue result → InEachDisk self.now (λ d. Contains shows.new.items
            (Begins (slice_range d.bytes (BLOCK_SIZE * block) (BLOCK_SIZE * block + SHOWN_BYTES)))) }
    {
        match self.begin_words(block) {
            Some(words) => push_begins(shows, words.as_slice()),
            None => false,
        }
    }

    /// How a block may begin, if that is not too much.
    fn begin_words(&self, block: u8) -> Option<Words>
        requires { block < self.now.family.base.blocks }
        ensures { IfSome result (λ words. InEachDisk self.now (λ d. Contains words.items
            (slice_range d.bytes (BLOCK_SIZE * block) (BLOCK_SIZE * block + SHOWN_BYTES)))) }
    {
        // For the proof: what every disk keeps.
        let _blocks = self.base().blocks();
        let mut words = Words::new();
        words.push([0; SHOWN_BYTES]);
        for at in 0..SHOWN_BYTES {
            let values = self.values(usize::from(block), at);
            words = with_values(words.as_slice(), at, values)?;
        }
        Some(words)
    }
}

/// The words with each of these values at a place, if that is not too much.
fn with_values(words: &[[u8; SHOWN_BYTES]], at: usize, values: ByteSet) -> Option<Words>
    requires { at < SHOWN_BYTES }
    ensures { IfSome result (λ longer. (word : List ℕ) (value : ℕ) → Contains words.now word → value < 256
        → HasValue values.low values.high value → Contains longer.items (slice_set word at value)) }
{
    let mut longer = Words::new();
    for word in words {
        if !push_values(&mut longer, *word, at, values) {
            return None;
        }
    }
    Some(longer)
}

/// Adds a word with each of these values at a place, if that is not too much.
fn push_values(longer: &mut Words, word: [u8; SHOWN_BYTES], at: usize, values: ByteSet) -> bool
    requires { at < SHOWN_BYTES }
    ensures kept { (other : List ℕ) → Contains longer.old.items other → Contains longer.new.items other }
    ensures pushed { IsTrue result → (value : ℕ) → value < 256 → HasValue values.low values.high value
        → Contains longer.new.items (slice_set word at value) }
{
    for value in 0..256u16 {
        if values.has(value as u8) {
            let mut more = word;
            more[at] = value as u8;
            if !push_word(longer, more) {
                return false;
            }
        }
    }
    true
}

/// Adds what slots show whose blocks begin with these words, if that is not too much.
fn push_begins(shows: &mut ShownSlots, words: &[[u8; SHOWN_BYTES]]) -> bool
    ensures kept { (shown : WhatASlotShows) → Contains shows.old.items shown → Contains shows.new.items shown }
    ensures pushed { IsTrue result → (word : List ℕ) → Contains words.now word
        → Contains shows.new.items (Begins word) }
{
    for word in words {
        if !push_slot(shows, ShownSlot::Begins(*word)) {
            return false;
        }
    }
    true
}

/// Adds what a slot shows, unless the list is full.
fn push_slot(shows: &mut ShownSlots, shown: ShownSlot) -> bool
    ensures kept { (other : WhatASlotShows) → Contains shows.old.items other → Contains shows.new.items other }
    ensures pushed { IsTrue result → Contains shows.new.items shown }
{
    if shows.is_full() {
        return false;
    }
    shows.push(shown);
    true
}

/// Adds a word, unless the list is full.
fn push_word(words: &mut Words, word: [u8; SHOWN_BYTES]) -> bool
    ensures kept { (other : List ℕ) → Contains words.old.items other → Contains words.new.items other }
    ensures pushed { IsTrue result → Contains words.new.items word }
{
    if words.is_full() {
        return false;
    }
    words.push(word);
    true
}
