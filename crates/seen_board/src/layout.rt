//! Where the words of a board lie in its table, which shard a word belongs to, and at which index words it is looked
//! for.
ghost use Rattle.std.specs.Prelude.{◌≡◌, ◌%◌, ◌<◌, ◌≤◌};
ghost use Rattle.board_rule.specs.Layout.{lock_word, length_word, low_word, high_word, life_word, index_word, size_for};
ghost use Rattle.board_rule.specs.Layout.{slot, window};
ghost use Rattle.seen_board.specs.Seats.{IsProbe};

use crate::entries::halves_of;
use board_rule::SHARDS;
use state_space::MAX_BOARD;

/// The number of entries that are not settled, and of the words that are on their way.
pub(crate) const PENDING: usize = 0;

/// The number of entries that were counted.
pub(crate) const COUNT: usize = 1;

/// Whether the workers are to stop.
pub(crate) const STOP: usize = 2;

/// How many words apart the locks and the lengths are: a cache line, so that taking one does not take the line of
/// another.
const APART: usize = 8;

const LOCKS: usize = APART;

const LENGTHS: usize = LOCKS + APART * SHARDS;

const BLOCKS: usize = LENGTHS + APART * SHARDS;

/// The shard of a word: its remainder by the number of shards.
pub fn shard_of(word: u128) -> u8
    ensures { result ≡ word % SHARDS }
{
    // 2^64 leaves 3, so that no word takes a division of 128 bits.
    let (low, high) = halves_of(word);
    let (low, high) = (low % SHARDS as u64, high % SHARDS as u64);
    ((3 * high + low) % SHARDS as u64) as u8
}

/// The table of a board whose rows have `places` places. After the counters, the locks and the lengths come four
/// blocks with a word for each place: low halves, high halves, lives, and the index. In a block the shards take turns.
#[derive(Clone, Copy, Debug, Drop)]
pub(crate) struct Layout {
    pub places: usize,
}

impl Layout {
    /// How many words there are.
    pub fn size(&self) -> usize
        requires small { self.now.places ≤ MAX_BOARD }
        ensures { result ≡ size_for self.now.places }
    {
        BLOCKS + 4 * SHARDS * self.places
    }

    /// The lock of a shard.
    pub fn lock(&self, shard: u8) -> usize
        requires shard { shard < SHARDS }
        ensures { result ≡ lock_word shard }
    {
        LOCKS + APART * shard as usize
    }

    /// The length of a shard's row.
    pub fn length(&self, shard: u8) -> usize
        requires shard { shard < SHARDS }
        ensures { result ≡ length_word shard }
    {
        LENGTHS + APART * shard as usize
    }

    /// The low half of the entry at a place.
    pub fn low(&self, shard: u8, at: usize) -> usize
        requires place { (shard < SHARDS) × (at < 65536) × (self.now.places ≤ MAX_BOARD) }
        ensures { result ≡ low_word shard at }
    {
        BLOCKS + SHARDS * at + shard as usize
    }

    /// The high half of the entry at a place.
    pub fn high(&self, shard: u8, at: usize) -> usize
        requires place { (shard < SHARDS) × (at < 65536) × (self.now.places ≤ MAX_BOARD) }
        ensures { result ≡ high_word self.now.places shard at }
    {
        BLOCKS + SHARDS * self.places + SHARDS * at + shard as usize
    }

    /// The life of the entry at a place.
    pub fn life(&self, shard: u8, at: usize) -> usize
        requires place { (shard < SHARDS) × (at < 65536) × (self.now.places ≤ MAX_BOARD) }
        ensures { result ≡ life_word self.now.places shard at }
    {
        BLOCKS + 2 * SHARDS * self.places + SHARDS * at + shard as usize
    }

    /// A word of a shard's index, which has as many as the row has places.
    pub fn mark(&self, shard: u8, slot: usize) -> usize
        requires place { (shard < SHARDS) × (slot < self.now.places) × (self.now.places ≤ MAX_BOARD) }
        ensures { result ≡ index_word self.now.places shard slot }
    {
        BLOCKS + 3 * SHARDS * self.places + SHARDS * slot + shard as usize
    }

    /// How many words of its shard's index a word has.
    pub fn window(&self) -> usize
        ensures window { result ≡ window self.now.places }
        ensures within { result ≤ self.now.places }
        ensures eight { result ≤ 8 }
    {
        if self.places < 8 { self.places } else { 8 }
    }

    /// What is computed once for a word that is looked up.
    pub fn probe(&self, word: u128) -> Probe
        requires places { (0 < self.now.places) × (self.now.places ≤ MAX_BOARD) }
        ensures word { result.word ≡ word }
        ensures probe { IsProbe self.now.places result }
    {
        // One long division gives both: of its remainder, the shard is the last digit to base 13, and the index word
        // the rest.
        let places = SHARDS * self.places;
        let left = match u64::try_from(word) {
            Ok(short) => (short % places as u64) as usize,
            Err(_) => (word % places as u128) as usize,
        };
        Probe {
            word,
            shard: (left % SHARDS) as u8,
            first: left / SHARDS,
        }
    }

    /// The t-th index word of a word, counted from 0. After the last word of the index comes word 0.
    pub fn slot(&self, probe: Probe, t: usize) -> usize
        requires probe { IsProbe self.now.places probe }
        requires range { (t ≤ self.now.places) × (self.now.places ≤ MAX_BOARD) }
        ensures slot { result ≡ slot self.now.places probe.word t }
        ensures below { result < self.now.places }
    {
        let slot = probe.first + t;
        if slot < self.places {
            slot
        } else {
            slot - self.places
        }
    }
}

/// A word that is looked for, with its shard and the first of its index words.
#[derive(Clone, Copy, Debug, Drop)]
pub(crate) struct Probe {
    pub word: u128,
    pub shard: u8,
    pub first: usize,
}
