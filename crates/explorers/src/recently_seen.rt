//! Words that a worker has met on the board.
ghost use Rattle.std.specs.Prelude.{◌≡◌, ◌⊎◌, ℕ, ◌<◌, ◌≤◌, true, length, IfOk};
ghost use Rattle.std.specs.List.{All, Contains};

use state_space::MAX_BOARD;
use std::alloc::{AllocError, Allocator};
use std::marker::Model;

/// Words that a worker has met on the board, each at the one place of a table where it is looked for. A word that
/// comes there takes the place of the one before.
///
/// A successor among them is an entry, so that it needs no step on the board. That a word is not among them says
/// nothing. Contracts see the words.
pub(crate) struct RecentlySeen<A: Allocator> {
    words: Vec<u128, A>,
}

impl<A: Allocator> Model for RecentlySeen<A> {
    ghost use Rattle.std.specs.Prelude.{ℕ, List, ◌<◌, ◌≤◌, length};
    ghost use Rattle.state_space.specs.declared.limits.TheConstants.{MAX_BOARD};

    ghost Value = { List ℕ };

    ghost view = { λ m. m.words.items };

    ghost invariant = { λ m. (0 < length m.words.items) × (length m.words.items ≤ MAX_BOARD) };
}

impl<A: Allocator> RecentlySeen<A> {
    /// A table with `places` places, each with a word that the worker has met. It fails only when out of memory.
    pub fn new(alloc: A, word: u128, places: usize) -> Result<RecentlySeen<A>, AllocError>
        requires places { (0 < places) × (places ≤ MAX_BOARD) }
        ensures { IfOk result (All (λ recent. recent ≡ word)) }
    {
        Ok(RecentlySeen {
            words: vec![in alloc; word; places]?,
        })
    }

    /// Whether the word is among them.
    pub fn has(&self, word: u128) -> bool
        ensures { result ≡ true → Contains self.now word }
    {
        self.words[self.place(word)] == word
    }

    /// Puts a word at its place.
    pub fn keep(&mut self, word: u128)
        ensures { (recent : ℕ) → Contains self.new recent → (recent ≡ word) ⊎ Contains self.old recent }
    {
        let place = self.place(word);
        self.words[place] = word;
    }

    /// The place of a word: a multiplicative hash of each half, of which the highest bits depend on all others (Knuth,
    /// "The Art of Computer Programming", volume 3, section 6.4), as a part of the table.
    fn place(&self, word: u128) -> usize
        ensures { result < length self.now }
    {
        let low = (word % (1 << 64)) as u64;
        let high = (word >> 64) as u64;
        let mixed = low
            .wrapping_mul(0x9E37_79B9_7F4A_7C15)
            .wrapping_add(high.wrapping_mul(0xC2B2_AE3D_27D4_EB4F));
        ((u128::from(mixed) * self.words.len() as u128) >> 64) as usize
    }
}

impl<A: Allocator> Drop for RecentlySeen<A> {
    fn drop(self) {
        let RecentlySeen { words } = self;
        drop(words);
    }
}
