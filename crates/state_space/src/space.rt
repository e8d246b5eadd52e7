ghost use Rattle.std.specs.Prelude.{◌≡◌, ℕ, ◌<◌, ◌↔◌, List, length, slice_index, Contains, IfOk, IfSome, IsTrue};
ghost use Rattle.state_space.specs.Walks.{IsNextOf};

use std::alloc::AllocError;

/// Words to explore: an initial word, the successors of each word, and which words are good.
///
/// Only lawful words are asked about. The initial word is lawful, and so is each successor of a lawful word.
pub trait Space {
    /// What `judge` works in, so that judging many words needs no new memory for each.
    type Scratch: Drop;

    /// The words that the calls take.
    ghost is_lawful: { Self → ℕ → Type 0 };

    ghost initial: { Self → ℕ };

    ghost successors: { Self → ℕ → List ℕ };

    ghost is_good: { Self → ℕ → Type 0 };

    /// The scratches that this space made.
    ghost is_own: { Self → Self.Scratch → Type 0 };

    /// The initial word.
    fn start(&self) -> u128
        ensures { result ≡ initial self.now };

    /// Room for `judge`. It fails only when out of memory.
    fn scratch(&self) -> Result<Self::Scratch, AllocError>
        ensures { IfOk result (is_own self.now) };

    /// The number of successors of a word.
    fn degree(&self, word: u128) -> u32
        requires { is_lawful self.now word }
        ensures { result ≡ length (successors self.now word) };

    /// The successor at place `k` of the list, counted from 0.
    fn next(&self, word: u128, k: u32) -> u128
        requires lawful { is_lawful self.now word }
        requires below { k < length (successors self.now word) }
        ensures { result ≡ slice_index (successors self.now word) k };

    /// What a walk over the successors of a word keeps once the first `k` of them have come: the word, what is kept,
    /// and `k`.
    ghost is_ahead: { Self → ℕ → ℕ → ℕ → Type 0 };

    /// What a walk over the successors of a word begins with.
    fn ahead(&self, word: u128) -> u128
        requires { is_lawful self.now word }
        ensures { is_ahead self.now word result 0 };

    /// The next successor of a walk, in the order of the list, or none after the last. So a walk takes one step for
    /// each successor, while `next` may begin again with each `k`. What the walk keeps gets smaller.
    fn advance(&self, word: u128, ahead: &mut u128) -> Option<u128>
        requires lawful { is_lawful self.now word }
        requires ahead { (k : ℕ) × is_ahead self.now word ahead.old k }
        ensures next { (k : ℕ) → is_ahead self.now word ahead.old k
            → IsNextOf (successors self.now word) k (is_ahead self.now word ahead.new) result }
        ensures smaller { IfSome result (λ _. ahead.new < ahead.old) };

    /// Whether a word is good, whatever words the scratch judged before. It fails only when out of memory.
    fn judge(&self, scratch: &mut Self::Scratch, word: u128) -> Result<bool, AllocError>
        requires lawful { is_lawful self.now word }
        requires own { is_own self.now scratch.old }
        ensures good { IfOk result (λ good. IsTrue good ↔ is_good self.now word) }
        ensures own { is_own self.now scratch.new };

    ghost initial_lawful: { (s : Self) → is_lawful s (initial s) };

    ghost successor_lawful: { (s : Self) (word next : ℕ) → is_lawful s word → Contains (successors s word) next
        → is_lawful s next };
}
