//! A space whose first word leads to all others.

ghost use Rattle.std.specs.Prelude.{◌≡◌, ◌+◌, ◌<◌, [], cond, ◌==◌, length};

use state_space::Space;
use std::alloc::AllocError;

/// The word 0, and after it the words of a slice, which have no successors. All are good.
#[derive(Drop)]
pub struct Fan<'a> {
    pub after: &'a [u128],
    ghost few: { length after.now < 4294967296 },
}

impl Space for Fan<'_> {
    type Scratch = ();

    ghost is_lawful = { λ _ _. Unit {0} };

    ghost initial = { λ _. 0 };

    ghost successors = { λ fan word. cond (word == 0) fan.after.now [] };

    ghost is_good = { λ _ _. Unit {0} };

    ghost is_own = { λ _ _. Unit {0} };

    fn start(&self) -> u128 {
        0
    }

    fn scratch(&self) -> Result<(), AllocError> {
        Ok(())
    }

    fn degree(&self, word: u128) -> u32 {
        if word == 0 {
            self.after.len() as u32
        } else {
            0
        }
    }

    fn next(&self, word: u128, k: u32) -> u128 {
        if word == 0 { self.after[k as usize] } else { 0 }
    }

    // A walk over the successors of a word keeps how many are ahead.
    ghost is_ahead = { λ fan word ahead k. ahead + k ≡ length (cond (word == 0) fan.after.now []) };

    fn ahead(&self, word: u128) -> u128 {
        u128::from(self.degree(word))
    }

    fn advance(&self, word: u128, ahead: &mut u128) -> Option<u128> {
        if *ahead == 0 {
            return None;
        }
        let place = u128::from(self.degree(word)) - *ahead;
        *ahead -= 1;
        Some(self.next(word, place as u32))
    }

    fn judge(&self, _scratch: &mut (), _word: u128) -> Result<bool, AllocError> {
        Ok(true)
    }

    ghost initial_lawful = { λ _. tt };

    ghost successor_lawful = { λ _ _ _ _ _. tt };
}
