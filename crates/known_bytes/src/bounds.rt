//! Counts that are not known exactly.

ghost use Rattle.std.specs.Prelude.{◌≡◌, ◌+◌, ◌≤◌, ◌<◌, ℕ, ◌==◌, nat_le, Bool, if◌then◌else◌};
ghost use Rattle.crash_model.specs.Disk.{Disk};
ghost use Rattle.known_bytes.specs.Reading.{Reading, IsKnown};
ghost use Rattle.known_bytes.specs.Counts.{AreBounds};

/// The least and the most that there are on any disk of a family. If these differ, `ask` is an undecided patch on which
/// the number depends.
#[derive(Clone, Copy)]
pub(crate) struct Bounds {
    pub(crate) least: u8,
    pub(crate) most: u8,
    pub(crate) ask: usize,
}

impl Bounds {
    /// None.
    pub(crate) fn none() -> Bounds
        ensures counted { (r : Reading) → AreBounds r (λ d. 0) result.least result.most result.ask }
        ensures zero { result.most ≡ 0 }
        ensures right { result.least ≤ result.most }
    {
        Bounds {
            least: 0,
            most: 0,
            ask: 0,
        }
    }

    /// One more if a test holds.
    pub(crate) fn with(self, test: Result<bool, usize>) -> Bounds
        requires few { self.most < 255 }
        requires right { self.least ≤ self.most }
        ensures counted { (r : Reading) (count : Disk → ℕ) (P : Disk → Bool)
            → AreBounds r count self.least self.most self.ask → IsKnown r P test
            → AreBounds r (λ d. count d + (if P d then 1 else 0)) result.least result.most result.ask }
        ensures few { result.most ≤ self.most + 1 }
        ensures right { result.least ≤ result.most }
    {
        match test {
            Ok(true) => Bounds {
                least: self.least + 1,
                most: self.most + 1,
                ask: self.ask,
            },
            Ok(false) => self,
            Err(id) => Bounds {
                least: self.least,
                most: self.most + 1,
                ask: id,
            },
        }
    }

    /// Two counts added. If both are open, the sum depends on the patch of the second, since then fewer families are
    /// asked.
    pub(crate) fn plus(self, more: Bounds) -> Bounds
        requires few { self.most + more.most ≤ 255 }
        requires right { (self.least ≤ self.most) × (more.least ≤ more.most) }
        ensures counted { (r : Reading) (count number : Disk → ℕ)
            → AreBounds r count self.least self.most self.ask → AreBounds r number more.least more.most more.ask
            → AreBounds r (λ d. count d + number d) result.least result.most result.ask }
        ensures most { result.most ≡ self.most + more.most }
        ensures right { result.least ≤ result.most }
    {
        let ask = if more.least < more.most {
            more.ask
        } else {
            self.ask
        };
        Bounds {
            least: self.least + more.least,
            most: self.most + more.most,
            ask,
        }
    }

    /// Whether there are at least a number of them.
    pub(crate) fn reach(self, count: u8) -> Result<bool, usize>
        ensures { (r : Reading) (number : Disk → ℕ) → AreBounds r number self.least self.most self.ask
            → IsKnown r (λ d. nat_le count (number d)) result }
    {
        if count <= self.least {
            Ok(true)
        } else if self.most < count {
            Ok(false)
        } else {
            Err(self.ask)
        }
    }

    /// Whether there are exactly a number of them.
    pub(crate) fn are(self, count: u8) -> Result<bool, usize>
        ensures { (r : Reading) (number : Disk → ℕ) → AreBounds r number self.least self.most self.ask
            → IsKnown r (λ d. number d == count) result }
    {
        if count < self.least || self.most < count {
            Ok(false)
        } else if self.least == self.most {
            Ok(true)
        } else {
            Err(self.ask)
        }
    }
}
