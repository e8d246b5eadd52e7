//! What is demanded of an image.

ghost use Rattle.std.specs.Prelude.{◌≡◌, None, Some, MatchOption, option_map, is_some};
ghost use Rattle.crash_model.specs.Checker.{Demands as Wanted, promised};

use crate::image::Image;
use crate::promises::Promise;
use std::alloc::Allocator;
use std::marker::Model;

/// What a checker demands of the image of a set, besides that it has none of the six faults.
///
/// With a set of inodes that a script keeps, a path leads to each of them, and each directory that is reached has its
/// block. With disks, the image shows one of them. No promise is broken. It may be that only faults of some numbers
/// count.
#[derive(Drop)]
pub struct Demands<A: Allocator + Copy> {
    kept: Option<u16>,
    disks: Option<Vec<Image<A>, A>>,
    promises: Option<Vec<Promise<A>, A>>,
    counted: Option<u16>,
}

impl<A: Allocator + Copy> Model for Demands<A> {
    ghost use Rattle.std.specs.Prelude.{option_map};
    ghost use Rattle.crash_model.specs.Checker.{Demands as Wanted};

    ghost Value = { Wanted };

    ghost view = { λ d. record {
      kept = d.kept;
      disks = option_map (λ v. v.items) d.disks;
      promises = option_map (λ v. v.items) d.promises;
      counted = d.counted;
    } };
}

impl<A: Allocator + Copy> Demands<A> {
    /// The demands with these kept inodes for a strict checker, or none, and with these disks, or none.
    pub fn new(kept: Option<u16>, disks: Option<Vec<Image<A>, A>>) -> Demands<A>
        ensures { result ≡ record { kept = kept; disks = option_map (λ v. v.items) disks; promises = None; counted = None } }
    {
        Demands {
            kept,
            disks,
            promises: None,
            counted: None,
        }
    }

    /// Nothing is demanded but that none of the six faults holds.
    pub fn none() -> Demands<A>
        ensures { result ≡ record { kept = None; disks = None; promises = None; counted = None } }
    {
        Demands {
            kept: None,
            disks: None,
            promises: None,
            counted: None,
        }
    }

    /// The same demands, and that none of these promises is broken.
    pub fn with_promises(self, promises: Vec<Promise<A>, A>) -> Demands<A>
        ensures { result ≡ record self { promises = Some promises.items } }
    {
        Demands {
            kept: self.kept,
            disks: self.disks,
            promises: Some(promises),
            counted: self.counted,
        }
    }

    /// The same demands, of which only faults of these numbers count, given as a set. With `None` all count.
    pub fn counting(self, counted: Option<u16>) -> Demands<A>
        ensures { result ≡ record self { counted = counted } }
    {
        Demands {
            kept: self.kept,
            disks: self.disks,
            promises: self.promises,
            counted,
        }
    }

    /// The numbers of the faults that count, as a set, if not all count.
    pub fn counted(&self) -> Option<u16>
        ensures { result ≡ self.now.counted }
    {
        self.counted
    }

    /// The inodes that the script keeps, as a set, if the checker is strict.
    pub fn kept(&self) -> Option<u16>
        ensures { result ≡ self.now.kept }
    {
        self.kept
    }

    /// The disks of which an image must show one, if operations are to be atomic.
    pub fn disks(&self) -> Option<&[Image<A>]>
        ensures { MatchOption result (self.now.disks ≡ None) (λ disks. self.now.disks ≡ Some disks.now) }
    {
        match &self.disks {
            Some(disks) => Some(disks.as_slice()),
            None => None,
        }
    }

    /// Whether the script has a line that waits or promises.
    pub fn has_promises(&self) -> bool
        ensures { result ≡ is_some self.now.promises }
    {
        self.promises.is_some()
    }

    /// The promises.
    pub fn promises(&self) -> &[Promise<A>]
        ensures { result.now ≡ promised self.now.promises }
    {
        match &self.promises {
            Some(promises) => promises.as_slice(),
            None => &[],
        }
    }
}
