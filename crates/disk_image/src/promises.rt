//! What a script promises.

ghost use Rattle.std.specs.Prelude.{◌≡◌, IfOk};

use crash_model::promises::{Allowance, Paths, Spare, paths_copy, shows_copy};
use std::alloc::{AllocError, Allocator};
use std::marker::Model;

/// A promise of a line about its paths: a set that has all ids of `after` and none of `ends` shows what it allows, or
/// what a spare stands in with.
///
/// `keeps` says whether it is of a line `keep`, which allows what is shown at later rests, too.
#[derive(Drop)]
pub struct Promise<A: Allocator> {
    pub line: usize,
    pub keeps: bool,
    pub paths: Paths,
    pub after: u128,
    pub ends: u128,
    pub allowed: Vec<Allowance, A>,
    pub spares: Vec<Spare, A>,
}

impl<A: Allocator> Model for Promise<A> {
    ghost use Rattle.crash_model.specs.Promises.{Promise as Promised};

    ghost Value = { Promised };

    ghost view = { λ p. record {
      line = p.line;
      keeps = p.keeps;
      paths = p.paths.items;
      after = p.after;
      ends = p.ends;
      allowed = p.allowed.items;
      spares = p.spares.items;
    } };
}

impl<A: Allocator + Copy> Promise<A> {
    /// The same in memory of its own. It fails only when out of memory.
    pub fn try_copy(&self, alloc: A) -> Result<Promise<A>, AllocError>
        ensures { IfOk result (λ copy. copy ≡ self.now) }
    {
        Ok(Promise {
            line: self.line,
            keeps: self.keeps,
            paths: paths_copy(&self.paths),
            after: self.after,
            ends: self.ends,
            allowed: allowed_copy(alloc, self.allowed.as_slice())?,
            spares: spares_copy(alloc, self.spares.as_slice())?,
        })
    }
}

/// A copy of what is allowed. It fails only when out of memory.
fn allowed_copy<A: Allocator + Copy>(
    alloc: A,
    allowed: &[Allowance],
) -> Result<Vec<Allowance, A>, AllocError>
    ensures { IfOk result (λ copies. copies.items ≡ allowed.now) }
{
    let mut copies = Vec::new(alloc);
    for allowance in allowed {
        copies.push(Allowance {
            least: allowance.least,
            shows: shows_copy(&allowance.shows),
        })?;
    }
    Ok(copies)
}

/// A copy of spares. It fails only when out of memory.
fn spares_copy<A: Allocator + Copy>(alloc: A, spares: &[Spare]) -> Result<Vec<Spare, A>, AllocError>
    ensures { IfOk result (λ copies. copies.items ≡ spares.now) }
{
    let mut copies = Vec::new(alloc);
    for spare in spares {
        copies.push(Spare {
            path: spare.path.copy(),
            shows: spare.shows,
        })?;
    }
    Ok(copies)
}
