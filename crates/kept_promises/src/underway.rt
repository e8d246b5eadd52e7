//! A promise to which later steps can add.

ghost use Rattle.std.specs.Prelude.{◌≡◌, ◌+◌, [], ◌∷◌, false, None, Some, Ok, ℕ, length, IfOk};
ghost use Rattle.std.specs.List.{list_any};
ghost use Rattle.crash_model.specs.Paths.{are_same_shown};
ghost use Rattle.crash_model.specs.Trace.{step as step_of};
ghost use Rattle.crash_model.specs.Tracing.{Tracing};
ghost use Rattle.crash_model.specs.declared.modules.Module.{Module};
ghost use Rattle.promise_steps.specs.Underway.{started, advanced, with_rest};
ghost use Rattle.kept_promises.specs.Watched.{IsPlaceOf, IsAt, under_of, with_ends, with_spares, is_only};

use crate::lasting::Lasting;
use crate::place::Place;
use crash_model::names::Path;
use crash_model::promises::{Allowance, Paths, Spare};
use crash_model::showing::{Shown, are_same_shown};
use crash_model::steps::Act;
use disk_image::{Image, Promise};
use patch_sets::set::with;
use path_lookup::{path_shows, paths_show};
use std::alloc::{AllocError, Allocator};

/// A promise to which later steps can add.
///
/// A set is allowed what is shown at the next rest if it is at least `least`. The promise of an fsync watches its path.
#[derive(Drop)]
pub(crate) struct Underway<A: Allocator> {
    pub promise: Promise<A>,
    pub least: u128,
    pub lasts: Option<Lasting>,
}

impl<A: Allocator + Copy> Underway<A> {
    /// What paths promise at a place of a trace. It fails only when out of memory.
    pub(crate) fn new(
        alloc: A,
        line: usize,
        keeps: bool,
        paths: Paths,
        here: &Place<'_, A>,
    ) -> Result<Underway<A>, AllocError>
        ensures started { IfOk result (λ u. (s : Tracing) → IsPlaceOf here.now s
            → under_of u ≡ started line keeps paths.items None s) }
        ensures lasts { IfOk result (λ u. u.lasts ≡ None) }
    {
        let mut allowed = Vec::new(alloc);
        allowed.push(Allowance {
            least: 0,
            shows: paths_show(here.disk, &paths),
        })?;
        Ok(Underway {
            promise: Promise {
                line,
                keeps,
                paths,
                after: here.forced,
                ends: 0,
                allowed,
                spares: Vec::new(alloc),
            },
            least: 0,
            lasts: None,
        })
    }

    /// What an fsync promises at a place of a trace. It fails only when out of memory.
    pub(crate) fn durable(
        alloc: A,
        line: usize,
        path: &Path,
        here: &Place<'_, A>,
    ) -> Result<Underway<A>, AllocError>
        ensures started { IfOk result (λ u. (s : Tracing) → IsPlaceOf here.now s
            → under_of u ≡ started line false (path.now ∷ []) (Some path.now) s) }
        ensures at { IfOk result (λ u. (s : Tracing) → IsPlaceOf here.now s → IsAt u s) }
    {
        let mut paths = Paths::new();
        paths.push(path.copy());
        let held = Underway::new(alloc, line, false, paths, here)?;
        Ok(Underway {
            promise: held.promise,
            least: held.least,
            lasts: Some(Lasting::new(path, here.disk)),
        })
    }

    /// The same in memory of its own. It fails only when out of memory.
    pub(crate) fn try_copy(&self, alloc: A) -> Result<Underway<A>, AllocError>
        ensures { IfOk result (λ copy. copy ≡ self.now) }
    {
        let lasts = match &self.lasts {
            Some(lasting) => Some(lasting.try_copy()?),
            None => None,
        };
        Ok(Underway {
            promise: self.promise.try_copy(alloc)?,
            least: self.least,
            lasts,
        })
    }

    /// The promise after one more step, before which there were `known` patches. It fails only when out of memory.
    pub(crate) fn advanced(
        self,
        act: &Act,
        known: usize,
        after: &Place<'_, A>,
    ) -> Result<Underway<A>, AllocError>
        ensures advanced { IfOk result (λ u. (kind : Module) (line : ℕ) (s next : Tracing)
            → IsAt self s → IsPlaceOf after.now next → known ≡ length s.emitted
            → step_of kind s line act.now ≡ Ok next
            → under_of u ≡ advanced (under_of self) s act.now next) }
        ensures at { IfOk result (λ u. (next : Tracing) → IsPlaceOf after.now next → IsAt u next) }
    {
        let ended = self.ended(known, after);
        let spared = match act {
            Act::Spare(path, other) => ended.with_spare(path, other, after.disk)?,
            _ => ended,
        };
        if after.is_in_group {
            Ok(spared)
        } else {
            spared.with_rest(after)
        }
    }

    /// With the patches from number `known` on, if they touch the path of an fsync.
    fn ended(self, known: usize, after: &Place<'_, A>) -> Underway<A>
        ensures ended { (s next : Tracing) → IsAt self s → IsPlaceOf after.now next
            → known ≡ length s.emitted → under_of result ≡ with_ends (under_of self) s next }
        ensures at { (next : Tracing) → IsPlaceOf after.now next → IsAt result next }
    {
        let mut this = self;
        if let Some(lasting) = &mut this.lasts {
            this.promise.ends = lasting.end(this.promise.ends, known, after);
        }
        this
    }

    /// With a path that stands in, if the promise is of this path alone. It fails only when out of memory.
    fn with_spare(
        self,
        path: &Path,
        other: &Path,
        disk: &Image<A>,
    ) -> Result<Underway<A>, AllocError>
        ensures spared { IfOk result (λ u. under_of u ≡ with_spares (under_of self) disk.now path.now other.now) }
        ensures lasts { IfOk result (λ u. u.lasts ≡ self.lasts) }
    {
        let mut this = self;
        if is_only(path, &this.promise.paths) {
            this.promise.spares.push(Spare {
                path: other.copy(),
                shows: path_shows(disk, other),
            })?;
        }
        Ok(this)
    }

    /// With what is shown at a rest, if the promise allows that. It fails only when out of memory.
    pub(crate) fn with_rest(self, here: &Place<'_, A>) -> Result<Underway<A>, AllocError>
        ensures rested { IfOk result (λ u. (s : Tracing) → IsPlaceOf here.now s
            → under_of u ≡ with_rest (under_of self) s) }
        ensures lasts { IfOk result (λ u. u.lasts ≡ self.lasts) }
    {
        let mut this = self;
        if !this.promise.keeps {
            return Ok(this);
        }
        let shows = paths_show(here.disk, &this.promise.paths);
        if !is_among(this.promise.allowed.as_slice(), shows.as_slice()) {
            this.promise.allowed.push(Allowance {
                least: this.least,
                shows,
            })?;
        }
        this.least = with(0, here.graph.len());
        Ok(this)
    }
}

/// Whether a path is the only one of some.
fn is_only(path: &Path, paths: &Paths) -> bool
    ensures { result ≡ is_only path.now paths.now.items }
{
    match paths.as_slice() {
        [only] => path.is_same(only),
        _ => false,
    }
}

/// Whether something may be shown already.
fn is_among(allowed: &[Allowance], shows: &[Shown]) -> bool
    ensures { result ≡ list_any (λ a. are_same_shown a.shows.items shows.now) allowed.now }
{
    for allowance in allowed {
        if are_same_shown(allowance.shows.as_slice(), shows) {
            return true;
        }
    }
    false
}
