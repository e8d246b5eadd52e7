//! The question whether a set breaks a promise.

ghost use Rattle.std.specs.Prelude.{◌≡◌, ◌||◌, true, [], ◌∷◌, nat_le, ◌&&◌, IsTrue, IfOk, IfErr};
ghost use Rattle.std.specs.List.{list_any};
ghost use Rattle.crash_model.specs.Paths.{is_same_path, is_same_shown, are_same_shown};
ghost use Rattle.crash_model.specs.Promises.{is_broken, is_allowed, is_spared, breaks_line, paths_show};
ghost use Rattle.crash_model.specs.Promises.{has_all, has_none};
ghost use Rattle.fault_deciding.specs.Asked.{family_of};
ghost use Rattle.fault_deciding.specs.OfSets.{InEachRead, IsKnownOfSets, IsKnownRead, IsLeastFor, AreIdsOf};
ghost use Rattle.fault_deciding.specs.OfSets.{is_excused, smaller_of};
ghost use Rattle.known_bytes.specs.Family.{IsUndecided};
ghost use Rattle.known_bytes.specs.Reading.{InEachDisk, IsKnown};

use crate::sets::{are_at_least, both, either, have_all, have_none, negation};
use crash_model::names::Path;
use crash_model::promises::{Allowance, Paths, Shows, Spare};
use crash_model::showing::{Shown, are_same_shown};
use disk_image::Promise;
use known_bytes::{Chains, KnownBytes, KnownDisk, Showing};
use set_families::Family;
use std::alloc::Allocator;

/// Whether the members of a family break a promise of a line, if all or none of them do; else an undecided patch on
/// which it depends.
pub(crate) fn breaks_line<A: Allocator + Copy>(
    chains: &Chains<'_, A>,
    family: Family,
    promises: &[Promise<A>],
    line: usize,
) -> Result<bool, usize>
    ensures { IsKnownOfSets (family_of chains.now family) (λ set d. breaks_line promises.now set d line) result }
{
    let mut answer = Ok(false);
    for promise in promises {
        if promise.line == line {
            answer = either(answer, is_broken_by(&*chains, family, promise));
        }
    }
    answer
}

/// Whether the members of a family break a promise.
fn is_broken_by<A: Allocator + Copy>(
    chains: &Chains<'_, A>,
    family: Family,
    promise: &Promise<A>,
) -> Result<bool, usize>
    ensures { IsKnownOfSets (family_of chains.now family) (is_broken promise.now) result }
{
    is_broken(KnownBytes::new(chains, family.held, family.barred), promise)
}

/// Whether all sets whose bytes these are break a promise, or none.
fn is_broken<A: Allocator + Copy>(
    bytes: KnownBytes<'_, A>,
    promise: &Promise<A>,
) -> Result<bool, usize>
    ensures { IsKnownOfSets bytes.entry (is_broken promise.now) result }
{
    let has_ids = has_ids(&bytes, promise)?;
    if has_ids {
        negation(is_excused(bytes, promise))
    } else {
        Ok(false)
    }
}

/// Whether what the members of a family show is allowed, or something stands in.
fn is_excused<A: Allocator + Copy>(
    bytes: KnownBytes<'_, A>,
    promise: &Promise<A>,
) -> Result<bool, usize>
    ensures { IsKnownOfSets bytes.entry (is_excused promise.now) result }
{
    let (held, undecided) = (bytes.held(), bytes.undecided());
    let disk = KnownDisk::replayed(bytes)?;
    if is_surely_excused(&disk, held, promise) {
        return Ok(true);
    }
    let spared = is_spared(&disk, promise.spares.as_slice());
    either(is_allowed(&disk, held, undecided, promise), spared)
}

/// Whether what the members of a family show is allowed.
fn is_allowed<A: Allocator + Copy>(
    disk: &KnownDisk<'_, A>,
    held: u128,
    undecided: u128,
    promise: &Promise<A>,
) -> Result<bool, usize>
    requires { AreIdsOf disk.now.family held undecided }
    ensures { IsKnownRead disk.now
        (λ set d. is_allowed promise.now.allowed set (paths_show d promise.now.paths)) result }
{
    let shows = paths_show(disk, &promise.paths)?;
    match least_for(promise.allowed.as_slice(), shows.as_slice()) {
        Some(least) => are_at_least(held, undecided, least),
        None => Ok(false),
    }
}

/// Whether the members of a family have the ids of a promise, and none of those that end it.
fn has_ids<A: Allocator + Copy>(
    bytes: &KnownBytes<'_, A>,
    promise: &Promise<A>,
) -> Result<bool, usize>
    ensures { IsKnownOfSets bytes.now (λ set d. has_all set promise.now.after && has_none set promise.now.ends) result }
{
    let (held, undecided) = (bytes.held(), bytes.undecided());
    both(
        have_all(held, undecided, promise.after),
        have_none(held, undecided, promise.ends),
    )
}

/// Whether something stands in.
fn is_spared<A: Allocator + Copy>(disk: &KnownDisk<'_, A>, spares: &[Spare]) -> Result<bool, usize>
    ensures { IsKnown disk.now (is_spared spares.now) result }
{
    for spare in spares {
        if spare.shows.is_same(&disk.path_shows(&spare.path)?) {
            return Ok(true);
        }
    }
    Ok(false)
}

/// What several paths show, in their order.
fn paths_show<A: Allocator + Copy>(disk: &KnownDisk<'_, A>, paths: &Paths) -> Result<Shows, usize>
    ensures ok { IfOk result (λ shows. InEachDisk disk.now (λ d. paths_show d paths.now.items ≡ shows.items)) }
    ensures err { IfErr result (IsUndecided disk.now.family) }
{
    let mut shows = Shows::new();
    for path in paths.as_slice() {
        shows.push(disk.path_shows(path)?);
    }
    Ok(shows)
}

/// The least set, as a number, that may show this, if any may.
fn least_for(allowed: &[Allowance], shows: &[Shown]) -> Option<u128>
    ensures { IsLeastFor allowed.now shows.now result }
{
    let mut least = None;
    for allowance in allowed {
        if are_same_shown(allowance.shows.as_slice(), shows) {
            least = Some(smaller(least, allowance.least));
        }
    }
    least
}

/// The smaller of two numbers, or the second if there is no first.
fn smaller(first: Option<u128>, second: u128) -> u128
    ensures { result ≡ smaller_of first second }
{
    match first {
        Some(first) => first.min(second),
        None => second,
    }
}

/// What a promise of one path allows each set that has all of some patches, or a spare of the path itself excuses.
#[derive(Drop)]
struct Excused<'a> {
    held: u128,
    allowed: &'a [Allowance],
    spares: &'a [Spare],
    only: &'a Path,
}

impl Showing for Excused<'_> {
    ghost use Rattle.std.specs.Prelude.{◌≡◌, ◌||◌, ◌&&◌, true, [], ◌∷◌, nat_le};
    ghost use Rattle.std.specs.List.{list_any};
    ghost use Rattle.crash_model.specs.Paths.{is_same_path, is_same_shown, are_same_shown};

    ghost excuses = { λ e shown. (list_any (λ a. nat_le a.least e.held
        && are_same_shown a.shows.items (shown ∷ [])) e.allowed.now
        || list_any (λ s. is_same_shown s.shows shown && is_same_path s.path e.only.now) e.spares.now) ≡ true };

    fn allows(&self, shown: &Shown) -> bool {
        self.is_allowed(shown) || self.is_spared(shown)
    }
}

impl Excused<'_> {
    /// Whether each set may show this that has the patches.
    fn is_allowed(&self, shown: &Shown) -> bool
        ensures { result ≡ list_any
            (λ a. nat_le a.least self.now.held && are_same_shown a.shows.items (shown.now ∷ [])) self.now.allowed.now }
    {
        let shows = [*shown];
        self.allowed.iter().any(|allowance| {
            allowance.least <= self.held
                && are_same_shown(allowance.shows.as_slice(), shows.as_slice())
        })
    }

    /// Whether the path stands in for itself where it shows this.
    fn is_spared(&self, shown: &Shown) -> bool
        ensures { result ≡ list_any (λ s. is_same_shown s.shows shown.now && is_same_path s.path self.now.only.now)
            self.now.spares.now }
    {
        self.spares.iter().any(|spare| spare.shows.is_same(shown) && spare.path.is_same(self.only))
    }
}

/// Whether whatever the path of a promise may show on the disks is excused. If it is not known, some of it may be
/// excused nevertheless. A promise of several paths is not looked at.
fn is_surely_excused<A: Allocator + Copy>(
    disk: &KnownDisk<'_, A>,
    held: u128,
    promise: &Promise<A>,
) -> bool
    requires { held ≡ disk.now.family.held }
    ensures { IsTrue result → InEachRead disk.now (λ set d. is_excused promise.now set d ≡ true) }
{
    let paths = promise.paths.as_slice();
    let [only] = paths else {
        return false;
    };
    let allowed = promise.allowed.as_slice();
    let spares = promise.spares.as_slice();
    let excused = Excused {
        held,
        allowed,
        spares,
        only,
    };
    disk.shows_allowed(only, &excused)
}
