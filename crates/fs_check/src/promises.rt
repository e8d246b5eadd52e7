//! Whether a set breaks what a script promises.

ghost use Rattle.std.specs.Prelude.{◌≡◌, ◌<◌, ◌≤◌, ◌==◌, ◌&&◌, ◌++◌, ◌↔◌, [], None, Some, IsTrue, IfSome, OnOk};
ghost use Rattle.std.specs.Prelude.{MatchOption};
ghost use Rattle.std.specs.List.{list_any, find};
ghost use Rattle.crash_model.specs.Promises.{is_broken, is_allowed, is_spared, paths_show};
ghost use Rattle.crash_model.specs.BrokenLines.{broken_lines};
ghost use Rattle.fs_check.specs.Broken.{line_behind, IsNextBroken};

use crash_model::fault::Fault;
use crash_model::promises::Spare;
use crash_model::showing::are_same_shown;
use disk_image::{Image, Promise};
use path_lookup::{path_shows, paths_show};
use std::alloc::{AllocError, Allocator};

/// Whether the image of a set, after replay, breaks a promise. It takes no memory.
#[tactic(auto, unfolding(crash_model::specs::Promises::is_broken))]
pub fn is_broken<A: Allocator + Copy>(image: &Image<A>, set: u128, promise: &Promise<A>) -> bool
    ensures { result ≡ is_broken promise.now set image.now }
{
    promise.after & set == promise.after
        && promise.ends & set == 0
        && !is_allowed(image, set, promise)
        && !is_spared(image, promise.spares.as_slice())
}

/// Whether a promise allows a set what its paths show on an image.
fn is_allowed<A: Allocator + Copy>(image: &Image<A>, set: u128, promise: &Promise<A>) -> bool
    ensures { result ≡ is_allowed promise.now.allowed set (paths_show image.now promise.now.paths) }
{
    let shows = paths_show(image, &promise.paths);
    let shows = shows.as_slice();
    promise.allowed.iter().any(|allowance| {
        allowance.least <= set && are_same_shown(allowance.shows.as_slice(), shows)
    })
}

/// Whether a path that stands in shows what it is to show.
fn is_spared<A: Allocator + Copy>(image: &Image<A>, spares: &[Spare]) -> bool
    ensures { result ≡ is_spared spares.now image.now }
{
    spares.iter().any(|spare| spare.shows.is_same(&path_shows(image, &spare.path)))
}

/// Whether a promise is broken.
fn breaks_any<A: Allocator + Copy>(image: &Image<A>, set: u128, promises: &[Promise<A>]) -> bool
    ensures { result ≡ list_any (λ promise. is_broken promise set image.now) promises.now }
{
    promises
        .iter()
        .any(|promise| is_broken(image, set, promise))
}

/// Whether no promise is broken. It takes no memory.
pub(crate) fn keeps_promises<A: Allocator + Copy>(
    image: &Image<A>,
    set: u128,
    promises: &[Promise<A>],
) -> bool
    ensures { IsTrue result ↔ (broken_lines promises.now set image.now ≡ []) }
{
    !breaks_any(image, set, promises)
}

/// The first broken promise of a line, in the order of the list.
pub fn broken_promise<'a, A: Allocator + Copy>(
    image: &Image<A>,
    set: u128,
    promises: &'a [Promise<A>],
    line: usize,
) -> Option<&'a Promise<A>>
    ensures { let first = find (λ p. p.line == line && is_broken p set image.now) promises.now in
        MatchOption result (first ≡ None) (λ promise. first ≡ Some promise.now) }
{
    for promise in promises {
        if breaks_line(image, set, promise, line) {
            return Some(promise);
        }
    }
    None
}

/// Whether a promise is of a line, and broken.
fn breaks_line<A: Allocator + Copy>(
    image: &Image<A>,
    set: u128,
    promise: &Promise<A>,
    line: usize,
) -> bool
    ensures { result ≡ (promise.now.line == line && is_broken promise.now set image.now) }
{
    promise.line == line && is_broken(image, set, promise)
}

/// Adds a fault for each line of which a promise is broken, by line.
pub(crate) fn push_broken<A: Allocator + Copy>(
    found: &mut Vec<Fault, A>,
    image: &Image<A>,
    set: u128,
    promises: &[Promise<A>],
) -> Result<(), AllocError>
    ensures { OnOk result (found.new.items ≡ found.old.items ++ broken_lines promises.now set image.now) }
{
    let mut last = None;
    while let Some(line) = next_broken(image, set, promises, last) {
        found.push(Fault::BrokenPromise { line })?;
        last = Some(line);
    }
    Ok(())
}

/// The least line of which a promise is broken, of those behind a line if there is one.
fn next_broken<A: Allocator + Copy>(
    image: &Image<A>,
    set: u128,
    promises: &[Promise<A>],
    last: Option<usize>,
) -> Option<usize>
    ensures { IsNextBroken promises.now set image.now (line_behind last) result }
{
    let mut next = None;
    for promise in promises {
        if is_between(promise.line, last, next) {
            if is_broken(image, set, promise) {
                next = Some(promise.line);
            }
        }
    }
    next
}

/// Whether a line is behind another and before a third, as far as there are these.
fn is_between(line: usize, last: Option<usize>, next: Option<usize>) -> bool
    ensures { IsTrue result ↔ ((line_behind last ≤ line) × IfSome next (λ other. line < other)) }
{
    is_behind(line, last) && is_before(line, next)
}

/// Whether a line is behind another, if there is another.
fn is_behind(line: usize, last: Option<usize>) -> bool
    ensures { IsTrue result ↔ (line_behind last ≤ line) }
{
    match last {
        Some(last) => last < line,
        None => true,
    }
}

/// Whether a line is before another, if there is another.
fn is_before(line: usize, next: Option<usize>) -> bool
    ensures { IsTrue result ↔ IfSome next (λ other. line < other) }
{
    match next {
        Some(next) => line < next,
        None => true,
    }
}
