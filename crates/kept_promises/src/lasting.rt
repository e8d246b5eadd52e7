//! What ends the promise of an fsync.

ghost use Rattle.std.specs.Prelude.{◌≡◌, ◌||◌, not, Some, bit_or, length, drop, IfOk};
ghost use Rattle.std.specs.List.{list_any};
ghost use Rattle.crash_model.specs.Paths.{names_of, are_same_shown};
ghost use Rattle.crash_model.specs.Patches.{places_of};
ghost use Rattle.crash_model.specs.Promises.{way_shows, touched_ranges, ids_between};
ghost use Rattle.crash_model.specs.Tracing.{Tracing};
ghost use Rattle.crash_model.specs.Waiting.{meets_range};
ghost use Rattle.kept_promises.specs.Watched.{IsPlaceOf, IsWatchedAt, ends_by};

use crate::place::Place;
use arrayvec::ArrayVec;
use crash_model::names::Path;
use crash_model::promises::{Shows, shows_copy};
use crash_model::ranges::Range;
use crash_model::showing::are_same_shown;
use disk_image::Image;
use patch_graph::Graph;
use patch_sets::set::with;
use path_lookup::{MOST_TOUCHED, meets, touched_ranges, way_shows};
use std::alloc::{AllocError, Allocator};

/// The path of an fsync that promises, the bytes of which a change touches the path, and what the directories on the
/// way and the path show so far.
#[derive(Drop)]
pub(crate) struct Lasting {
    pub path: Path,
    pub ranges: ArrayVec<Range, MOST_TOUCHED>,
    pub way: Shows,
}

impl Lasting {
    /// What an fsync of a path watches from a place on.
    pub(crate) fn new<A: Allocator + Copy>(path: &Path, disk: &Image<A>) -> Lasting
        ensures path { result.path ≡ path.now }
        ensures ranges { result.ranges.items ≡ touched_ranges disk.now (Some 0) (names_of path.now) }
        ensures way { result.way.items ≡ way_shows disk.now (names_of path.now) }
    {
        Lasting {
            path: path.copy(),
            ranges: touched_ranges(disk, path),
            way: way_shows(disk, path),
        }
    }

    /// The same in memory of its own. It fails only when out of memory.
    pub(crate) fn try_copy(&self) -> Result<Lasting, AllocError>
        ensures { IfOk result (λ copy. copy ≡ self.now) }
    {
        Ok(Lasting {
            path: self.path.copy(),
            ranges: self.ranges.clone()?,
            way: shows_copy(&self.way),
        })
    }

    /// The ids that end a promise, with those from `known` on if these patches touch the path. The number of patches
    /// was `known` when it was watched last.
    pub(crate) fn end<A: Allocator + Copy>(
        &mut self,
        ends: u128,
        known: usize,
        after: &Place<'_, A>,
    ) -> u128
        ensures ends { (s next : Tracing) → IsWatchedAt self.old s → IsPlaceOf after.now next
            → known ≡ length s.emitted → result ≡ bit_or ends (ends_by self.old.path self.old.ranges.items s next) }
        ensures watched { (next : Tracing) → IsPlaceOf after.now next → IsWatchedAt self.new next }
        ensures path { self.new.path ≡ self.old.path }
        ensures ranges { self.new.ranges ≡ self.old.ranges }
    {
        let way = way_shows(after.disk, &self.path);
        let is_touched = self.is_touched(&way, known, after.graph);
        self.way = way;
        if is_touched {
            with_ids_between(ends, known, after.graph)
        } else {
            ends
        }
    }

    /// Whether something else is shown on the way now, or one of the patches from number `known` on touches the path.
    fn is_touched<A: Allocator + Copy>(&self, way: &Shows, known: usize, graph: &Graph<A>) -> bool
        ensures { result ≡ (not (are_same_shown self.now.way.items way.now.items)
            || list_any (λ place. list_any (meets_range place) self.now.ranges.items) (drop known (places_of graph.now))) }
    {
        !are_same_shown(self.way.as_slice(), way.as_slice())
            || is_met(self.ranges.as_slice(), known, graph)
    }
}

/// Whether one of the patches from number `known` on changes a byte of the ranges.
fn is_met<A: Allocator + Copy>(ranges: &[Range], known: usize, graph: &Graph<A>) -> bool
    ensures { result ≡ list_any (λ place. list_any (meets_range place) ranges.now) (drop known (places_of graph.now)) }
{
    for id in known..graph.len() {
        if meets(ranges, graph.patch(id)) {
            return true;
        }
    }
    false
}

/// The set with the ids of the patches from number `known` on.
fn with_ids_between<A: Allocator + Copy>(set: u128, known: usize, graph: &Graph<A>) -> u128
    ensures { result ≡ bit_or set (ids_between known (length graph.now)) }
{
    let mut more = set;
    for id in known..graph.len() {
        more = with(more, id);
    }
    more
}
