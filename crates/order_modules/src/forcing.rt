//! Which patches a line that waits forces.

ghost use Rattle.std.specs.Prelude.{◌≡◌, ◌≤◌, length, map};
ghost use Rattle.crash_model.specs.Patches.{place, places_of};
ghost use Rattle.crash_model.specs.Waiting.{ids_from, last_op_number, sync_forces};
ghost use Rattle.traced_patches.specs.Labels.{emitted_at, emitted_by, emitted_of};
ghost use Rattle.order_modules.specs.Forcing.{forces_with, has_contents, is_commit_of, is_met_data};
ghost use Rattle.order_modules.specs.Forcing.{is_commit_part, is_contents_part, is_data_part};

use crash_model::modules::Module;
use crash_model::patches::Patch;
use crash_model::ranges::Range;
use crash_model::rules::Part;
use patch_graph::{Graph, MAX_PATCHES};
use patch_sets::set::with;
use path_lookup::meets;
use std::alloc::Allocator;
use traced_patches::Label;

/// The ids of the patches that a line `sync` waits for: all; under a journal the file data and the commits.
pub(crate) fn forced_by_sync(module: Module, labels: &[Label<'_>]) -> u128
    requires { length labels.now ≤ MAX_PATCHES }
    ensures { result ≡ ids_from 0 (sync_forces «module») (map emitted_of labels.now) }
{
    let mut ids = 0;
    for (id, label) in labels.iter().enumerate() {
        if is_forced_by_sync(module, label) {
            ids = with(ids, id);
        }
    }
    ids
}

/// Whether a line `sync` waits for a patch.
fn is_forced_by_sync(module: Module, label: &Label<'_>) -> bool
    ensures { result ≡ sync_forces «module» (emitted_of label.now) }
{
    match module {
        Module::Async | Module::Soft => true,
        Module::Meta | Module::Full => is_file_data(label.part) || is_commit(label.part),
    }
}

/// The ids of the patches that a line `fsync` waits for, given the last operation whose contents are among them: those
/// that meet the ranges of its path; under a journal the file data among them, and that operation's commit.
pub(crate) fn forced_by_fsync<A: Allocator + Copy>(
    module: Module,
    ranges: &[Range],
    last: usize,
    graph: &Graph<A>,
    labels: &[Label<'_>],
) -> u128
    requires { length labels.now ≡ length graph.now }
    ensures { result ≡ ids_from 0 (forces_with «module» ranges.now last) (emitted_by (places_of graph.now) labels.now) }
{
    let mut ids = 0;
    for id in 0..graph.len() {
        if is_forced_by_fsync(module, ranges, last, &labels[id], graph.patch(id)) {
            ids = with(ids, id);
        }
    }
    ids
}

/// Whether a line `fsync` waits for a patch, given the last operation whose contents it waits for.
fn is_forced_by_fsync(
    module: Module,
    ranges: &[Range],
    last: usize,
    label: &Label<'_>,
    patch: &Patch,
) -> bool
    ensures { result ≡ forces_with «module» ranges.now last
        (emitted_at (place patch.now.block patch.now.offset patch.now.new.items) label.now) }
{
    match module {
        Module::Async | Module::Soft => meets(ranges, patch),
        Module::Meta | Module::Full => {
            is_met_data(ranges, label, patch) || is_commit_of(last, label)
        }
    }
}

/// Whether a patch is file data that meet these ranges.
fn is_met_data(ranges: &[Range], label: &Label<'_>, patch: &Patch) -> bool
    ensures { result ≡ is_met_data ranges.now
        (emitted_at (place patch.now.block patch.now.offset patch.now.new.items) label.now) }
{
    is_file_data(label.part) && meets(ranges, patch)
}

/// Whether a patch is the commit of an operation.
fn is_commit_of(op_number: usize, label: &Label<'_>) -> bool
    ensures { result ≡ is_commit_of op_number (emitted_of label.now) }
{
    is_commit(label.part) && label.op_number == op_number
}

/// The last operation of which file data or a change in place meets these ranges, or 0.
pub(crate) fn last_op_number<A: Allocator + Copy>(
    ranges: &[Range],
    graph: &Graph<A>,
    labels: &[Label<'_>],
) -> usize
    requires { length labels.now ≡ length graph.now }
    ensures { result ≡ last_op_number (has_contents ranges.now) (emitted_by (places_of graph.now) labels.now) }
{
    let mut last = 0;
    for id in 0..graph.len() {
        let label = &labels[id];
        if has_contents(ranges, label, graph.patch(id)) {
            last = last.max(label.op_number);
        }
    }
    last
}

/// Whether a patch is file data or a change in place that meets these ranges.
fn has_contents(ranges: &[Range], label: &Label<'_>, patch: &Patch) -> bool
    ensures { result ≡ has_contents ranges.now
        (emitted_at (place patch.now.block patch.now.offset patch.now.new.items) label.now) }
{
    is_of_contents(label.part) && meets(ranges, patch)
}

/// Whether a part is file data that stay out of the journal.
fn is_file_data(part: Part) -> bool
    ensures { result ≡ is_data_part part }
{
    matches!(part, Part::FileData | Part::NewData)
}

/// Whether a part is a commit of the journal.
fn is_commit(part: Part) -> bool
    ensures { result ≡ is_commit_part part }
{
    matches!(part, Part::Commit)
}

/// Whether a part is file data or a change in place.
fn is_of_contents(part: Part) -> bool
    ensures { result ≡ is_contents_part part }
{
    matches!(part, Part::FileData | Part::NewData | Part::InPlace(_))
}
