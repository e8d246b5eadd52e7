//! The lines of a trace that wait and exclude a fault.

ghost use Rattle.std.specs.Prelude.{◌<◌, ◌≤◌, ◌↔◌, ℕ, IsTrue, length};
ghost use Rattle.patch_sets.specs.Sets.{Has};
ghost use Rattle.traced_patches.specs.Labels.{wait_by};
ghost use Rattle.chosen_rules.specs.ExcludedBy.{HasBehind, HoldsBack, DelaysPromise, ExcludesFault};
ghost use Rattle.chosen_rules.specs.ExcludedBy.{ExcludesFaultAt};

use crash_model::fault::Fault;
use patch_sets::ends::{difference, lowest};
use patch_sets::set::{has, is_subset, with};
use question_model::DecidedFault;
use std::alloc::Allocator;
use traced_patches::{Traced, Wait};

/// The set of the lines that wait that exclude a fault of a set of patches.
///
/// A line excludes it if it makes a patch of the set wait for one that the set lacks. It also does if the fault is a
/// broken promise of a later line, and the set lacks what the line forces.
pub fn excluding_lines<A: Allocator + Copy>(traced: &Traced<'_, A>, found: &DecidedFault) -> u128
    requires few { length traced.now.waits ≤ 64 }
    ensures { (place : ℕ) → Has result place
        ↔ ExcludesFaultAt traced.now.emitted traced.now.waits found.now.first found.now.fault place }
{
    let waits = traced.waits();
    let mut lines = 0;
    for (place, wait) in waits.iter().enumerate() {
        if excludes_fault(traced, found, wait) {
            lines = with(lines, place);
        }
    }
    lines
}

/// Whether a line that waits excludes a fault of a set.
fn excludes_fault<A: Allocator + Copy>(
    traced: &Traced<'_, A>,
    found: &DecidedFault,
    wait: &Wait<'_>,
) -> bool
    ensures { IsTrue result ↔ ExcludesFault traced.now.emitted found.now.first found.now.fault (wait_by wait.now) }
{
    holds_back(traced, found.first, wait) || delays_promise(found, wait)
}

/// Whether a line makes a patch of a set wait for an earlier one that the set lacks.
fn holds_back<A: Allocator + Copy>(traced: &Traced<'_, A>, set: u128, wait: &Wait<'_>) -> bool
    ensures { IsTrue result ↔ HoldsBack traced.now.emitted set (wait_by wait.now) }
{
    let Some(missing) = lowest(difference(wait.ids, set)) else {
        return false;
    };
    has_behind(traced, set, missing, wait.step.line)
}

/// Whether a patch of a set comes behind that of an id, and its operation behind a line.
fn has_behind<A: Allocator + Copy>(
    traced: &Traced<'_, A>,
    set: u128,
    id: usize,
    line: usize,
) -> bool
    ensures { IsTrue result ↔ HasBehind traced.now.emitted set id line }
{
    let few = traced.graph().len() <= 128;
    prove!(few);
    for later in 0..traced.len() {
        if has(set, later) && id < later && line < traced.label(later).origin.line {
            return true;
        }
    }
    false
}

/// Whether a fault is of a promise behind a line, of which the set lacks an id that the line forces.
fn delays_promise(found: &DecidedFault, wait: &Wait<'_>) -> bool
    ensures { IsTrue result ↔ DelaysPromise found.now.first found.now.fault (wait_by wait.now) }
{
    match found.fault {
        Fault::BrokenPromise { line } => {
            wait.step.line <= line && !is_subset(wait.ids, found.first)
        }
        _ => false,
    }
}
