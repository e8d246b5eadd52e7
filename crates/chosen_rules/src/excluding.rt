//! The rules of a trace that exclude a set of patches.

ghost use Rattle.std.specs.Prelude.{◌<◌, ◌↔◌, ℕ, IsTrue, length};
ghost use Rattle.patch_sets.specs.Sets.{Has};
ghost use Rattle.chosen_rules.specs.Excluded.{MakesWait, WaitsOutside, Excludes, ExcludesAt};

use crash_model::rules::Rule;
use patch_sets::set::{has, with};
use std::alloc::Allocator;
use traced_patches::{Traced, applies};

/// The set of the rules of a trace's ordering that exclude a set of its patches.
pub fn excluding_rules<A: Allocator + Copy>(traced: &Traced<'_, A>, set: u128) -> u128
    ensures { (place : ℕ) → Has result place ↔ ExcludesAt traced.now.emitted traced.now.rules set place }
{
    let rules = traced.ordering().rules.as_slice();
    let mut found = 0;
    for (place, rule) in rules.iter().enumerate() {
        if excludes(traced, rule, set) {
            found = with(found, place);
        }
    }
    found
}

/// Whether a rule excludes a set of patches.
fn excludes<A: Allocator + Copy>(traced: &Traced<'_, A>, rule: &Rule, set: u128) -> bool
    ensures { IsTrue result ↔ Excludes traced.now.emitted rule.now set }
{
    let few = traced.graph().len() <= 128;
    prove!(few);
    for later in 0..traced.len() {
        if has(set, later) && waits_outside(traced, rule, set, later) {
            return true;
        }
    }
    false
}

/// Whether a rule makes a patch wait for one outside a set.
fn waits_outside<A: Allocator + Copy>(
    traced: &Traced<'_, A>,
    rule: &Rule,
    set: u128,
    later: usize,
) -> bool
    requires few { later < 128 }
    requires patch { later < length traced.now.patches }
    requires emitted { later < length traced.now.emitted }
    ensures { IsTrue result ↔ WaitsOutside traced.now.emitted rule.now set later }
{
    for earlier in 0..later {
        if !has(set, earlier) && makes_wait(traced, rule, later, earlier) {
            return true;
        }
    }
    false
}

/// Whether a rule makes a patch wait for an earlier one.
fn makes_wait<A: Allocator + Copy>(
    traced: &Traced<'_, A>,
    rule: &Rule,
    later: usize,
    earlier: usize,
) -> bool
    requires order { earlier < later }
    requires patch { later < length traced.now.patches }
    requires emitted { later < length traced.now.emitted }
    ensures { IsTrue result ↔ MakesWait traced.now.emitted rule.now later earlier }
{
    applies(rule, traced.label(later), traced.label(earlier))
}
