//! What a patch is of its operation, and which patches wait for which.

ghost use Rattle.std.specs.Prelude.{◌≡◌, ◌<◌, ◌≤◌, ◌||◌, length};
ghost use Rattle.std.specs.List.{list_any};
ghost use Rattle.crash_model.specs.Trace.{is_same_group, groups_depend, waits_for, applies};
ghost use Rattle.crash_model.specs.ChosenWaits.{forced_before};
ghost use Rattle.traced_patches.specs.Labels.{group_by, links_by, emitted_of, waits_by};

use crash_model::names::GroupName;
use crash_model::operations::Op;
use crash_model::rules::{Part, Rule};
use crash_model::steps::Step;
use patch_sets::set::has;

/// Where a patch comes from: its operation, the line that has it in the script, the group that was open, and the ids
/// that lines before it wait for, as a set.
#[derive(Clone, Copy)]
pub struct Origin<'a> {
    pub line: usize,
    pub op: &'a Op,
    pub group: Option<&'a GroupName>,
    pub waits_for: u128,
}

/// What a patch is: its part, the number of its operation, from 1, and where it comes from.
#[derive(Clone, Copy)]
pub struct Label<'a> {
    pub part: Part,
    pub op_number: usize,
    pub origin: Origin<'a>,
}

/// `depend`: the patches of the group `later` wait for those of the group `earlier`.
#[derive(Clone, Copy)]
pub struct Link<'a> {
    pub later: &'a GroupName,
    pub earlier: &'a GroupName,
}

/// A line `sync` or `fsync`, and the ids that it waits for, as a set.
#[derive(Clone, Copy)]
pub struct Wait<'a> {
    pub step: &'a Step,
    pub ids: u128,
}

/// Whether a patch waits for an earlier one, of this id: by the groups, by a line between them, or by a rule.
pub fn waits(
    rules: &[Rule],
    links: &[Link<'_>],
    later: &Label<'_>,
    id: usize,
    earlier: &Label<'_>,
) -> bool
    requires { id < 128 }
    ensures { result
        ≡ (groups_depend (links_by links.now) (emitted_of later.now) (emitted_of earlier.now)
        || waits_for (emitted_of later.now) id
        || list_any (λ rule. applies rule (emitted_of later.now) (emitted_of earlier.now)) rules.now) }
{
    is_linked(links, later, earlier) || is_forced(later, id) || is_ordered(rules, later, earlier)
}

/// Whether a line before a patch waits for the patch of an id.
pub fn is_forced(later: &Label<'_>, id: usize) -> bool
    requires { id < 128 }
    ensures { result ≡ waits_for (emitted_of later.now) id }
{
    has(later.origin.waits_for, id)
}

/// Whether any rule makes a patch wait for an earlier one.
fn is_ordered(rules: &[Rule], later: &Label<'_>, earlier: &Label<'_>) -> bool
    ensures { result ≡ list_any (λ rule. applies rule (emitted_of later.now) (emitted_of earlier.now)) rules.now }
{
    for rule in rules {
        if applies(rule, later, earlier) {
            return true;
        }
    }
    false
}

/// Whether a rule makes a patch wait for an earlier one.
pub fn applies(rule: &Rule, later: &Label<'_>, earlier: &Label<'_>) -> bool
    ensures { result ≡ applies rule.now (emitted_of later.now) (emitted_of earlier.now) }
{
    rule.later.has(later.part)
        && rule.earlier.has(earlier.part)
        && rule.scope.has(later.op_number, earlier.op_number)
}

/// Whether a link makes a patch of the later label's group wait for one of the earlier label's.
pub fn is_linked(links: &[Link<'_>], later: &Label<'_>, earlier: &Label<'_>) -> bool
    ensures { result ≡ groups_depend (links_by links.now) (emitted_of later.now) (emitted_of earlier.now) }
{
    for link in links {
        if is_in_group(later.origin.group, link.later)
            && is_in_group(earlier.origin.group, link.earlier)
        {
            return true;
        }
    }
    false
}

/// Whether the group that was open has this name.
pub fn is_in_group(group: Option<&GroupName>, name: &GroupName) -> bool
    ensures { result ≡ is_same_group (group_by group.entry) name.now }
{
    match group {
        Some(group) => group.same(name),
        None => false,
    }
}

/// What lines of a set force that stand before a line, as a set. A line that waits is in the set if its place among all
/// of them is.
pub fn forced_before(waits: &[Wait<'_>], chosen: u128, line: usize) -> u128
    requires { length waits.now ≤ 128 }
    ensures { result ≡ forced_before (waits_by waits.now) chosen line }
{
    let mut forced = 0;
    for (place, wait) in waits.iter().enumerate() {
        if has(chosen, place) && wait.step.line < line {
            forced |= wait.ids;
        }
    }
    forced
}
