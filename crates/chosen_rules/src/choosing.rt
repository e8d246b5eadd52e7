//! Orderings with some of the rules of another.

ghost use Rattle.std.specs.Prelude.{◌≡◌};
ghost use Rattle.question_model.specs.Enough.{rules_in};
ghost use Rattle.chosen_rules.specs.Sublists.{all_of};

use arrayvec::ArrayVec;
use crash_model::orderings::Ordering;
use patch_sets::set::has;

/// The ordering with only the rules of a set, in their order.
pub fn rules_in(ordering: &Ordering, set: u128) -> Ordering
    ensures module { result.«module» ≡ ordering.now.«module» }
    ensures rules { result.rules.items ≡ rules_in ordering.now.rules.items set }
    ensures whole { result.whole_blocks ≡ ordering.now.whole_blocks }
{
    let all = ordering.rules.as_slice();
    let mut rules = ArrayVec::new();
    for (place, rule) in all.iter().enumerate() {
        if has(set, place) {
            rules.push(*rule);
        }
    }
    Ordering {
        module: ordering.module,
        rules,
        whole_blocks: ordering.whole_blocks,
    }
}

/// The set of all rules of an ordering.
pub fn all_rules(ordering: &Ordering) -> u128
    ensures { result ≡ all_of ordering.now.rules.items }
{
    (1 << ordering.rules.len()) - 1
}
