//! Lists of rules.

ghost use Rattle.std.specs.Prelude.{◌≡◌, ◌≤◌, length};
ghost use Rattle.crash_model.specs.ChosenRules.{rules_in_both, rules_in_first, has_rule};

use crate::rules::Rule;
use arrayvec::ArrayVec;

/// How many rules can be taken out of an ordering, and how many put in.
pub const MAX_GIVEN: usize = 16;

/// Some rules of an ordering.
pub type RuleList = ArrayVec<Rule, MAX_GIVEN>;

/// Whether the rule is among these.
pub fn has_rule(rules: &[Rule], rule: Rule) -> bool
    ensures { result ≡ has_rule rules.now rule }
{
    rules.iter().any(|other| rule.same(*other))
}

/// The rules that the others have too.
pub(crate) fn rules_in_both(rules: &[Rule], others: &[Rule]) -> RuleList
    requires { length rules.now ≤ MAX_GIVEN }
    ensures { result.items ≡ rules_in_both rules.now others.now }
{
    let mut both = ArrayVec::new();
    for rule in rules {
        if has_rule(others, *rule) {
            both.push(*rule);
        }
    }
    both
}

/// The rules that the others do not have.
pub(crate) fn rules_in_first(rules: &[Rule], others: &[Rule]) -> RuleList
    requires { length rules.now ≤ MAX_GIVEN }
    ensures rules { result.items ≡ rules_in_first rules.now others.now }
    ensures few { length result.items ≤ length rules.now }
{
    let mut first = ArrayVec::new();
    for rule in rules {
        if !has_rule(others, *rule) {
            first.push(*rule);
        }
    }
    first
}
