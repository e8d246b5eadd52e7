//! The rules to take out of an ordering and to put in.

ghost use Rattle.std.specs.Prelude.{◌≡◌, ◌<◌, false, IfOk, OnOk, length, map};
ghost use Rattle.std.specs.List.{All};
ghost use Rattle.clap.specs.Words.{found_of, rows_of};
ghost use Rattle.crash_model.specs.RuleTexts.{rule_text};
ghost use Rattle.crash_model.specs.ChosenRules.{has_rule};
ghost use Rattle.command_line.specs.Given.{AreOnce, words_said};

use crate::faults::{Value, WordFault};
use clap::ArgMatches;
use crash_model::rule_lists::{RuleList, has_rule};
use crash_model::rules::Rule;

/// The rules that an option is given, in their order: each once, and at most 16.
pub(crate) fn given_rules<'a>(
    matches: &ArgMatches<'a>,
    option: &'static str,
) -> Result<RuleList, WordFault<'a>>
    ensures words { IfOk result (λ rules. map rule_text rules.items
        ≡ words_said option.now (rows_of (found_of matches.now))) }
    ensures once { IfOk result (λ rules. AreOnce rules.items) }
{
    let mut rules = RuleList::new();
    let words = matches.get_strs(option).unwrap_or(&[]);
    for word in words {
        match next_rule(&rules, word) {
            Ok(rule) => rules.push(rule),
            Err(why) => {
                let value = Value::Word(word);
                return Err(WordFault { option, value, why });
            }
        }
    }
    Ok(rules)
}

/// The rule that the word spells, which can follow these rules, or why none can.
fn next_rule(rules: &RuleList, word: &str) -> Result<Rule, &'static str>
    ensures word { IfOk result (λ rule. word.now ≡ rule_text rule) }
    ensures new { IfOk result (λ rule. has_rule rules.now.items rule ≡ false) }
    ensures room { OnOk result (length rules.now.items < 16) }
{
    let Some(rule) = Rule::read(word) else {
        return Err("it is no rule; --rules lists what a rule can name");
    };
    if has_rule(rules.as_slice(), rule) {
        return Err("it is given twice");
    }
    if rules.is_full() {
        return Err("more than 16 rules are given");
    }
    Ok(rule)
}

/// Refuses the first rule of an option that the others have, or that they do not have if `wanted` is set.
pub(crate) fn check_rules<'a>(
    option: &'a str,
    rules: &[Rule],
    others: &[Rule],
    wanted: bool,
    why: &'a str,
) -> Result<(), WordFault<'a>>
    ensures { OnOk result (All (λ rule. has_rule others.now rule ≡ wanted) rules.now) }
{
    for rule in rules {
        if has_rule(others, *rule) != wanted {
            let value = Value::Rule(*rule);
            return Err(WordFault { option, value, why });
        }
    }
    Ok(())
}
