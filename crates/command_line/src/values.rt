//! The values of the options that take one, and what the flags ask for.

ghost use Rattle.std.specs.Prelude.{◌≡◌, ◌^◌, ℕ, IfOk, IfSome, Some, codes};
ghost use Rattle.clap.specs.Words.{found_of, rows_of};
ghost use Rattle.command_line.specs.Said.{AreFaultsSaid, IsModuleSaid, IsNumberWithin, IsParsed, IsQuestionSaid};
ghost use Rattle.command_line.specs.Said.{faults_in, number_in, number_said};

use crate::faults::{Value, WordFault};
use clap::ArgMatches;
use crash_model::fault_kind::KINDS;
use crash_model::modules::Module;
use question_model::{Question, SetLimit, WorkloadLength};

/// The number of an option that has a default.
pub(crate) fn number_of(matches: &ArgMatches<'_>, name: &str) -> usize
    requires { (least : ℕ) × (most : ℕ) × IsNumberWithin least most name.now (rows_of (found_of matches.now)) }
    ensures { number_said name.now (rows_of (found_of matches.now)) ≡ Some result }
{
    match matches.get_one::<usize>(name) {
        Some(number) => number,
        None => unreachable!(),
    }
}

/// The numbers of the faults that count, as a set, if they are given.
pub(crate) fn counted_of<'a>(matches: &ArgMatches<'a>) -> Result<Option<u16>, WordFault<'a>>
    ensures { IfOk result (AreFaultsSaid (rows_of (found_of matches.now))) }
{
    let Some(word) = matches.get_str("faults") else {
        return Ok(None);
    };
    if let Some(counted) = fault_numbers(word) {
        return Ok(Some(counted));
    }
    let (option, value) = ("faults", Value::Word(word));
    let why = "numbers from 1 to 10, each above the one before, with a comma between two";
    Err(WordFault { option, value, why })
}

/// The set of the numbers in a word: from 1 to `KINDS`, each above the one before, with a comma between two.
fn fault_numbers(word: &str) -> Option<u16>
    ensures { IfSome result (λ counted. counted ≡ faults_in word.now) }
{
    let mut counted: u16 = 0;
    for piece in word.split(',') {
        let bit = fault_bit(piece)?;
        if counted >= bit {
            return None;
        }
        counted |= bit;
    }
    Some(counted)
}

/// The set that has only the number of a kind of fault, which is written in digits, the first of them no zero.
fn fault_bit(word: &str) -> Option<u16>
    ensures { IfSome result (λ bit. bit ≡ 2 ^ number_in word.now) }
{
    let is_plain = !word.starts_with('+') && !word.starts_with('0');
    match word.parse::<usize>() {
        Ok(number) if is_plain && number <= KINDS => Some(1 << number),
        _ => None,
    }
}

/// The module given, else soft updates.
pub(crate) fn module_of(matches: &ArgMatches<'_>) -> Module
    requires { IsParsed (rows_of (found_of matches.now)) }
    ensures { IsModuleSaid (rows_of (found_of matches.now)) result }
{
    match matches.get_str("module") {
        Some("async") => Module::Async,
        Some("meta") => Module::Meta,
        Some("full") => Module::Full,
        _ => Module::Soft,
    }
}

/// The question: which sets fail, unless `--decide`, `--enough`, `--enough --syncs`, `--search` or `--search --enough`
/// asks another.
pub(crate) fn question_of(matches: &ArgMatches<'_>) -> Question
    requires { IsParsed (rows_of (found_of matches.now)) }
    ensures { IsQuestionSaid (rows_of (found_of matches.now)) result }
{
    if matches.get_flag("decide") {
        return Question::Decide;
    }
    match (longest_workload(matches), matches.get_flag("enough")) {
        (Some(longest), true) => Question::SearchRules(longest),
        (Some(longest), false) => Question::Search(longest),
        (None, true) if matches.get_flag("syncs") => Question::EnoughLines,
        (None, true) => Question::Enough,
        (None, false) => Question::FailingSets(limit_of(matches)),
    }
}

/// How many operations the longest workloads have, if workloads are to be searched.
fn longest_workload(matches: &ArgMatches<'_>) -> Option<WorkloadLength>
    requires { IsParsed (rows_of (found_of matches.now)) }
    ensures { result ≡ number_said (codes "search") (rows_of (found_of matches.now)) }
{
    WorkloadLength::new(matches.get_one::<usize>("search")?)
}

/// The most closed sets to explore.
fn limit_of(matches: &ArgMatches<'_>) -> SetLimit
    requires { IsParsed (rows_of (found_of matches.now)) }
    ensures { number_said (codes "limit") (rows_of (found_of matches.now)) ≡ Some result }
{
    match SetLimit::new(number_of(matches, "limit")) {
        Some(limit) => limit,
        None => unreachable!(),
    }
}
