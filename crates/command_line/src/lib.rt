//! The command line.
#![tactic(auto)]

ghost use Rattle.std.specs.Prelude.{IfOk};
ghost use Rattle.clap.specs.Walk.{texts};
ghost use Rattle.clap.specs.Words.{found_of, rows_of};
ghost use Rattle.command_line.specs.Given.{AreLawful};
ghost use Rattle.command_line.specs.Options.{IsProgram};
ghost use Rattle.command_line.specs.Ranges.{IsInRanges};
ghost use Rattle.command_line.specs.Said.{AreFound, AreSettingsSaid, IsCallSaid, IsParsed, IsSaid};

mod faults;
mod given_rules;
mod options;
mod rule_page;
mod values;

use crate::faults::WordFault;
use crate::given_rules::{check_rules, given_rules};
use crate::options::{option_list, program};
use crate::rule_page::rules_page;
use crate::values::{counted_of, module_of, number_of, question_of};
use clap::error::ErrorKind;
use clap::{ArgMatches, Command, Error};
use crash_model::settings::Settings;
use question_model::Request;
use std::alloc::{AllocError, Global};

/// What the words of a command line ask for: a request about the script in a file, or else on standard input.
#[derive(Debug, PartialEq, Eq, Drop)]
pub struct Call<'a> {
    pub script: Option<&'a str>,
    pub request: Request,
}

/// Reads the words of a command line, without the program's name.
///
/// Each option has the value that the words give it, or else its default. Each rule to take out is one of the module's,
/// and no rule is given twice, to one option or to both. A fault of the command line, a request for a page such as
/// help, and out of memory are `clap`'s errors.
pub fn settings_of<'a>(heap: Global, words: &'a [&'a str]) -> Result<Call<'a>, Error>
    ensures ranges { IfOk result (λ call. IsInRanges call.request) }
    ensures said { IfOk result (IsCallSaid (texts words.now)) }
    ensures lawful { IfOk result (λ call. AreLawful call.request.settings) }
{
    let mut program = program(heap)?;
    let matches = matches_of(&mut program, words)?;
    if let Some(page) = page_shown(heap, &program, &matches)? {
        return Err(page);
    }
    match call_of(&matches) {
        Ok(call) => Ok(call),
        Err(fault) => {
            let message = format!(in heap; "{fault}")?;
            Err(program.error(ErrorKind::ValueValidation, message.as_str())?)
        }
    }
}

/// What the program finds in the words.
fn matches_of<'a>(program: &mut Command<'a>, words: &'a [&'a str]) -> Result<ArgMatches<'a>, Error>
    requires { IsProgram program.old }
    ensures found { IfOk result (λ m. AreFound (texts words.now) (rows_of (found_of m))) }
    ensures parsed { IfOk result (λ m. IsParsed (rows_of (found_of m))) }
{
    program.try_get_matches_from_mut(words)
}

/// The page that is asked for in place of an answer, which is shown as help is: the module's rules, or the options.
fn page_shown(
    heap: Global,
    program: &Command<'_>,
    matches: &ArgMatches<'_>,
) -> Result<Option<Error>, AllocError>
    requires { IsParsed (rows_of (found_of matches.now)) }
{
    let page = if matches.get_flag("options") {
        option_list(heap, program)?
    } else if matches.get_flag("rules") {
        rules_page(heap, module_of(matches))?
    } else {
        return Ok(None);
    };
    Ok(Some(help_with(heap, page.as_str())?))
}

/// The page, as help of the command.
fn help_with(heap: Global, page: &str) -> Result<Error, AllocError> {
    let mut command = Command::new(heap, "crashmap").override_help(page);
    match command.try_get_matches_from_mut(&["crashmap", "--help"]) {
        Ok(_) => command.error(ErrorKind::DisplayHelp, page),
        Err(shown) => Ok(shown),
    }
}

/// What is asked for by what was found in the words.
fn call_of<'a>(matches: &ArgMatches<'a>) -> Result<Call<'a>, WordFault<'a>>
    requires { IsParsed (rows_of (found_of matches.now)) }
    ensures ranges { IfOk result (λ call. IsInRanges call.request) }
    ensures said { IfOk result (IsSaid (rows_of (found_of matches.now))) }
    ensures lawful { IfOk result (λ call. AreLawful call.request.settings) }
{
    Ok(Call {
        script: matches.get_str("SCRIPT"),
        request: Request {
            settings: settings_in(matches)?,
            question: question_of(matches),
            workers: number_of(matches, "workers"),
        },
    })
}

/// The settings that were found in the words.
fn settings_in<'a>(matches: &ArgMatches<'a>) -> Result<Settings, WordFault<'a>>
    requires { IsParsed (rows_of (found_of matches.now)) }
    ensures said { IfOk result (AreSettingsSaid (rows_of (found_of matches.now))) }
    ensures lawful { IfOk result AreLawful }
{
    let module = module_of(matches);
    let without = given_rules(matches, "without")?;
    let with = given_rules(matches, "with")?;
    let (taken_out, put_in) = (without.as_slice(), with.as_slice());
    let why = "the module has no such rule; --rules lists its rules";
    check_rules("without", taken_out, module.rules(), true, why)?;
    check_rules("with", put_in, taken_out, false, "'--without' takes it out")?;
    Ok(Settings {
        module,
        without,
        with,
        blocks: number_of(matches, "blocks"),
        journal: number_of(matches, "journal"),
        json: matches.get_flag("json"),
        numbers: matches.get_flag("numbers"),
        explain: matches.get_flag("explain"),
        whole_blocks: matches.get_flag("whole-blocks"),
        generations: matches.get_flag("generations"),
        strict: matches.get_flag("strict"),
        atomic: matches.get_flag("atomic"),
        durable: matches.get_flag("durable"),
        counted: counted_of(matches)?,
    })
}
