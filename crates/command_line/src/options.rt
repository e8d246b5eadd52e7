//! The options, as `clap` reads them, and its help.

ghost use Rattle.std.specs.Prelude.{◌≡◌, IfOk};
ghost use Rattle.clap.specs.Words.{app_of};
ghost use Rattle.command_line.specs.Options.{Is, IsOrdered, IsProgram, faults, flag, input, limits, number};
ghost use Rattle.command_line.specs.Options.{program_alone, questions, reports, value, with_rules};

use clap::builder::ValueParser;
use clap::{Arg, ArgAction, Command};
use std::alloc::{AllocError, Global};

const ABOUT: &str =
    "Finds every state that a crash can leave a small file system in, and reports those that its checker rejects \
     after journal replay";

const AFTER: &str = "\
With a rule LATER:EARLIER a patch waits for an earlier one of its operation, with LATER:previous-EARLIER for one of the
operation right before, LATER:before-EARLIER for those of all operations before. Each part is InodeInit, EntrySet,
EntryClear, MapSet, MapClear, InitFile, InitDir, Ptr, LinkUp, LinkDown, InodeFree, PtrClear, NewData, Touch, any of \
these
in place (InPlace), or FileData, Copy, Commit, Done.

Examples:
  printf 'start\\ncreate /a\\n' | crashmap --module async
  printf 'start\\ncreate /a\\nwrite /a\\n' | crashmap --without Ptr:InitFile --explain --decide

Words of reports:
  base      the disk that the lines before `start` build
  closed    a set of patches with every patch that they wait for: what a crash can leave on disk
  in place  a change where it belongs on the disk, and not its copy in the journal

A script has one operation a line (create, write, overwrite, truncate, link, unlink, rename, replace, mkdir, rmdir, with
paths), groups (group A, end, depend B A), lines that wait (sync, fsync P) and that promise (keep P, hold P, spare P Q),
comments (#) and one line `start`: the lines before it build the disk, those after it are explored.

Hints: `./crashmap` says on standard error what helps, such as that a rule orders nothing. It does so on a terminal; in
scripts and CI it does with --hints always, and with --hints never it does not.

Exit status: 0 no failing set, 1 at least one, 2 a refusal (one line on standard error).";

/// The words that `--module` takes.
static MODULES: [&str; 4] = ["async", "soft", "meta", "full"];

/// The program with its options, in the order of help.
pub(crate) fn program<'a>(heap: Global) -> Result<Command<'a>, AllocError>
    ensures { IfOk result IsProgram }
{
    let program = with_input(heap, program_alone(heap))?;
    let program = with_ordering(heap, program)?;
    let program = with_faults(heap, program)?;
    let program = with_limits(heap, program)?;
    let program = with_questions(heap, program)?;
    with_reports(heap, program)
}

/// The program without its options.
fn program_alone<'a>(heap: Global) -> Command<'a>
    ensures { app_of result ≡ program_alone }
{
    Command::new(heap, "crashmap")
        .no_binary_name(true)
        .version("1.0.0")
        .about(ABOUT)
        .after_help(AFTER)
}

/// Adds the script, and the size of its disk.
fn with_input<'a>(heap: Global, program: Command<'a>) -> Result<Command<'a>, AllocError>
    ensures { IfOk result (λ r. app_of r ≡ with_rules (app_of program.entry) input) }
{
    let script = Arg::new(heap, "SCRIPT").help(help_of("SCRIPT"));
    program
        .next_help_heading("What to run")
        .next_display_order(1)
        .arg(script.display_order(0))?
        .arg(number(heap, "blocks", "N", 16, 128).default_value("16"))?
        .arg(number(heap, "journal", "JL", 0, 122).default_value("0"))?
        .arg(flag(heap, "generations"))
}

/// Adds the module, the rules to take out of it and to put in, and how blocks are written.
fn with_ordering<'a>(heap: Global, program: Command<'a>) -> Result<Command<'a>, AllocError>
    ensures { IfOk result (IsOrdered (app_of program.entry)) }
{
    let module = value(heap, "module", "M");
    let modules = MODULES.as_slice();
    let without = value(heap, "without", "RULE");
    program
        .next_help_heading("The ordering")
        .arg(module.value_parser(modules).default_value("soft"))?
        .arg(without.action(ArgAction::Append))?
        .arg(value(heap, "with", "RULE").action(ArgAction::Append))?
        .arg(flag(heap, "whole-blocks"))?
        .arg(flag(heap, "rules"))
}

/// Adds what the checker asks for.
fn with_faults<'a>(heap: Global, program: Command<'a>) -> Result<Command<'a>, AllocError>
    ensures { IfOk result (λ r. app_of r ≡ with_rules (app_of program.entry) faults) }
{
    program
        .next_help_heading("What fails")
        .arg(flag(heap, "strict"))?
        .arg(flag(heap, "atomic"))?
        .arg(flag(heap, "durable"))?
        .arg(value(heap, "faults", "K,.."))
}

/// Adds how many sets are explored, and by how many threads.
fn with_limits<'a>(heap: Global, program: Command<'a>) -> Result<Command<'a>, AllocError>
    ensures { IfOk result (λ r. app_of r ≡ with_rules (app_of program.entry) limits) }
{
    program
        .next_help_heading("How far")
        .arg(number(heap, "limit", "L", 1, 32768).default_value("4096"))?
        .arg(number(heap, "workers", "W", 1, 16).default_value("1"))
}

/// Adds the questions that are asked in place of which closed sets fail. No two of them go together, but that a search
/// can ask for the rules that are enough.
fn with_questions<'a>(heap: Global, program: Command<'a>) -> Result<Command<'a>, AllocError>
    ensures { IfOk result (λ r. app_of r ≡ with_rules (app_of program.entry) questions) }
{
    let decide = flag(heap, "decide");
    let enough = flag(heap, "enough");
    let syncs = flag(heap, "syncs");
    let search = number(heap, "search", "N", 1, 8);
    program
        .arg(decide.conflicts_with("limit")?)?
        .arg(enough.conflicts_with("decide")?.conflicts_with("limit")?)?
        .arg(
            syncs
                .requires_arg("enough")?
                .conflicts_with("decide")?
                .conflicts_with("limit")?
                .conflicts_with("search")?,
        )?
        .arg(search.conflicts_with("decide")?.conflicts_with("limit")?)
}

/// Adds what is in the report, and in which form.
fn with_reports<'a>(heap: Global, program: Command<'a>) -> Result<Command<'a>, AllocError>
    ensures { IfOk result (λ r. app_of r ≡ with_rules (app_of program.entry) reports) }
{
    let numbers = flag(heap, "numbers");
    program
        .next_help_heading("How to read it")
        .arg(flag(heap, "explain"))?
        .arg(flag(heap, "json"))?
        .arg(numbers.requires_arg("json")?)?
        .arg(flag(heap, "options"))
}

/// What help says of an option.
fn help_of(name: &str) -> &'static str {
    match name {
        "SCRIPT" => "The script to read; without it standard input is read",
        "blocks" => "Blocks of the disk, 16 to 128",
        "journal" => "Blocks of the journal, 0 to N - 6",
        "generations" =>
            "Count how often each inode was freed, so that the data of a deleted file are not taken for a new file's",
        "module" =>
            "What orders the writes: nothing, soft updates, a metadata journal, a full journal",
        "without" => "A rule to take out of the module's, up to 16 times",
        "with" => "A rule to put in, up to 16 times",
        "whole-blocks" =>
            "Write each block with all its changes in memory, so that a change waits for each earlier one of its block",
        "rules" => "List the module's rules and what a rule can name, and stop",
        "strict" =>
            "Also fail if a crash loses a file or directory that is there before `start` and that the script never \
             removes, or leaves a directory without its block",
        "atomic" =>
            "Also fail if a crash leaves an operation half done: the disk is not the one after some number of whole \
             operations",
        "durable" =>
            "Also fail if a path does not show what an fsync of it made durable, until a later operation touches it",
        "faults" => "Count only faults of these numbers, 1 to 10, in ascending order",
        "limit" => "Most closed sets to explore, 1 to 32768",
        "workers" => "Threads that explore or decide, 1 to 16",
        "decide" =>
            "Find each fault of any closed set, with the first set that has it, however many closed sets there are",
        "enough" =>
            "Find the smallest sets of the ordering's rules that are enough, and each group of which one rule is \
             needed, with the crash that comes without it; with --search for all workloads together, except those \
             that fail already",
        "syncs" =>
            "With --enough ask about the script's lines `sync` and `fsync` in place of the rules: which of them have \
             to wait, and which crash comes without them",
        "search" =>
            "Try every workload of up to N operations, 1 to 8, from the script's lines after `start`, and show the \
             first that fails for each kind of fault",
        "numbers" =>
            "With --json also give the numbers in the text of each fault by name, the number of the form of reports, \
             and the size of the disk",
        "explain" => "Say what each patch is, why it waits for others, and what replay changes",
        "json" => "Report as JSON in place of text",
        "options" => "List the options in a form for other programs, and stop",
        _ => "",
    }
}

/// An option without a value.
fn flag<'a>(heap: Global, name: &'a str) -> Arg<'a>
    ensures { Is result (flag name.entry.now) }
{
    Arg::new(heap, name)
        .long(name)
        .action(ArgAction::SetTrue)
        .help(help_of(name))
}

/// An option with a value, which help calls by the symbol.
fn value<'a>(heap: Global, name: &'a str, symbol: &'a str) -> Arg<'a>
    ensures { Is result (value name.entry.now) }
{
    Arg::new(heap, name)
        .long(name)
        .value_name(symbol)
        .action(ArgAction::Set)
        .help(help_of(name))
}

/// An option with a number from `least` to `most`.
fn number<'a>(heap: Global, name: &'a str, symbol: &'a str, least: u64, most: u64) -> Arg<'a>
    ensures { Is result (number name.entry.now least most) }
{
    value(heap, name, symbol).value_parser(ValueParser::Unsigned(least, most))
}

/// The options, one a line: the option's word, what help calls its value if one follows it, and then, after `not with`,
/// the options that it does not go with. Those that `clap` adds, help and the version, are left out.
pub(crate) fn option_list(heap: Global, program: &Command<'_>) -> Result<String, AllocError> {
    let mut list = String::new(heap);
    for option in program.get_arguments() {
        if option.get_short().is_none() {
            let shown = format!(in heap; "{option}")?;
            for part in shown.chars() {
                if !matches!(part, '<' | '>' | '[' | ']') {
                    list.push(part)?;
                }
            }
            write!(list, "{}\n", others(option.get_id()))?;
        }
    }
    Ok(list)
}

/// What the list says of the options that an option does not go with. `clap` does not give them back.
fn others(option: &str) -> &'static str {
    match option {
        "decide" => " not with --limit",
        "enough" | "search" => " not with --decide --limit",
        "syncs" => " not with --decide --limit --search",
        _ => "",
    }
}
