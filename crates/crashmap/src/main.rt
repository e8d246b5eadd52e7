//! The program: crash states of a small file system, from a script.
#![tactic(auto)]

ghost use Rattle.command_line.specs.Ranges.{IsInRanges};

use byte_io::standard::Counted;
use command_line::{Call, settings_of};
use crash_model::refusals::RunFault;
use crash_text::answer::{answer_call, print_clap, refuse, refuse_words};
use crash_text::host::Host;
use crash_text::progress::Progress;
use question_model::Question;
use std::alloc::{AllocError, Global};
use std::io::{IsTerminal, Stderr, Stdin, Stdout};
use std::process::ExitCode;
use std::rt::{Clock, Env, Files};
use std::sync::Wait;
use std::thread::Threads;
use std::{env, io};

/// The words of the command line, the program's own name first.
fn words_of<R: Env + AllocGlobal>(rt: &R) -> io::Result<Vec<String>> {
    let mut words = Vec::new(rt.alloc());
    for word in env::args(rt)? {
        words.push(word)?;
    }
    Ok(words)
}

/// The same as texts, without the program's name.
fn texts_of<'a>(heap: Global, words: &'a [String]) -> Result<Vec<&'a str>, AllocError> {
    let mut texts = Vec::new(heap);
    for word in words.iter().skip(1) {
        texts.push(word.as_str())?;
    }
    Ok(texts)
}

/// The standard streams.
#[derive(Clone, Copy)]
struct Streams {
    input: Stdin,
    out: Stdout,
    err: Stderr,
}

/// Answers a call. Its progress is shown on a terminal.
fn answer<R>(rt: &R, streams: Streams, call: &Call<'_>) -> u8
where
    R: AllocGlobal + Clock + Files + Threads + Wait + Sync,
    requires call { IsInRanges call.now.request }
{
    let Streams {
        input,
        out,
        mut err,
    } = streams;
    let mut progress = Progress::new(rt, err, err.is_terminal());
    if matches!(
        call.request.question,
        Question::Search(_) | Question::SearchRules(_)
    ) {
        progress = progress.of_workloads();
    }
    let host = Host::new(rt);
    let (mut source, mut sink) = (Counted::new(input), Counted::new(out));
    answer_call(&host, call, &mut source, &mut sink, &mut err, &progress)
}

fn main(rt: HostRuntime) -> ExitCode {
    let heap = rt.alloc();
    let streams = Streams {
        input: rt.stdin(),
        out: rt.stdout(),
        err: rt.stderr(),
    };
    let Streams {
        mut out,
        mut err,
        ..
    } = streams;
    let words = match words_of(&rt) {
        Ok(words) => words,
        Err(error) => return ExitCode::from(refuse_words(&mut err, &error)),
    };
    let Ok(texts) = texts_of(heap, &words) else {
        return ExitCode::from(refuse(&mut err, RunFault::OutOfMemory));
    };
    ExitCode::from(match settings_of(heap, &texts) {
        Ok(call) => answer(&rt, streams, &call),
        Err(error) => print_clap(&mut out, &mut err, &error),
    })
}
