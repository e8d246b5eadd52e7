//! All that the program does, over any reader and writers.

ghost use Rattle.std.specs.Prelude.{◌≡◌, ◌+◌, ◌-◌, ◌^◌, ◌<◌, ◌≤◌, ◌⊎◌, IsSome, IfOk, OnErr, Some, min};
ghost use Rattle.std.specs.Io.KnownBytes.{Keeps};
ghost use Rattle.command_line.specs.Ranges.{IsInRanges};
ghost use Rattle.crash_text.specs.Served.{IsServed, IsWhole};
ghost use Rattle.crash_text.specs.Status.{IsServedFailing, script_of};

use crate::host::Host;
use crate::serve::serve_script;
use byte_io::sink::Sink;
use byte_io::source::{Source, read_to_end};
use byte_io::standard::Counted;
use clap::error::ErrorKind;
use command_line::{Call, settings_of};
use crash_model::refusals::RunFault;
use explorers::{Gate, OpenGate};
use question_model::Request;
use std::alloc::Allocator;
use std::fs::File;
use std::io::{self, Read, Write};
use std::rt::Files;
use std::sync::Wait;
use std::thread::Threads;

/// The exit status of a refusal, and of a fault of the command line.
const REFUSED: u8 = 2;

/// Answers a command line, and gives the exit status: 0 with no failing set or fault, 1 with one, 2 with a refusal.
///
/// `words` leave out the program's name. It reads the script that they name, else `input`, writes the report to
/// `out`, and a refusal, as one line, or a fault of the command line to `err`. A request for help or for the version
/// is printed on `out`, with status 0.
pub fn answer<'a, R, A, I, O, E>(
    host: &Host<'_, R, A>,
    words: &'a [&'a str],
    input: &mut I,
    out: &mut O,
    err: &mut E,
) -> u8
where
    R: Files + Threads + Wait + Sync,
    A: Allocator + Copy + Send + Sync,
    I: Read,
    O: Write,
    E: Write,
    ensures { result ≤ 2 }
{
    match settings_of(host.heap, words) {
        Ok(call) => {
            let (mut source, mut sink) = (Counted::new(input), Counted::new(out));
            answer_call(host, &call, &mut source, &mut sink, err, &OpenGate)
        }
        Err(error) => print_clap(out, err, &error),
    }
}

/// Serves the script that the call names, else the source, prints a refusal to `err`, and gives the exit status.
///
/// The gate gets each claim of a worker on a board, and the progress of the run. The statuses 0 and 1 mean that the
/// sink took the whole report on the script: 0 if it has no failing set or fault, 1 if it has one. With 2 the sink took
/// nothing, unless it failed itself. A named file's bytes are not known: the report is on the bytes that it gave, and
/// the source is not read.
pub fn answer_call<R, A, S, K, E, G>(
    host: &Host<'_, R, A>,
    call: &Call<'_>,
    source: &mut S,
    sink: &mut K,
    err: &mut E,
    gate: &G,
) -> u8
where
    R: Files + Threads + Wait + Sync,
    A: Allocator + Copy + Send + Sync,
    S: Source,
    K: Sink,
    E: Write,
    G: Gate + Sync,
    requires call { IsInRanges call.now.request }
    requires source { S.failures source.old < 2 ^ 64 - 1 }
    requires sink { K.failures sink.old < 2 ^ 64 - 1 }
    ensures known { result ≤ 2 }
    ensures clean { result ≡ 0
        → IsServed (script_of call.now (S.coming source.old)) call.now.request 0 (K.taken sink.old)
        (K.taken sink.new) }
    ensures failing { result ≡ 1
        → IsServedFailing (script_of call.now (S.coming source.old)) call.now.request (K.taken sink.old)
        (K.taken sink.new) }
    ensures refused { result ≡ 2
        → Keeps (K.taken sink.old) (K.taken sink.new) ⊎ (K.failures sink.new ≡ K.failures sink.old + 1) }
    ensures unread { IsSome call.now.script → source.new ≡ source.old }
{
    match read_call(host, call, source) {
        Ok(script) => answer_script(host, &call.request, script.as_slice(), sink, err, gate),
        Err(fault) => refuse(err, fault),
    }
}

/// Serves the script, prints a refusal to `err`, and gives the exit status, as [`answer_call`] does.
fn answer_script<R, A, K, E, G>(
    host: &Host<'_, R, A>,
    request: &Request,
    script: &[u8],
    sink: &mut K,
    err: &mut E,
    gate: &G,
) -> u8
where
    R: Files + Threads + Wait + Sync,
    A: Allocator + Copy + Send + Sync,
    K: Sink,
    E: Write,
    G: Gate + Sync,
    requires ranges { IsInRanges request.now }
    requires sink { K.failures sink.old < 2 ^ 64 - 1 }
    ensures known { result ≤ 2 }
    ensures clean { result ≡ 0
        → IsServed (Some script.now) request.now 0 (K.taken sink.old) (K.taken sink.new) }
    ensures failing { result ≡ 1
        → IsServedFailing (Some script.now) request.now (K.taken sink.old) (K.taken sink.new) }
    ensures refused { result ≡ 2
        → Keeps (K.taken sink.old) (K.taken sink.new) ⊎ (K.failures sink.new ≡ K.failures sink.old + 1) }
{
    match serve_script(host, script, sink, request, gate) {
        Ok(number) => status_of(number),
        Err(fault) => {
            gate.ended();
            refuse(err, fault)
        }
    }
}

/// The exit status of a report with this number of failing sets or faults.
fn status_of(number: usize) -> u8
    ensures { result ≡ min number 1 }
{
    if number == 0 { 0 } else { 1 }
}

/// Reads the script that the call names, else the source.
fn read_call<R, A, S>(
    host: &Host<'_, R, A>,
    call: &Call<'_>,
    source: &mut S,
) -> Result<Vec<u8, A>, RunFault>
where
    R: Files,
    A: Allocator + Copy,
    S: Source,
    requires source { S.failures source.old < 2 ^ 64 - 1 }
    ensures whole { IfOk result (λ bytes. IsWhole (script_of call.now (S.coming source.old)) bytes.items) }
    ensures unread { IsSome call.now.script → source.new ≡ source.old }
{
    match call.script {
        Some(name) => read_file(host, name),
        None => read_to_end(host.alloc, source),
    }
}

/// Reads the file of this name.
fn read_file<R, A>(host: &Host<'_, R, A>, name: &str) -> Result<Vec<u8, A>, RunFault>
where
    R: Files,
    A: Allocator + Copy,
{
    match File::open(host.rt, name) {
        Ok(file) => read_to_end(host.alloc, &mut Counted::new(file)),
        Err(error) => Err(open_fault(&error)),
    }
}

/// Why a script's file is not opened.
fn open_fault(error: &io::Error) -> RunFault {
    if error.kind() == io::ErrorKind::OutOfMemory {
        RunFault::OutOfMemory
    } else {
        RunFault::CannotRead
    }
}

/// Prints why std gave no words of the command line, as one line: memory was refused, or else a word is not UTF-8.
pub fn refuse_words<E: Write>(err: &mut E, error: &io::Error) -> u8
    ensures { result ≡ 2 }
{
    if error.kind() == io::ErrorKind::OutOfMemory {
        return refuse(err, RunFault::OutOfMemory);
    }
    let _ = err.write_all(b"error: invalid UTF-8 was detected in one or more arguments\n");
    REFUSED
}

/// Prints a refusal as one line. If that fails too, the status is the same.
pub fn refuse<E: Write>(err: &mut E, fault: RunFault) -> u8
    ensures { result ≡ 2 }
{
    let _ = match fault.line() {
        Some(line) => write!(err, "crashmap: line {line}: {fault}\n"),
        None => write!(err, "crashmap: {fault}\n"),
    };
    REFUSED
}

/// Prints what `clap` says of a command line: help and the version on `out`, a fault on `err`.
pub fn print_clap<O: Write, E: Write>(out: &mut O, err: &mut E, error: &clap::Error) -> u8
    ensures { result ≤ 2 }
{
    if error.kind() == ErrorKind::OutOfMemory {
        return refuse(err, RunFault::OutOfMemory);
    }
    if error.use_stderr() {
        let _ = write!(err, "{error}");
        return REFUSED;
    }
    if write!(out, "{error}").is_ok() {
        0
    } else {
        refuse(err, RunFault::CannotWrite)
    }
}
