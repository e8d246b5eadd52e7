//! The product between a source and a sink.

ghost use Rattle.std.specs.Prelude.{◌≡◌, ℕ, ◌+◌, ◌-◌, ◌^◌, ◌<◌, ◌≤◌, List, length, IfOk, IfErr, OnErr, IfSome, IsErrOf};
ghost use Rattle.std.specs.Prelude.{IsErrAnd, Some};
ghost use Rattle.std.specs.Io.KnownBytes.{Consumes, Keeps};
ghost use Rattle.byte_io.specs.Counted.{IsReadFault};
ghost use Rattle.crash_text.specs.Served.{IsServed, IsCut, IsRefusedBy};

use crate::host::Host;
use crate::run::run;
use byte_io::sink::{Sink, write_all};
use byte_io::source::{MAX_SCRIPT_BYTES, Source, read_to_end};
use crash_model::refusals::RunFault;
use explorers::Gate;
use question_model::Request;
use std::alloc::Allocator;
use std::sync::Wait;
use std::thread::Threads;

/// Reads a script from a source, answers it, and writes the report to a sink. It gives the number of the outcome of
/// `run`.
///
/// The answer is that of `run` on all bytes of the source. A script that cannot be read or is too long is refused
/// before it is run. If it is too long, it is refused as that, for a failed read, or for want of memory, and in no
/// other way. Nothing is written before the report is whole. After a refusal the sink has taken nothing, unless the
/// sink itself failed, which then has a beginning of the report.
pub fn serve<R, A, S, K, G>(
    host: &Host<'_, R, A>,
    source: &mut S,
    sink: &mut K,
    request: &Request,
    gate: &G,
) -> Result<usize, RunFault>
where
    R: Threads + Wait + Sync,
    A: Allocator + Copy + Send + Sync,
    S: Source,
    K: Sink,
    G: Gate + Sync,
    requires workers { (1 ≤ request.now.workers) × (request.now.workers ≤ 16) }
    requires source { S.failures source.old < 2 ^ 64 - 1 }
    requires sink { K.failures sink.old < 2 ^ 64 - 1 }
    ensures served { IfOk result (λ number.
        IsServed (S.coming source.old) request.now number (K.taken sink.old) (K.taken sink.new)) }
    ensures cut { IsErrOf result RunFault.CannotWrite
        → IsCut (S.coming source.old) request.now (K.taken sink.old) (K.taken sink.new) }
    ensures refused { IfErr result (IsRefusedBy (S.coming source.old) request.now) }
    ensures bounded { IfSome (S.coming source.old) (λ bytes. MAX_SCRIPT_BYTES < length bytes
        → IsErrAnd result IsReadFault) }
    ensures too_long { IsErrOf result RunFault.ScriptTooLong
        → IfSome (S.coming source.old) (λ bytes. MAX_SCRIPT_BYTES < length bytes) }
    ensures unread { IsErrOf result RunFault.CannotRead → S.failures source.new ≡ S.failures source.old + 1 }
    ensures no_failed_read { (¬ (IsErrOf result RunFault.CannotRead)) → S.failures source.new ≡ S.failures source.old }
    ensures unwritten { IsErrOf result RunFault.CannotWrite → K.failures sink.new ≡ K.failures sink.old + 1 }
    ensures no_failed_write { (¬ (IsErrOf result RunFault.CannotWrite)) → K.failures sink.new ≡ K.failures sink.old }
    ensures untouched { OnErr result ((¬ (IsErrOf result RunFault.CannotWrite))
        → Keeps (K.taken sink.old) (K.taken sink.new)) }
    ensures gone { (bytes : List ℕ) × Consumes (S.coming source.old) (S.coming source.new) bytes }
{
    let script = read_to_end(host.alloc, source)?;
    serve_script(host, script.as_slice(), sink, request, gate)
}

/// Answers a script, and writes the report to a sink. It gives the number of the outcome of `run`.
///
/// Nothing is written before the report is whole. After a refusal the sink has taken nothing, unless the sink itself
/// failed, which then has a beginning of the report.
pub fn serve_script<R, A, K, G>(
    host: &Host<'_, R, A>,
    script: &[u8],
    sink: &mut K,
    request: &Request,
    gate: &G,
) -> Result<usize, RunFault>
where
    R: Threads + Wait + Sync,
    A: Allocator + Copy + Send + Sync,
    K: Sink,
    G: Gate + Sync,
    requires workers { (1 ≤ request.now.workers) × (request.now.workers ≤ 16) }
    requires sink { K.failures sink.old < 2 ^ 64 - 1 }
    ensures served { IfOk result (λ number.
        IsServed (Some script.now) request.now number (K.taken sink.old) (K.taken sink.new)) }
    ensures cut { IsErrOf result RunFault.CannotWrite
        → IsCut (Some script.now) request.now (K.taken sink.old) (K.taken sink.new) }
    ensures refused { IfErr result (IsRefusedBy (Some script.now) request.now) }
    ensures read { ¬ (IsErrOf result RunFault.CannotRead) }
    ensures short { ¬ (IsErrOf result RunFault.ScriptTooLong) }
    ensures unwritten { IsErrOf result RunFault.CannotWrite → K.failures sink.new ≡ K.failures sink.old + 1 }
    ensures no_failed_write { (¬ (IsErrOf result RunFault.CannotWrite)) → K.failures sink.new ≡ K.failures sink.old }
    ensures untouched { OnErr result ((¬ (IsErrOf result RunFault.CannotWrite))
        → Keeps (K.taken sink.old) (K.taken sink.new)) }
{
    let outcome = run(host, script, request, gate)?;
    gate.ended();
    match write_all(sink, outcome.text.as_bytes()) {
        Ok(()) => Ok(outcome.number),
        Err(_) => Err(RunFault::CannotWrite),
    }
}
