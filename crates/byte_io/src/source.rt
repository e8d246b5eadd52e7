//! Sources of bytes.

ghost use Rattle.std.specs.Prelude.{◌≡◌, ℕ, ◌+◌, ◌-◌, ◌^◌, ◌<◌, ◌≤◌, List, Option, length, IfOk, IfErr, OnOk, OnErr};
ghost use Rattle.std.specs.Prelude.{IsErrOf, min};
ghost use Rattle.std.specs.Io.KnownBytes.{ReadConsumes, Consumes, IsAtEnd};
ghost use Rattle.std.specs.Io.{ReadsAtMost};
ghost use Rattle.byte_io.specs.Counted.{Counts, IsReadFault};

use crash_model::refusals::RunFault;
use std::alloc::Allocator;

/// A call of a device failed. The device says no more.
#[derive(Clone, Copy, Debug, PartialEq, Eq)]
pub struct DeviceFault;

/// The most bytes that a script may have.
pub const MAX_SCRIPT_BYTES: usize = 1_048_576;

/// Bytes that come one read after another.
pub trait Source {
    /// The bytes still to come, if they are known.
    ghost coming: { Self → Option (List ℕ) };

    /// How many reads have failed.
    ghost failures: { Self → ℕ };

    /// Moves some of the bytes still to come into the front of `into`, and says how many: at least one, but for 0 at
    /// the end. A failed read moves none and counts as one failure.
    fn read(&mut self, into: &mut [u8]) -> Result<usize, DeviceFault>
        requires some { 0 < length into.old }
        requires room { failures self.old < 2 ^ 64 - 1 }
        ensures bound { ReadsAtMost result into.new }
        ensures bytes { ReadConsumes (coming self.old) (coming self.new) result into.new }
        ensures counted { Counts result (failures self.old) (failures self.new) };
}

/// Reads a source to its end, or until it has given one byte more than a script may have.
///
/// A script that is too long and a failed read each get their own refusal; otherwise memory ran out. What was read is
/// gone from the source.
pub fn read_to_end<A: Allocator + Copy, S: Source>(
    alloc: A,
    source: &mut S,
) -> Result<Vec<u8, A>, RunFault>
    requires { S.failures source.old < 2 ^ 64 - 1 }
    ensures whole { IfOk result (λ bytes. Consumes (S.coming source.old) (S.coming source.new) bytes.items
        × IsAtEnd (S.coming source.new)) }
    ensures short { IfOk result (λ bytes. length bytes.items ≤ MAX_SCRIPT_BYTES) }
    ensures gone { (bytes : List ℕ) × Consumes (S.coming source.old) (S.coming source.new) bytes
        × (IsErrOf result RunFault.ScriptTooLong → MAX_SCRIPT_BYTES < length bytes) }
    ensures worked { OnOk result (S.failures source.new ≡ S.failures source.old) }
    ensures failed { IsErrOf result RunFault.CannotRead → S.failures source.new ≡ S.failures source.old + 1 }
    ensures kinds { IfErr result IsReadFault }
    ensures other { OnErr result ((IsErrOf result RunFault.CannotRead → ⊥)
        → S.failures source.new ≡ S.failures source.old) }
{
    let mut bytes = Vec::new(alloc);
    let mut chunk = [0; 4096];
    while bytes.len() <= MAX_SCRIPT_BYTES {
        let room = chunk.len().min(MAX_SCRIPT_BYTES + 1 - bytes.len());
        let count = read_some(source, &mut chunk[..room])?;
        if count == 0 {
            return Ok(bytes);
        }
        bytes.extend_from_slice(&chunk[..count])?;
    }
    Err(RunFault::ScriptTooLong)
}

/// Reads once, with a failure as an unreadable script.
fn read_some<S: Source>(source: &mut S, into: &mut [u8]) -> Result<usize, RunFault>
    requires some { 0 < length into.old }
    requires room { S.failures source.old < 2 ^ 64 - 1 }
    ensures bound { ReadsAtMost result into.new }
    ensures bytes { ReadConsumes (S.coming source.old) (S.coming source.new) result into.new }
    ensures counted { Counts result (S.failures source.old) (S.failures source.new) }
    ensures kind { IfErr result (λ fault. fault ≡ RunFault.CannotRead) }
{
    source.read(into).or(Err(RunFault::CannotRead))
}
