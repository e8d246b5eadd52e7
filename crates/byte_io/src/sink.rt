//! Sinks of bytes.

ghost use Rattle.std.specs.Prelude.{◌≡◌, ℕ, ◌+◌, ◌-◌, ◌^◌, ◌<◌, ◌≤◌, ◌++◌, List, Option, length, IfOk, OnOk, OnErr};
ghost use Rattle.std.specs.Io.KnownBytes.{WriteAppends, Appends, Keeps};
ghost use Rattle.byte_io.specs.Counted.{Counts};

use crate::source::DeviceFault;

/// Where bytes go, one write after another.
pub trait Sink {
    /// The bytes taken so far, if they are known.
    ghost taken: { Self → Option (List ℕ) };

    /// How many calls have failed.
    ghost failures: { Self → ℕ };

    /// Takes some bytes of the front of `from`, at least one, and says how many. A failed write takes none and counts
    /// as one failure.
    fn write(&mut self, from: &[u8]) -> Result<usize, DeviceFault>
        requires some { 0 < length from.now }
        requires room { failures self.old < 2 ^ 64 - 1 }
        ensures bound { IfOk result (λ count. (0 < count) × (count ≤ length from.now)) }
        ensures bytes { WriteAppends (taken self.old) (taken self.new) result from.now }
        ensures counted { Counts result (failures self.old) (failures self.new) };

    /// Flushes what was taken. A failure counts as one, and what was taken stays taken.
    fn finish(&mut self) -> Result<(), DeviceFault>
        requires { failures self.old < 2 ^ 64 - 1 }
        ensures bytes { Keeps (taken self.old) (taken self.new) }
        ensures counted { Counts result (failures self.old) (failures self.new) };
}

/// Writes all of the text, and finishes.
///
/// If a call fails, the sink took a beginning of the text, and no further call is made.
pub fn write_all<S: Sink>(sink: &mut S, text: &[u8]) -> Result<(), DeviceFault>
    requires { S.failures sink.old < 2 ^ 64 - 1 }
    ensures taken { OnOk result (Appends (S.taken sink.old) (S.taken sink.new) text.now) }
    ensures begun { OnErr result ((front : List ℕ) × (rest : List ℕ) × (text.now ≡ front ++ rest)
        × Appends (S.taken sink.old) (S.taken sink.new) front) }
    ensures counted { Counts result (S.failures sink.old) (S.failures sink.new) }
{
    let mut rest = text;
    while !rest.is_empty() {
        let count = sink.write(rest)?;
        rest = &rest[count..];
    }
    sink.finish()
}
