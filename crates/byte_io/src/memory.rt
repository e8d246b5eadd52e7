//! Devices in memory.

ghost use Rattle.std.specs.Prelude.{Some};

use crate::sink::Sink;
use crate::source::{DeviceFault, Source};
use std::alloc::Allocator;

/// Bytes in memory as a source, which never fails. What was read is gone from the front.
impl Source for &[u8] {
    ghost coming = { λ bytes. Some bytes.now };

    ghost failures = { λ _. 0 };

    fn read(&mut self, into: &mut [u8]) -> Result<usize, DeviceFault> {
        let count = self.len().min(into.len());
        into[..count].copy_from_slice(&self[..count]);
        *self = &self[count..];
        Ok(count)
    }
}

/// A sink that keeps its bytes in memory. It fails if memory is refused.
#[derive(Drop)]
pub struct Taken<A: Allocator> {
    pub bytes: Vec<u8, A>,
    pub failures: usize,
}

impl<A: Allocator> Sink for Taken<A> {
    ghost taken = { λ sink. Some sink.bytes.items };

    ghost failures = { λ sink. sink.failures };

    fn write(&mut self, from: &[u8]) -> Result<usize, DeviceFault> {
        match self.bytes.extend_from_slice(from) {
            Ok(()) => Ok(from.len()),
            Err(_) => {
                self.failures += 1;
                Err(DeviceFault)
            }
        }
    }

    fn finish(&mut self) -> Result<(), DeviceFault> {
        Ok(())
    }
}
