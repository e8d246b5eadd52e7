//! Std's readers and writers as devices.

ghost use Rattle.std.specs.Prelude.{◌≡◌};

use crate::sink::Sink;
use crate::source::{DeviceFault, Source};
use std::io::{Read, Write};

/// A reader or a writer of std with the number of its failures.
///
/// An error of std is a failure, whatever its kind. A write that takes nothing is a failure too. A failed call is not
/// tried again.
#[derive(Drop)]
pub struct Counted<D> {
    pub device: D,
    pub failures: usize,
}

impl<D> Counted<D> {
    /// The device, which has not failed yet.
    pub fn new(device: D) -> Counted<D>
        ensures { result ≡ record { device = device; failures = 0 } }
    {
        Counted {
            device,
            failures: 0,
        }
    }
}

impl<R: Read> Source for Counted<R> {
    ghost coming = { λ source. R.remaining source.device };

    ghost failures = { λ source. source.failures };

    fn read(&mut self, into: &mut [u8]) -> Result<usize, DeviceFault> {
        match self.device.read(into) {
            Ok(count) => Ok(count),
            Err(_) => {
                self.failures += 1;
                Err(DeviceFault)
            }
        }
    }
}

impl<W: Write> Sink for Counted<W> {
    ghost taken = { λ sink. W.contents sink.device };

    ghost failures = { λ sink. sink.failures };

    fn write(&mut self, from: &[u8]) -> Result<usize, DeviceFault> {
        match self.device.write(from) {
            Ok(count) if count > 0 => Ok(count),
            _ => {
                self.failures += 1;
                Err(DeviceFault)
            }
        }
    }

    fn finish(&mut self) -> Result<(), DeviceFault> {
        match self.device.flush() {
            Ok(()) => Ok(()),
            Err(_) => {
                self.failures += 1;
                Err(DeviceFault)
            }
        }
    }
}
