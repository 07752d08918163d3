//! A device that remembers whether a call on it failed.
ghost use Rattle.std.specs.Prelude.{◌≡◌, ◌||◌, false, is_err};
ghost use Rattle.std.specs.Io.{ReadsAtMost, WritesAtMost};
ghost use Rattle.std.specs.Io.KnownBytes.{ReadConsumes, WriteAppends};
ghost use Rattle.gip_lines.specs.Watch.{write_failed};

use std::io::{self, Read, Write};
use std::marker::Model;

/// A reader or a writer, and whether a call on it has failed. Each call here makes one call on the device and tries
/// nothing again.
#[derive(Debug, Drop)]
pub struct Watched<D> {
    device: D,
    has_failed: bool,
}

impl<D> Model for Watched<D> {
    ghost use Rattle.gip_lines.specs.Watch.{Watch};

    ghost Value = { Watch D };

    ghost view = { λ w. record { device = w.device; has_failed = w.has_failed } };
}

impl<D> Watched<D> {
    /// The device, of which no call has failed yet.
    pub fn new(device: D) -> Self
        ensures device { result.device ≡ device }
        ensures works { result.has_failed ≡ false }
    {
        Watched {
            device,
            has_failed: false,
        }
    }

    /// The device, to look at.
    pub fn device(&self) -> &D
        ensures { result.now ≡ self.now.device }
    {
        &self.device
    }

    /// Whether a call answered an error, or a write of at least one byte took none.
    pub fn failed(&self) -> bool
        ensures { result ≡ self.now.has_failed }
    {
        self.has_failed
    }
}

impl<R: Read> Watched<R> {
    /// One read of the device.
    ///
    /// # Errors
    /// That of the device, which has failed from then on.
    pub fn read(&mut self, buf: &mut [u8]) -> io::Result<usize>
        ensures bound { ReadsAtMost result buf.new }
        ensures bytes { ReadConsumes (R.remaining self.old.device) (R.remaining self.new.device) result buf.new }
        ensures failed { self.new.has_failed ≡ (self.old.has_failed || is_err result) }
    {
        let outcome = self.device.read(buf);
        if outcome.is_err() {
            self.has_failed = true;
        }
        outcome
    }
}

impl<W: Write> Watched<W> {
    /// One write to the device. One that takes none of some bytes has failed.
    ///
    /// # Errors
    /// That of the device, which has failed from then on.
    pub fn write(&mut self, buf: &[u8]) -> io::Result<usize>
        ensures bound { WritesAtMost result buf.now }
        ensures bytes { WriteAppends (W.contents self.old.device) (W.contents self.new.device) result buf.now }
        ensures failed { self.new.has_failed ≡ (self.old.has_failed || write_failed result buf.now) }
    {
        let outcome = self.device.write(buf);
        let has_failed = match &outcome {
            Ok(n) => *n == 0 && !buf.is_empty(),
            Err(_) => true,
        };
        if has_failed {
            self.has_failed = true;
        }
        outcome
    }
}
