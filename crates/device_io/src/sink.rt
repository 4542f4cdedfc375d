// A writer that counts its failures.
ghost use Rattle.std.specs.Prelude.{◌≡◌, ◌<◌, length, IfOk};
ghost use Rattle.std.specs.Io.{WritesAtMost};
ghost use Rattle.std.specs.Io.KnownBytes.{WriteAppends};
ghost use Rattle.device_io.specs.Failures.{CountsFailure};
ghost use Rattle.device_io.specs.WholeWrites.{TakesAll};

use crate::failed::Failed;
use crate::write_fault::WriteFault;
use std::io::Write;
use std::marker::Model;

/// A writer and the count of its failed writes: a clause sees them as `inner` and `failures`.
#[derive(Drop)]
pub struct Sink<W> {
    inner: W,
    failures: u64,
}

impl<W> Model for Sink<W> {
    ghost use Rattle.device_io.specs.Devices.{CountedDevice};

    ghost Value = { CountedDevice W };

    ghost view = { λ s. record { inner = s.inner; failures = s.failures } };
}

impl<W: Write> Sink<W> {
    /// The writer, with no failure yet. Takes no memory.
    pub fn new(inner: W) -> Sink<W>
        ensures { result ≡ record { inner = inner; failures = 0 } }
    {
        Sink { inner, failures: 0 }
    }

    /// One write, by the writer itself: it takes some of the first bytes. `Failed` is its error, or
    /// that it took none of some bytes. It has added nothing to the writer, and is counted.
    pub fn write(&mut self, buf: &[u8]) -> Result<usize, Failed>
        ensures bound { WritesAtMost result buf.now }
        ensures some { IfOk result (λ n. 0 < length buf.now → 0 < n) }
        ensures bytes { WriteAppends (W.contents self.old.inner) (W.contents self.new.inner) result
            buf.now }
        ensures failures { CountsFailure result self.old.failures self.new.failures }
    {
        match self.inner.write(buf) {
            Ok(n) if n > 0 || buf.is_empty() => Ok(n),
            _ => {
                self.failures = self.failures.saturating_add(1);
                Err(Failed)
            }
        }
    }

    /// Writes all the bytes. Takes no memory. Refused where a write failed, in this call; the
    /// writer has then taken the first `written` bytes, and not all.
    pub fn write_all(&mut self, bytes: &[u8]) -> Result<(), WriteFault>
        ensures bytes { TakesAll (W.contents self.old.inner) (W.contents self.new.inner) bytes.now
            result }
        ensures failures { CountsFailure result self.old.failures self.new.failures }
    {
        let mut at = 0;
        'turns: while at < bytes.len() {
            match self.write(&bytes[at..]) {
                Ok(count) => at += count,
                Err(_) => return Err(WriteFault { written: at as u64 }),
            }
        }
        Ok(())
    }

    /// How many writes have failed. At `u64::MAX` it stays.
    pub fn failures(&self) -> u64
        ensures { result ≡ self.now.failures }
    {
        self.failures
    }

    /// The writer, as it is now.
    pub fn into_inner(self) -> W
        ensures { result ≡ self.inner }
    {
        self.inner
    }
}
