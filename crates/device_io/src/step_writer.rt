// A writer into a slice, which takes a few bytes a call and then fails.
ghost use Rattle.std.specs.Prelude.{◌≡◌, ◌≤◌, ◌↔◌, ◌++◌, [], Some, IfOk, IsOk, IsErr, OnErr, length, min, take};
ghost use Rattle.std.specs.Io.{WritesAtMost};
ghost use Rattle.std.specs.Io.KnownBytes.{Keeps, WriteAppends};
ghost use Rattle.device_io.specs.Steps.{taken_count};

use std::io::{Error, ErrorKind, Result, Write};
use std::marker::Model;

/// A writer for tests: it takes bytes into a slice, at most `step` in each call, and fails once it
/// holds `limit`.
#[derive(Drop)]
pub struct StepWriter<'a> {
    room: &'a mut [u8],
    held: usize,
    step: usize,
    limit: usize,
}

impl<'a> Model for StepWriter<'a> {
    ghost use Rattle.std.specs.Prelude.{◌≤◌, length, take};
    ghost use Rattle.device_io.specs.Steps.{Writing};

    ghost Value = { Writing };

    ghost view = { λ w. record { held = take w.held w.room.now; step = w.step; limit = w.limit } };

    ghost invariant = { λ w. (w.held ≤ w.limit) × (w.limit ≤ length w.room.now) };
}

impl<'a> StepWriter<'a> {
    /// Takes at most `step` bytes in each call, and at most `limit` in all, or as many as the slice
    /// has room for. Once it holds them, each call fails and adds nothing. Takes no memory.
    pub fn new(room: &'a mut [u8], step: usize, limit: usize) -> StepWriter<'a>
        ensures { result ≡ record { held = []; step = step; limit = min limit (length room.old) } }
    {
        let limit = limit.min(room.len());
        StepWriter {
            room,
            held: 0,
            step,
            limit,
        }
    }
}

impl Write for StepWriter<'_> {
    ghost contents = { λ w. Some w.held };

    fn write(&mut self, buf: &[u8]) -> Result<usize>
        ensures bound { WritesAtMost result buf.now }
        ensures bytes { WriteAppends (Some self.old.held) (Some self.new.held) result buf.now }

        // It fails once it is full, and then stays as it was.
        ensures fails { IsErr result ↔ (self.old.limit ≤ length self.old.held) }
        ensures failed { OnErr result (self.new ≡ self.old) }

        ensures count { IfOk result (λ n. n ≡ taken_count self.old (length buf.now)) }
        ensures taken { IfOk result
            (λ n. self.new ≡ record self.old { held = self.old.held ++ take n buf.now }) }
    {
        let held = self.held;
        if held >= self.limit {
            return Err(Error::new(ErrorKind::Other, "the step writer failed"));
        }
        let n = self.step.min(buf.len()).min(self.limit - held);
        self.room[held..held + n].copy_from_slice(&buf[..n]);
        self.held = held + n;
        Ok(n)
    }

    fn flush(&mut self) -> Result<()>
        ensures bytes { Keeps (Some self.old.held) (Some self.new.held) }
        ensures ok { IsOk result }
        ensures same { self.new ≡ self.old }
    {
        Ok(())
    }
}
