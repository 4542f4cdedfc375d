// A reader over a slice, which gives a few bytes a call and then fails.
ghost use Rattle.std.specs.Prelude.{◌≡◌, ◌<◌, ◌-◌, ◌↔◌, ◌++◌, Some, IfOk, IsErr, OnErr, length, take, drop};
ghost use Rattle.std.specs.Io.{ReadsAtMost};
ghost use Rattle.std.specs.Io.KnownBytes.{ReadConsumes};
ghost use Rattle.device_io.specs.Steps.{given_count};

use std::io::{Error, ErrorKind, Read, Result};
use std::marker::Model;

/// A reader for tests: it gives the bytes of a slice, at most `step` in each call, and fails after
/// `calls` calls.
#[derive(Drop)]
pub struct StepReader<'a> {
    rest: &'a [u8],
    step: usize,
    calls: u64,
}

impl<'a> Model for StepReader<'a> {
    ghost use Rattle.std.specs.Prelude.{◌<◌};
    ghost use Rattle.device_io.specs.Steps.{Reading};

    ghost Value = { Reading };

    ghost view = { λ r. record { rest = r.rest.now; step = r.step; calls = r.calls } };

    ghost invariant = { λ r. 0 < r.step };
}

impl<'a> StepReader<'a> {
    /// Gives the bytes, at most `step` in each call. The first `calls` calls succeed, and each
    /// later one fails and takes nothing. Takes no memory.
    pub fn new(bytes: &'a [u8], step: usize, calls: u64) -> StepReader<'a>
        requires { 0 < step }
        ensures { result ≡ record { rest = bytes.now; step = step; calls = calls } }
    {
        StepReader {
            rest: bytes,
            step,
            calls,
        }
    }
}

impl Read for StepReader<'_> {
    ghost remaining = { λ r. Some r.rest };

    fn read(&mut self, buf: &mut [u8]) -> Result<usize>
        ensures bound { ReadsAtMost result buf.new }
        ensures bytes { ReadConsumes (Some self.old.rest) (Some self.new.rest) result buf.new }

        // It fails once no call is left, and then stays as it was.
        ensures fails { IsErr result ↔ (self.old.calls ≡ 0) }
        ensures failed { OnErr result (self.new ≡ self.old) }

        ensures count { IfOk result (λ n. n ≡ given_count self.old (length buf.old)) }
        ensures given { IfOk result (λ n. buf.new ≡ take n self.old.rest ++ drop n buf.old) }
        ensures left { IfOk result
            (λ n. self.new ≡ record self.old
            { rest = drop n self.old.rest; calls = self.old.calls - 1 }) }
    {
        if self.calls == 0 {
            return Err(Error::new(ErrorKind::Other, "the step reader failed"));
        }
        self.calls -= 1;
        let n = self.step.min(buf.len()).min(self.rest.len());
        let (front, rest) = self.rest.split_at(n);
        buf[..n].copy_from_slice(front);
        self.rest = rest;
        Ok(n)
    }
}
