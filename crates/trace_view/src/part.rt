ghost use Rattle.std.specs.Prelude.{◌≡◌, ◌≤◌, length, slice_range};
ghost use Rattle.trace_view.specs.Runs.{bytes_with_runs};

use crate::overlaid::Overlaid;
use crate::pieces::Pieces;
use std::marker::Model;

/// A part of a trace: one of its headers, or its sample bytes. Seen as the list of its bytes.
#[derive(Drop)]
pub struct Part<'a> {
    bytes: Overlaid<'a>,
    from: usize,
    to: usize,
}

impl<'a> Model for Part<'a> {
    ghost use Rattle.std.specs.Prelude.{ℕ, List, ◌≤◌, length, slice_range};
    ghost use Rattle.trace_view.specs.Runs.{bytes_with_runs};

    ghost Value = { List ℕ };

    ghost view = { λ p. slice_range (bytes_with_runs p.bytes.base.now p.bytes.runs.now) p.from
        p.to };

    ghost invariant = { λ p. (p.from ≤ p.to) ×
        (p.to ≤ length (bytes_with_runs p.bytes.base.now p.bytes.runs.now)) };
}

impl<'a> Part<'a> {
    // The bytes from..to.
    pub(crate) fn new(bytes: Overlaid<'a>, from: usize, to: usize) -> Part<'a>
        requires order { from ≤ to }
        requires inside { to ≤ length (bytes_with_runs bytes.base.now bytes.runs.now) }
        ensures { result ≡ slice_range (bytes_with_runs bytes.entry.base.now bytes.entry.runs.now)
            from to }
    {
        Part { bytes, from, to }
    }

    /// How many bytes it has. Takes no memory.
    pub fn length(&self) -> u64
        ensures { result ≡ length self.now }
    {
        (self.to - self.from) as u64
    }

    /// Its bytes, a slice at a time. Goes past the runs in front of it. Takes no memory.
    pub fn pieces(&self) -> Pieces<'a>
        ensures { result ≡ self.now }
    {
        self.bytes.pieces(self.from, self.to)
    }
}
