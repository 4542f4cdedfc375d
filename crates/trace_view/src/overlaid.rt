// Base bytes with runs laid over them.
ghost use Rattle.std.specs.Prelude.{◌≡◌, ◌+◌, ◌^◌, ◌<◌, ◌≤◌, ◌↔◌, ◌⊎◌, take, drop, length, slice_range, IsTrue, IsSome, IfSome};
ghost use Rattle.num_order.specs.Number.{num, unsigned, IsSize};
ghost use Rattle.sample_codes.specs.Formats.{value_width, sample_value};
ghost use Rattle.trace_view.specs.Runs.{Fit, FitFrom-prop, bytes_with_runs, is_plain as is_plain_of};

use crate::cursor::Cursor;
use crate::pieces::Pieces;
use crate::run::Run;
use crate::stretches::Stretches;
use num_order::{Kind, Order, read};
use sample_codes::ValueFormat;

#[derive(Clone, Copy)]
pub(crate) struct Overlaid<'a> {
    pub(crate) base: &'a [u8],
    pub(crate) runs: &'a [Run],
    ghost fit: { Fit runs.now (length base.now) } by { FitFrom-prop 0 runs.now (length base.now) },
}

impl<'a> Overlaid<'a> {
    pub(crate) fn new(base: &'a [u8], runs: &'a [Run]) -> Overlaid<'a>
        requires { Fit runs.now (length base.now) }
        ensures base { result.base.now ≡ base.now }
        ensures runs { result.runs.now ≡ runs.now }
    {
        Overlaid { base, runs }
    }

    // How many bytes there are.
    pub(crate) fn length(&self) -> usize
        ensures { result ≡ length (bytes_with_runs self.now.base.now self.now.runs.now) }
    {
        self.base.len()
    }

    // The bytes from this place on.
    pub(crate) fn cursor(&self, at: usize) -> Cursor<'a>
        requires { at ≤ length (bytes_with_runs self.now.base.now self.now.runs.now) }
        ensures { result ≡ drop at (bytes_with_runs self.now.base.now self.now.runs.now) }
    {
        let mut cursor = Cursor::new(Stretches::new(self.base, self.runs));
        cursor.skip(at);
        cursor
    }

    // The pieces of the bytes from..to.
    pub(crate) fn pieces(&self, from: usize, to: usize) -> Pieces<'a>
        requires order { from ≤ to }
        requires inside { to ≤ length (bytes_with_runs self.now.base.now self.now.runs.now) }
        ensures { result ≡ slice_range (bytes_with_runs self.now.base.now self.now.runs.now) from
            to }
    {
        Pieces::new(to - from, self.cursor(from))
    }

    // Whether no run touches the bytes from..to.
    fn is_plain(&self, from: u64, to: u64) -> bool
        ensures { result ≡ is_plain_of self.now.runs.now from to }
    {
        self.runs.iter().all(|run| run.is_apart(from, to))
    }

    // The bytes from..to as one slice, where no run touches them.
    pub(crate) fn plain(&self, from: usize, to: usize) -> Option<&'a [u8]>
        requires order { from ≤ to }
        requires inside { to ≤ length (bytes_with_runs self.now.base.now self.now.runs.now) }
        ensures some { IsSome result ↔ IsTrue (is_plain_of self.now.runs.now from to) }
        ensures bytes { IfSome result
            (λ s. s.now ≡ slice_range (bytes_with_runs self.now.base.now self.now.runs.now) from
            to) }
    {
        if self.is_plain(from as u64, to as u64) {
            Some(&self.base[from..to])
        } else {
            None
        }
    }

    // The number at this place.
    pub(crate) fn number(&self, order: Order, kind: Kind, at: usize) -> i128
        requires size { IsSize kind.size }
        requires inside { at + kind.size ≤ length
            (bytes_with_runs self.now.base.now self.now.runs.now) }
        requires small { at + kind.size < 2 ^ 64 }
        ensures { result ≡ num order kind
            (take kind.size (drop at (bytes_with_runs self.now.base.now self.now.runs.now))) }
    {
        match self.plain(at, at + kind.size as usize) {
            Some(bytes) => read(order, kind, bytes),
            None => self.cursor(at).number(order, kind),
        }
    }

    // The number of the sample at this place.
    pub(crate) fn sample(&self, order: Order, format: ValueFormat, at: usize) -> i128
        requires inside { at + value_width format ≤ length
            (bytes_with_runs self.now.base.now self.now.runs.now) }
        requires small { at + value_width format < 2 ^ 64 }
        ensures { result ≡ sample_value order format (take (value_width format)
            (drop at (bytes_with_runs self.now.base.now self.now.runs.now))) }
    {
        match self.plain(at, at + format.width() as usize) {
            Some(bytes) => format.decode(order, bytes),
            None => self.cursor(at).sample(order, format),
        }
    }

    // The number without a sign of 2 or 4 bytes at this place.
    pub(crate) fn unsigned(&self, order: Order, size: u8, at: usize) -> u32
        requires size { (size ≡ 2) ⊎ (size ≡ 4) }
        requires inside { at + size ≤ length (bytes_with_runs self.now.base.now self.now.runs.now) }
        requires small { at + size < 2 ^ 64 }
        ensures { result ≡ unsigned order
            (take size (drop at (bytes_with_runs self.now.base.now self.now.runs.now))) }
    {
        let size = usize::from(size);
        match self.plain(at, at + size) {
            Some(bytes) => unsigned_of(order, bytes),
            None => {
                let mut bytes = [0; 4];
                self.cursor(at).read(&mut bytes[..size]);
                unsigned_of(order, &bytes[..size])
            }
        }
    }
}

// The number without a sign of these 2 or 4 bytes.
fn unsigned_of(order: Order, bytes: &[u8]) -> u32
    requires { (length bytes.now ≡ 2) ⊎ (length bytes.now ≡ 4) }
    ensures { result ≡ unsigned order bytes.now }
{
    let kind = Kind {
        size: bytes.len() as u8,
        signed: false,
    };
    read(order, kind, bytes) as u32
}
