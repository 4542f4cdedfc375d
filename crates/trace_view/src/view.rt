ghost use Rattle.std.specs.Prelude.{◌≡◌, ◌+◌, ◌<◌, ◌^◌, length, take};
ghost use Rattle.std.specs.Bool.{OnTrue};
ghost use Rattle.num_order.specs.Number.{IsSize};
ghost use Rattle.frame_cut.specs.Cuts.{IsTrace};
ghost use Rattle.frame_cut.specs.Splice.{splice};
ghost use Rattle.trace_view.specs.Counted.{leave_length as leave_length_of, share_no_byte as share_no_byte_of};
ghost use Rattle.trace_view.specs.Runs.{Fit, bytes_with_runs};
ghost use Rattle.trace_view.specs.Values.{is_in_header as is_in_header_of};

use crate::lengths::{extension_count, sample_count};
use crate::overlaid::Overlaid;
use crate::part::Part;
use crate::pieces::Pieces;
use crate::run::Run;
use crate::samples::Samples;
use field_map::{Place, TRACE_HEADER_BYTES};
use frame_cut::{Head, front_length, trace_length};
use num_order::Kind;
use sample_codes::{IntegerFormat, ValueFormat};

// The format of samples of which there are none.
const NO_VALUES: ValueFormat = ValueFormat::Integer(IntegerFormat::Signed8);

/// A trace: the bytes that it has in its file, with runs laid over them.
#[derive(Clone, Copy)]
pub struct TraceView<'a> {
    head: &'a Head,
    bytes: Overlaid<'a>,
    ghost whole: { IsTrace head.now (bytes_with_runs bytes.base.now bytes.runs.now) },
}

impl<'a> TraceView<'a> {
    ghost use Rattle.std.specs.Prelude.{◌≡◌, ◌+◌, ◌*◌, ◌^◌, ◌<◌, ◌≤◌, ◌↔◌, IfSome, IsSome, IsTrue, length, take, drop, slice_range};
    ghost use Rattle.num_order.specs.Number.{num, IsSize};
    ghost use Rattle.frame_cut.specs.Cuts.{IsTrace};
    ghost use Rattle.frame_cut.specs.Frames.{extensions_of, sample_count as sample_count_of, trace_length as trace_length_of};
    ghost use Rattle.frame_cut.specs.Splice.{splice};
    ghost use Rattle.trace_view.specs.Runs.{Fit, bytes_with_runs, is_plain};
    ghost use Rattle.trace_view.specs.Values.{main_header, extension as extension_of, sample_bytes, samples_at as samples_at_of, value_of, sample_of, samples_of};
    ghost use Rattle.trace_view.specs.Shown.{bytes_of, head_of, runs_of};

    /// The trace with these base bytes and these runs over them: rising, disjoint, inside, none of
    /// them empty, and such that the trace has the length that its headers give it under the head.
    /// Takes no memory.
    pub fn new(head: &'a Head, base: &'a [u8], runs: &'a [Run]) -> TraceView<'a>
        requires fit { Fit runs.now (length base.now) }
        requires whole { IsTrace head.now (bytes_with_runs base.now runs.now) }
        ensures head { head_of result ≡ head.now }
        ensures bytes { bytes_of result ≡ bytes_with_runs base.now runs.now }
        ensures runs { runs_of result ≡ runs.now }
    {
        TraceView {
            head,
            bytes: Overlaid::new(base, runs),
        }
    }

    /// The head of the trace's file. Takes no memory.
    pub fn head(&self) -> &'a Head
        ensures { result.now ≡ head_of self.now }
    {
        self.head
    }

    /// How many bytes the trace has. Takes no memory.
    pub fn length(&self) -> u64
        ensures { result ≡ length (bytes_of self.now) }
    {
        self.bytes.length() as u64
    }

    /// Copies bytes of the trace, from `at` on, counted from 0, as many as `out` has. Takes no
    /// memory.
    pub fn read(&self, at: u64, out: &mut [u8])
        requires { at + length out.old ≤ length (bytes_of self.now) }
        ensures { out.new ≡ take (length out.old) (drop at (bytes_of self.now)) }
    {
        self.bytes.cursor(at as usize).read(out);
    }

    /// The length in bytes that the trace's headers would give it with these bytes in place of
    /// those from `at` on, counted from 0. None where its first header extension would say that
    /// there are more extensions than the file allows. Takes no memory.
    pub fn changed_length(&self, at: u64, bytes: &[u8]) -> Option<u64>
        requires { at + length bytes.now ≤ length (bytes_of self.now) }
        ensures { result ≡ trace_length_of (head_of self.now)
            (splice (bytes_of self.now) at (length bytes.now) bytes.now) }
    {
        let length = self.length();
        if leave_length(self.head, at, bytes.len() as u64) {
            return Some(length);
        }
        frame_cut::length_by_front();
        let mut gathered = [0; 480];
        let front = &mut gathered[..front_length(self.head)];
        self.read_changed(at, bytes, front);
        trace_length(self.head, front)
    }

    // Copies the first bytes that the trace would have with these in place of those from `at` on.
    fn read_changed(&self, at: u64, bytes: &[u8], front: &mut [u8])
        requires inside { at + length bytes.now ≤ length (bytes_of self.now) }
        requires front { length front.old ≤ length (bytes_of self.now) }
        ensures { front.new ≡ take (length front.old)
            (splice (bytes_of self.now) at (length bytes.now) bytes.now) }
    {
        self.read(0, front);
        lay_over(front, at as usize, bytes);
    }

    // The number at this place, counted from 0 in the trace.
    fn number(&self, kind: Kind, at: usize) -> i128
        requires size { IsSize kind.size }
        requires inside { at + kind.size ≤ length (bytes_of self.now) }
        requires small { at + kind.size < 2 ^ 64 }
        ensures { result ≡ num (head_of self.now).order kind
            (take kind.size (drop at (bytes_of self.now))) }
    {
        self.bytes.number(self.head.order, kind, at)
    }

    /// How many header extensions the trace has. Takes no memory.
    pub fn extension_count(&self) -> u8
        ensures { result ≡ extensions_of (head_of self.now) (bytes_of self.now) }
    {
        // The trace has the length that its headers give it, so that there is a number.
        extension_count(self.head, &self.bytes).unwrap_or(0)
    }

    /// How many samples the trace has. Takes no memory.
    pub fn sample_count(&self) -> u32
        ensures { result ≡ sample_count_of (head_of self.now) (bytes_of self.now) }
    {
        sample_count(self.head, &self.bytes)
    }

    // Where the sample bytes begin, counted from 0.
    fn samples_at(&self) -> usize
        ensures at { result ≡ TRACE_HEADER_BYTES * (1 + extensions_of (head_of self.now)
            (bytes_of self.now)) }
        ensures inside { result ≤ length (bytes_of self.now) }
        ensures small { result ≤ TRACE_HEADER_BYTES * 256 }
    {
        TRACE_HEADER_BYTES * (1 + usize::from(self.extension_count()))
    }

    /// The trace's bytes, a slice at a time. Takes no memory.
    pub fn pieces(&self) -> Pieces<'a>
        ensures { result ≡ bytes_of self.now }
    {
        self.bytes.pieces(0, self.bytes.length())
    }

    /// The main header, of 240 bytes. Takes no memory.
    pub fn main(&self) -> Part<'a>
        ensures { result ≡ main_header (bytes_of self.now) }
    {
        Part::new(self.bytes, 0, TRACE_HEADER_BYTES)
    }

    /// Header extension `extension`, of 240 bytes, counted from 1; None where the trace has no such
    /// extension. Takes no memory.
    pub fn extension(&self, extension: u16) -> Option<Part<'a>>
        ensures { result ≡ extension_of (head_of self.now) (bytes_of self.now) extension }
    {
        if extension == 0 || !self.has_header(extension) {
            return None;
        }
        let from = TRACE_HEADER_BYTES * usize::from(extension);
        Some(Part::new(self.bytes, from, from + TRACE_HEADER_BYTES))
    }

    /// The bytes from..to as one slice, counted from 0, where no run touches them, else None. Takes
    /// no memory.
    pub fn plain(&self, from: u64, to: u64) -> Option<&'a [u8]>
        requires order { from ≤ to }
        requires inside { to ≤ length (bytes_of self.now) }
        ensures some { IsSome result ↔ IsTrue (is_plain (runs_of self.now) from to) }
        ensures bytes { IfSome result (λ s. s.now ≡ slice_range (bytes_of self.now) from to) }
    {
        self.bytes.plain(from as usize, to as usize)
    }

    /// The sample bytes as one slice, where no run touches them, else None. Takes no memory.
    pub fn plain_samples(&self) -> Option<&'a [u8]>
        ensures some { IsSome result ↔
            IsTrue (is_plain (runs_of self.now)
            (samples_at_of (head_of self.now) (bytes_of self.now)) (length (bytes_of self.now))) }
        ensures bytes { IfSome result (λ s. s.now ≡ sample_bytes (head_of self.now)
            (bytes_of self.now)) }
    {
        self.bytes.plain(self.samples_at(), self.bytes.length())
    }

    // Whether it has this header: the main header is 0, the extensions count from 1.
    fn has_header(&self, extension: u16) -> bool
        ensures { IsTrue result ↔
            (extension ≤ extensions_of (head_of self.now) (bytes_of self.now)) }
    {
        extension == 0 || extension <= u16::from(self.extension_count())
    }

    /// The number at the place; None where it is not inside a header that the trace has, or its
    /// size is none that a number has. Takes no memory.
    pub fn value(&self, place: Place) -> Option<i128>
        ensures { result ≡ value_of (head_of self.now) (bytes_of self.now) place }
    {
        if !is_in_header(place) || !self.has_header(place.extension) {
            return None;
        }
        Some(self.number(place.kind, place.offset() as usize))
    }

    /// The value of sample `k`, counted from 0; None where the trace has no such sample, or its
    /// samples have no values. Takes no memory.
    pub fn sample(&self, k: u32) -> Option<i128>
        ensures { result ≡ sample_of (head_of self.now) (bytes_of self.now) k }
    {
        if k >= self.sample_count() {
            return None;
        }
        let format = self.head.format.values()?;
        let at = self.samples_at() + format.width() as usize * k as usize;
        Some(self.bytes.sample(self.head.order, format, at))
    }

    /// The values of the trace's samples, in order; none where they have none. Takes no memory.
    pub fn samples(&self) -> Samples<'a>
        ensures { result ≡ samples_of (head_of self.now) (bytes_of self.now) }
    {
        let cursor = self.bytes.cursor(self.samples_at());
        match self.head.format.values() {
            Some(format) => { Samples::new(self.head.order, format, self.sample_count(), cursor) }
            None => Samples::new(self.head.order, NO_VALUES, 0, cursor),
        }
    }
}

// Lays the bytes over the front from this place on, as far as it goes.
fn lay_over(front: &mut [u8], at: usize, bytes: &[u8])
    ensures { front.new ≡ take (length front.old)
        (splice front.old at (length bytes.now) bytes.now) }
{
    if at < front.len() {
        let end = bytes.len().min(front.len() - at);
        front[at..at + end].copy_from_slice(&bytes[..end]);
    }
}

// Whether so many bytes of a trace, from a place on, are none that tells its length.
fn leave_length(head: &Head, at: u64, size: u64) -> bool
    requires { at + size < 2 ^ 64 }
    ensures { result ≡ leave_length_of head.now at size }
{
    let wide = TRACE_HEADER_BYTES as u64 + 137 - 1;
    let count = TRACE_HEADER_BYTES as u64 + 157 - 1;
    share_no_byte(at, size, 115 - 1, 2)
        && (head.extensions == 0
            || (share_no_byte(at, size, wide, 4) && share_no_byte(at, size, count, 2)))
}

// Whether so many bytes from one place on, and so many from another, share none.
fn share_no_byte(a: u64, n: u64, b: u64, m: u64) -> bool
    requires first { a + n < 2 ^ 64 }
    requires second { b + m < 2 ^ 64 }
    ensures { result ≡ share_no_byte_of a n b m }
{
    a + n <= b || b + m <= a
}

// Whether it is the place of a number inside a header of 240 bytes.
fn is_in_header(place: Place) -> bool
    ensures place { result ≡ is_in_header_of place }
    ensures size { OnTrue result (IsSize place.kind.size) }
{
    place.kind.has_known_size()
        && 0 < place.byte
        && u32::from(place.byte) + u32::from(place.kind.size) < 242
}
