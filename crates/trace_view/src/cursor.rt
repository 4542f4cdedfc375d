// A place in the bytes of a trace.
ghost use Rattle.std.specs.Prelude.{◌≡◌, ◌<◌, ◌≤◌, ◌∷◌, ◌++◌, take, drop, length};
ghost use Rattle.num_order.specs.Number.{num, IsSize};
ghost use Rattle.sample_codes.specs.Formats.{value_width, sample_value};

use crate::stretches::Stretches;
use num_order::{Kind, Order, read};
use sample_codes::ValueFormat;
use std::marker::Model;

// The bytes of a trace from some place on, and seen as the list of those.
#[derive(Drop)]
pub(crate) struct Cursor<'a> {
    front: &'a [u8],
    stretches: Stretches<'a>,
}

impl<'a> Model for Cursor<'a> {
    ghost use Rattle.std.specs.Prelude.{ℕ, List, ◌++◌};

    ghost Value = { List ℕ };

    ghost view = { λ c. c.front.now ++ c.stretches };
}

impl<'a> Cursor<'a> {
    // At the front of all bytes.
    pub(crate) fn new(stretches: Stretches<'a>) -> Cursor<'a>
        ensures { result ≡ stretches.entry }
    {
        Cursor {
            front: &[],
            stretches,
        }
    }

    // Goes on by so many bytes.
    pub(crate) fn skip(&mut self, count: usize)
        requires { count ≤ length self.old }
        ensures { self.new ≡ drop count self.old }
    {
        let mut left = count;
        while left > self.front.len() {
            left -= self.front.len();
            self.front = self.stretches.advance();
        }
        self.front = &self.front[left..];
    }

    // What is left of the stretch, or the next one.
    pub(crate) fn piece(&mut self) -> &'a [u8]
        requires { 0 < length self.old }
        ensures bytes { self.old ≡ result.now ++ self.new }
        ensures some { 0 < length result.now }
    {
        if self.front.is_empty() {
            return self.stretches.advance();
        }
        let piece = self.front;
        self.front = &[];
        piece
    }

    // The next bytes, as many as `out` has. A stretch of them is copied at once.
    pub(crate) fn read(&mut self, out: &mut [u8])
        requires { length out.old ≤ length self.old }
        ensures out { out.new ≡ take (length out.old) self.old }
        ensures rest { self.new ≡ drop (length out.old) self.old }
    {
        let mut done = 0;
        while done < out.len() {
            done += self.read_some(&mut out[done..]);
        }
    }

    // Some of the next bytes, at the front of `out`: as many as one stretch has, and `out` takes.
    fn read_some(&mut self, out: &mut [u8]) -> usize
        requires some { 0 < length out.old }
        requires there { length out.old ≤ length self.old }
        ensures some { 0 < result }
        ensures within { result ≤ length out.old }
        ensures size { length out.new ≡ length out.old }
        ensures read { take result out.new ≡ take result self.old }
        ensures rest { self.new ≡ drop result self.old }
    {
        if self.front.is_empty() {
            self.front = self.stretches.advance();
        }
        let count = self.front.len().min(out.len());
        out[..count].copy_from_slice(&self.front[..count]);
        self.front = &self.front[count..];
        count
    }

    // The next number, gathered where it lies in more than one stretch.
    #[inline]
    pub(crate) fn number(&mut self, order: Order, kind: Kind) -> i128
        requires size { IsSize kind.size }
        requires inside { kind.size ≤ length self.old }
        ensures number { result ≡ num order kind (take kind.size self.old) }
        ensures rest { self.new ≡ drop kind.size self.old }
    {
        let size = kind.size as usize;
        if size <= self.front.len() {
            let number = read(order, kind, &self.front[..size]);
            self.front = &self.front[size..];
            return number;
        }
        let mut bytes = [0u8; 8];
        self.read(&mut bytes[..size]);
        read(order, kind, &bytes[..size])
    }

    // The number of the next sample, gathered where it lies in more than one stretch.
    #[inline]
    pub(crate) fn sample(&mut self, order: Order, format: ValueFormat) -> i128
        requires { value_width format ≤ length self.old }
        ensures number { result ≡ sample_value order format (take (value_width format) self.old) }
        ensures rest { self.new ≡ drop (value_width format) self.old }
    {
        let size = format.width() as usize;
        if size <= self.front.len() {
            let number = format.decode(order, &self.front[..size]);
            self.front = &self.front[size..];
            return number;
        }
        let mut bytes = [0u8; 8];
        self.read(&mut bytes[..size]);
        format.decode(order, &bytes[..size])
    }
}
