// A text that is built from its end to its front: the digits of a number, which come last first,
// are written where they stay.
ghost use Rattle.std.specs.Prelude.{◌≡◌, ◌≤◌, ◌<◌, ◌+◌, ◌++◌, ◌∷◌, [], decimal, length};
ghost use Rattle.std.specs.Fmt.{signed_decimal};

use itoa::{Buffer, write_digits};
use std::marker::Model;

// Room for four numbers of 128 bits, a word of 20 letters, blanks and the end of a line.
const ROOM: usize = 192;

/// A text of at most 192 bytes, seen as the list of its bytes.
#[derive(Drop)]
pub struct TextFromEnd {
    bytes: [u8; ROOM],
    start: usize,
}

impl Model for TextFromEnd {
    ghost use Rattle.std.specs.Prelude.{ℕ, List, drop, ◌≤◌};

    ghost Value = { List ℕ };

    ghost view = { λ t. drop t.start t.bytes };

    ghost invariant = { λ t. t.start ≤ 192 };
}

impl TextFromEnd {
    pub fn new() -> TextFromEnd
        ensures { result ≡ [] }
    {
        TextFromEnd {
            bytes: [0; ROOM],
            start: ROOM,
        }
    }

    /// Forgets what is there.
    pub fn clear(&mut self)
        ensures { self.new ≡ [] }
    {
        self.start = ROOM;
    }

    pub fn as_slice(&self) -> &[u8]
        ensures bytes { result.now ≡ self.now }
    {
        &self.bytes[self.start..]
    }

    /// Writes one byte in front of what is there.
    #[inline(always)]
    pub fn put_byte(&mut self, byte: u8)
        requires { length self.old < 192 }
        ensures { self.new ≡ byte ∷ self.old }
    {
        self.start -= 1;
        self.bytes[self.start] = byte;
    }

    /// Writes the number in decimal in front of what is there, with `-` where it is negative.
    // With its calls in one function, where the text begins stays in a register.
    #[inline(always)]
    pub fn put_number(&mut self, number: i128)
        requires { length self.old + 40 ≤ 192 }
        ensures text { self.new ≡ signed_decimal number ++ self.old }
        ensures short { length self.new ≤ length self.old + 40 }
    {
        let size = number.unsigned_abs();
        if size <= u128::from(u64::MAX) {
            self.put_digits(size as u64);
        } else {
            self.put_wide(size);
        }
        if number < 0 {
            self.put_byte(b'-');
        }
    }

    // Writes the digits of a number of 64 bits in front of what is there.
    fn put_digits(&mut self, number: u64)
        requires { length self.old + 20 ≤ 192 }
        ensures text { self.new ≡ decimal number ++ self.old }
        ensures short { length self.new ≤ length self.old + 20 }
    {
        self.start = write_digits(number, &mut self.bytes, self.start);
    }

    // Writes the digits of a wider number in front of what is there.
    #[inline(never)]
    fn put_wide(&mut self, number: u128)
        requires { length self.old + 39 ≤ 192 }
        ensures text { self.new ≡ decimal number ++ self.old }
        ensures short { length self.new ≤ length self.old + 39 }
    {
        let mut buffer = Buffer::new();
        self.put(buffer.format(number).as_bytes());
    }

    /// Writes the text in front of what is there.
    pub fn put(&mut self, text: &[u8])
        requires { length self.old + length text.now ≤ 192 }
        ensures { self.new ≡ text.now ++ self.old }
    {
        let end = self.start;
        self.start -= text.len();
        self.bytes[self.start..end].copy_from_slice(text);
    }
}
