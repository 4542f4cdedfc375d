// The text of a line that is printed, built without memory.
ghost use Rattle.std.specs.Prelude.{◌≡◌, ◌≤◌, ◌<◌, ◌+◌, ◌++◌, ◌∷◌, [], codes, length};

use itoa::{Buffer, Integer};
use std::marker::Model;

// No line that is printed is longer.
const ROOM: usize = 640;

/// A text of at most 640 bytes, seen as the list of its bytes.
#[derive(Drop)]
pub struct TextBuffer {
    bytes: [u8; ROOM],
    length: usize,
}

impl Model for TextBuffer {
    ghost use Rattle.std.specs.Prelude.{ℕ, List, take, ◌≤◌};

    ghost Value = { List ℕ };

    ghost view = { λ t. take t.length t.bytes };

    ghost invariant = { λ t. t.length ≤ 640 };
}

impl TextBuffer {
    pub fn new() -> TextBuffer
        ensures { result ≡ [] }
    {
        TextBuffer {
            bytes: [0; ROOM],
            length: 0,
        }
    }

    /// Forgets what is there.
    pub fn clear(&mut self)
        ensures { self.new ≡ [] }
    {
        self.length = 0;
    }

    /// Writes the text behind what is there.
    pub fn push(&mut self, text: &[u8])
        requires { length self.old + length text.now ≤ 640 }
        ensures { self.new ≡ self.old ++ text.now }
    {
        let end = self.length + text.len();
        self.bytes[self.length..end].copy_from_slice(text);
        self.length = end;
    }

    /// Writes one byte behind what is there.
    pub fn push_byte(&mut self, byte: u8)
        requires { length self.old < 640 }
        ensures { self.new ≡ self.old ++ byte ∷ [] }
    {
        self.bytes[self.length] = byte;
        self.length += 1;
    }

    /// Writes the number in decimal, with `-` in front where it is negative.
    pub fn push_number<I: Integer>(&mut self, number: I)
        requires { length self.old + 40 ≤ 640 }
        ensures text { self.new ≡ self.old ++ I.text number }
        ensures short { length self.new ≤ length self.old + 40 }
    {
        let mut buffer = Buffer::new();
        self.push(buffer.format(number).as_bytes());
    }

    pub fn as_slice(&self) -> &[u8]
        ensures bytes { result.now ≡ self.now }
        ensures short { length result.now ≤ 640 }
    {
        &self.bytes[..self.length]
    }

    /// Writes a blank and the number behind it.
    pub fn push_spaced<I: Integer>(&mut self, number: I)
        requires { length self.old ≤ 599 }
        ensures text { self.new ≡ self.old ++ (codes " " ++ I.text number) }
        ensures short { length self.new ≤ length self.old + 41 }
    {
        self.push_byte(b' ');
        self.push_number(number);
    }

    /// Writes the text and the number behind it.
    pub fn push_numbered<I: Integer>(&mut self, text: &[u8], number: I)
        requires { length self.old + length text.now ≤ 600 }
        ensures text { self.new ≡ self.old ++ (text.now ++ I.text number) }
        ensures short { length self.new ≤ length self.old + length text.now + 40 }
    {
        self.push(text);
        self.push_number(number);
    }
}
