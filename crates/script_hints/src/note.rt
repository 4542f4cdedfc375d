// A refused line as it is kept.
ghost use Rattle.std.specs.Prelude.{◌≡◌, ◌≤◌, length, take, not, IsTrue};

use crate::fault::Fault;
use script_words::LineFault;

// So many bytes hold 60 characters of UTF-8, and the words that a hint looks at.
const KEPT: usize = 240;

/// What is kept of a refused line: its number from 1, its first 240 bytes, and why it is refused.
#[derive(Clone, Copy)]
pub struct Note {
    number: u64,
    bytes: [u8; KEPT],
    length: usize,
    // Whether the line has no more bytes than these.
    is_whole: bool,
    fault: Fault,
    ghost short: { length ≤ 240 },
}

impl Note {
    /// Keeps the line of this number.
    pub(crate) fn new(number: u64, line: &[u8], fault: Fault) -> Note
        ensures number { result.number ≡ number }
        ensures whole { IsTrue result.is_whole → result.length ≡ length line.now }
        ensures cut { IsTrue (not result.is_whole) → result.length ≡ 240 }
        ensures fault { result.fault ≡ fault }
    {
        let length = line.len().min(KEPT);
        let mut bytes = [0; KEPT];
        bytes[..length].copy_from_slice(&line[..length]);
        Note {
            number,
            bytes,
            length,
            is_whole: line.len() <= KEPT,
            fault,
        }
    }

    /// A note that fills the room until a line is kept there.
    pub(crate) fn blank() -> Note {
        Note::new(0, b"", Fault::Line(LineFault::Unknown))
    }

    /// The number of the line, from 1.
    pub fn number(&self) -> u64
        ensures { result ≡ self.now.number }
    {
        self.number
    }

    /// The first bytes of the line.
    pub fn bytes(&self) -> &[u8]
        ensures bytes { result.now ≡ take self.now.length self.now.bytes }
        ensures short { length result.now ≤ 240 }
    {
        &self.bytes[..self.length]
    }

    /// Whether these are all bytes of the line.
    pub fn is_whole(&self) -> bool
        ensures { result ≡ self.now.is_whole }
    {
        self.is_whole
    }

    /// Why the line is refused.
    pub fn fault(&self) -> Fault
        ensures { result ≡ self.now.fault }
    {
        self.fault
    }
}
