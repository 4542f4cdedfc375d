// A line of a session as it is read.
ghost use Rattle.std.specs.Prelude.{◌≡◌, ◌≤◌, ◌==◌, ◌++◌, ℕ, List, IsTrue, length};
ghost use Rattle.script_run.specs.Input.{nothing_held, Holds, IsLostWithCause, IsReadAs};
ghost use Rattle.script_run.specs.declared.line_read.LineRead.TheVariants.{Lost};

use crate::line_read::LineRead;
use room::Room;
use std::alloc::Global;
use std::marker::Model;

// The most bytes of a line.
const MOST_BYTES: u64 = 16777216;

/// What is held of a line: its bytes, unless they are too many or no memory held them.
#[derive(Drop)]
pub(crate) struct HeldLine {
    bytes: Vec<u8>,
    length: u64,
    is_lost: bool,
}

impl Model for HeldLine {
    ghost use Rattle.script_run.specs.Input.{Held};

    ghost Value = { Held };

    ghost view = { λ l. record { length = l.length; is_lost = l.is_lost; bytes = l.bytes.items } };
}

impl HeldLine {
    pub(crate) fn new(alloc: Global) -> HeldLine
        ensures { result ≡ nothing_held }
    {
        HeldLine {
            bytes: Vec::new(alloc),
            length: 0,
            is_lost: false,
        }
    }

    /// Forgets the line, and begins with the next one in the same room.
    pub(crate) fn clear(&mut self)
        ensures { self.new ≡ nothing_held }
    {
        self.bytes.clear();
        self.length = 0;
        self.is_lost = false;
    }

    /// Whether no byte of the line was read.
    pub(crate) fn is_empty(&self) -> bool
        ensures { (line : List ℕ) → Holds self.now line → result ≡ (length line == 0) }
    {
        self.length == 0
    }

    /// Puts more bytes of the line behind those that were read. Takes memory for them; where a
    /// growth is refused, or where they are too many, the line's bytes are lost.
    pub(crate) fn add(&mut self, room: &mut Room, part: &[u8])
        ensures held { (line : List ℕ) → Holds self.old line → Holds self.new (line ++ part.now) }
        ensures lost { (first : ℕ) → first ≤ room.old → IsLostWithCause self.old first room.old →
            IsLostWithCause self.new first room.new }
        ensures never_falls { room.old ≤ room.new }
    {
        self.length = self.length.saturating_add(part.len() as u64);
        if self.length > MOST_BYTES || self.is_lost {
            self.is_lost = true;
            return;
        }
        let Ok(()) = room.told(self.bytes.extend_from_slice(part)) else {
            self.is_lost = true;
            return;
        };
    }

    /// How the line was read.
    pub(crate) fn read(&self) -> LineRead
        ensures read { (line : List ℕ) → Holds self.now line → IsReadAs result self.now line }
        ensures lost { result ≡ Lost → IsTrue self.now.is_lost × (self.now.length ≤ 16777216) }
    {
        if self.length > MOST_BYTES {
            LineRead::TooLarge
        } else if self.is_lost {
            LineRead::Lost
        } else {
            LineRead::Text
        }
    }

    /// What is held of the line's bytes.
    pub(crate) fn bytes(&self) -> &[u8]
        ensures { result.now ≡ self.now.bytes }
    {
        self.bytes.as_slice()
    }
}
