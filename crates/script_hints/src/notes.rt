// The refused lines of a run.
ghost use Rattle.std.specs.Prelude.{◌≡◌, ◌≤◌, ◌+◌, ◌<◌, ◌^◌, length};

use crate::fault::Fault;
use crate::note::Note;

// So many lines are kept.
const MOST: usize = 20;

/// The first 20 refused lines of a run, and the number of all. It takes no memory.
#[derive(Drop)]
pub struct Notes {
    kept: [Note; MOST],
    length: usize,
    refused: u64,
    ghost few: { length ≤ 20 },
}

impl Notes {
    /// No line.
    pub fn new() -> Notes
        ensures length { result.length ≡ 0 }
        ensures refused { result.refused ≡ 0 }
    {
        Notes {
            kept: [Note::blank(); MOST],
            length: 0,
            refused: 0,
        }
    }

    /// Counts a refused line, by its number from 1, and keeps it among the first 20.
    pub fn keep(&mut self, number: u64, line: &[u8], fault: Fault)
        ensures kept { self.old.length < 20 → self.new.length ≡ self.old.length + 1 }
        ensures full { self.old.length ≡ 20 → self.new.length ≡ 20 }
        ensures refused { self.old.refused + 1 < 2 ^ 64 → self.new.refused ≡ self.old.refused + 1 }
    {
        if self.length < MOST {
            self.kept[self.length] = Note::new(number, line, fault);
            self.length += 1;
        }
        self.refused = self.refused.saturating_add(1);
    }

    /// The lines that are kept, in order.
    pub fn as_slice(&self) -> &[Note]
        ensures { length result.now ≡ self.now.length }
    {
        &self.kept[..self.length]
    }

    /// How many lines were refused. At `u64::MAX` it stays.
    pub fn refused(&self) -> u64
        ensures { result ≡ self.now.refused }
    {
        self.refused
    }

    /// How many refused lines are counted and not kept.
    pub fn left_out(&self) -> u64 {
        self.refused.saturating_sub(self.length as u64)
    }
}
