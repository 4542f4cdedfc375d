// What is to be written into FILE, one piece after another.
ghost use Rattle.std.specs.Prelude.{◌≡◌, Bool, List, length, IfOk};
ghost use Rattle.journal_codes.specs.Codes.{Span};
ghost use Rattle.journal_save.specs.Disk.{Tells};
ghost use Rattle.journal_save.specs.Walking.{IsNext};

use journal_codes::{Head, PIECE_ROOM};
use std::io::Result;

/// The pieces of a repair, which are walked over twice: each a place in FILE and the bytes that go
/// there. They may come in any order, and they may overlap.
pub trait Edits {
    /// All of them.
    ghost all: { Self → List Span };

    /// Those that this walk has still to give.
    ghost left: { Self → List Span };

    /// A call has failed.
    ghost failed: { Self → Bool };

    /// Begins a walk.
    fn rewind(&mut self)
        ensures all { all self.new ≡ all self.old }
        ensures left { left self.new ≡ all self.old }
        ensures failed { failed self.new ≡ failed self.old };

    /// Where the next piece lies, and how many bytes it has, at most `PIECE_ROOM`; its bytes begin
    /// the room. `None` behind the last one.
    fn next_piece(&mut self, room: &mut [u8]) -> Result<Option<Head>>
        requires { length room.old ≡ PIECE_ROOM }
        ensures all { all self.new ≡ all self.old }
        ensures piece { IfOk result
            (λ found. IsNext found room.new (left self.old) (left self.new)) }
        ensures cause { Tells result (failed self.old) (failed self.new) };
}
