// Bytes that go to a place of the file, and how they are given piece by piece.
ghost use Rattle.std.specs.Prelude.{◌≡◌, ◌+◌, ◌<◌, ◌≤◌, ◌^◌, ◌∷◌, length, take};
ghost use Rattle.edit_pieces.specs.Pieces.{pieces_in};
ghost use Rattle.edit_pieces.specs.Spans.{span_of};

use journal_codes::{Head, PIECE_ROOM};

// Bytes that go to a place of the file.
#[derive(Clone, Copy)]
pub(crate) struct Change<'a> {
    // Counted from 0 in the file.
    pub(crate) place: u64,
    pub(crate) bytes: &'a [u8],
}

impl<'a> Change<'a> {
    // Nothing goes anywhere.
    pub(crate) fn none() -> Change<'a>
        ensures place { result.place ≡ 0 }
        ensures bytes { length result.bytes.now ≡ 0 }
    {
        Change {
            place: 0,
            bytes: &[],
        }
    }

    // Copies as many of the bytes as make a piece into the room, and goes on behind them.
    pub(crate) fn give(&mut self, room: &mut [u8]) -> Head
        requires some { 0 < length self.old.bytes.now }
        requires bounded { self.old.place + length self.old.bytes.now < 2 ^ 64 }
        requires room { length room.old ≡ PIECE_ROOM }
        ensures small { result.size ≤ PIECE_ROOM }
        ensures piece { pieces_in (span_of self.old)
            ≡ (result.place, take result.size room.new) ∷ pieces_in (span_of self.new) }
        ensures bounded { self.new.place + length self.new.bytes.now < 2 ^ 64 }
    {
        let size = self.bytes.len().min(PIECE_ROOM);
        let (piece, behind) = self.bytes.split_at(size);
        room[..size].copy_from_slice(piece);
        let place = self.place;
        self.place += size as u64;
        self.bytes = behind;
        Head {
            place,
            size: size as u64,
        }
    }
}
