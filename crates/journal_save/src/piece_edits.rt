// Edits that are at hand.
ghost use Rattle.std.specs.Prelude.{◌≡◌, map, drop, false};

use crate::edits::Edits;
use journal_codes::Head;
use std::io::{Error, ErrorKind, Result};

/// Bytes that go to a place of a file, counted from its begin.
#[derive(Drop)]
pub struct Piece {
    pub place: u64,
    pub bytes: Vec<u8>,
}

/// Pieces at hand, as edits. One of more than `PIECE_ROOM` bytes is refused where the walk comes to
/// it.
#[derive(Drop)]
pub struct PieceEdits<'a> {
    pub pieces: &'a [Piece],
    pub given: usize,
    pub failed: bool,
}

impl<'a> PieceEdits<'a> {
    ghost use Rattle.journal_save.specs.Pieces.{spans_of};

    /// These pieces, none of which was given yet.
    pub fn new(pieces: &'a [Piece]) -> PieceEdits<'a>
        ensures pieces { spans_of result ≡ map Rattle.journal_save.specs.Pieces.span_of pieces.now }
        ensures failed { result.failed ≡ false }
    {
        PieceEdits {
            pieces,
            given: 0,
            failed: false,
        }
    }
}

impl Edits for PieceEdits<'_> {
    ghost use Rattle.journal_save.specs.Pieces.{spans_of};

    ghost all = { λ e. spans_of e };

    ghost left = { λ e. drop e.given (spans_of e) };

    ghost failed = { λ e. e.failed };

    fn rewind(&mut self) {
        self.given = 0;
    }

    fn next_piece(&mut self, room: &mut [u8]) -> Result<Option<Head>> {
        if self.given >= self.pieces.len() {
            return Ok(None);
        }
        let piece = &self.pieces[self.given];
        let size = piece.bytes.len();
        if size > room.len() {
            self.failed = true;
            return Err(Error::new(ErrorKind::InvalidInput, "a piece is too long"));
        }
        room[..size].copy_from_slice(&piece.bytes);
        self.given += 1;
        Ok(Some(Head {
            place: piece.place,
            size: size as u64,
        }))
    }
}
