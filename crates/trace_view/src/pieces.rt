ghost use Rattle.std.specs.Prelude.{◌≡◌, ◌≤◌, take, length};

use crate::cursor::Cursor;
use std::marker::Model;

/// An iterator over the pieces of a trace, or of a part of it: slices, none of them empty, that
/// joined are its bytes. Seen as the bytes that are left. Takes no memory.
#[derive(Drop)]
pub struct Pieces<'a> {
    left: usize,
    cursor: Cursor<'a>,
}

impl<'a> Model for Pieces<'a> {
    ghost use Rattle.std.specs.Prelude.{ℕ, List, ◌≤◌, take, length};

    ghost Value = { List ℕ };

    ghost view = { λ p. take p.left p.cursor };

    ghost invariant = { λ p. p.left ≤ length p.cursor };
}

impl<'a> Pieces<'a> {
    // So many bytes behind the cursor.
    pub(crate) fn new(left: usize, cursor: Cursor<'a>) -> Pieces<'a>
        requires { left ≤ length cursor }
        ensures { result ≡ take left cursor.entry }
    {
        Pieces { left, cursor }
    }
}

impl<'a> Iterator for Pieces<'a> {
    ghost use Rattle.std.specs.Prelude.{length};
    ghost use Rattle.std.specs.Iterator.{at_most};
    ghost use Rattle.trace_view.specs.Fronts.{GivesFront};

    type Item = &'a [u8];

    ghost next_gives = { GivesFront };

    ghost remaining = { λ bytes. at_most (length bytes) };

    fn next(&mut self) -> Option<&'a [u8]> {
        if self.left == 0 {
            return None;
        }
        let piece = self.cursor.piece();
        if piece.len() > self.left {
            let front = &piece[..self.left];
            self.left = 0;
            return Some(front);
        }
        self.left -= piece.len();
        Some(piece)
    }
}
