// Where the pieces of a volume's edits go.
ghost use Rattle.std.specs.Prelude.{◌≡◌, ◌↔◌, length, map, IfOk, IsTrue};
ghost use Rattle.std.specs.List.{AllByRecursion};
ghost use Rattle.journal_save.specs.Saving.{ranges};
ghost use Rattle.edit_pieces.specs.Further.{range_at, IsWithin};

use crate::volume_edits::VolumeEdits;
use journal_codes::{Head, PIECE_ROOM};
use std::alloc::{AllocError, Global};

/// Where all pieces of these edits go, of which none is given then. The room holds one piece. Takes
/// memory for the places.
pub fn heads_of<T: Copy>(
    alloc: Global,
    edits: &mut VolumeEdits<'_, T>,
    room: &mut [u8],
) -> Result<Vec<Head>, AllocError>
    requires { length room.old ≡ PIECE_ROOM }
    ensures all { edits.new.all ≡ edits.old.all }
    ensures begun { IfOk result (λ heads. edits.new.left ≡ edits.new.all) }
    ensures ranges { IfOk result (λ heads. map range_at heads.items ≡ ranges edits.old.all) }
{
    let mut heads = Vec::new(alloc);
    edits.begin();
    'pieces: while let Some(head) = edits.next(room) {
        heads.push(head)?;
    }
    edits.begin();
    Ok(heads)
}

/// Whether each of these pieces lies within a file of so many bytes.
pub fn are_within(heads: &[Head], file: u64) -> bool
    ensures { IsTrue result ↔ AllByRecursion (IsWithin file) heads.now }
{
    let mut left = heads;
    'heads: while let Some((head, behind)) = left.split_first() {
        if head.size > PIECE_ROOM as u64 || head.size > file || head.place > file - head.size {
            return false;
        }
        left = behind;
    }
    true
}
