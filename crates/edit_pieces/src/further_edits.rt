// The pieces of a repair behind an earlier one.
ghost use Rattle.std.specs.Prelude.{◌≡◌, ◌++◌, List, ℕ, map, length, false};
ghost use Rattle.std.specs.List.{AllByRecursion};
ghost use Rattle.journal_save.specs.Disk.{laid_all, IsSame};
ghost use Rattle.edit_pieces.specs.Further.{put_back, range_at, IsWithin};

use crate::volume_edits::VolumeEdits;
use journal_codes::Head;
use journal_save::Edits;
use std::marker::Model;

/// The pieces of a repair of a file that an earlier repair has changed: first the loaded bytes,
/// where that one wrote, and then those of the volume's edits. So the file becomes the volume also
/// where an edit was taken back since. Seen as all pieces and those that the walk has still to
/// give. No call takes memory, reads the file, looks at a trace or fails.
#[derive(Drop)]
pub struct FurtherEdits<'a, T: Copy> {
    written: &'a [Head],
    loaded: &'a [u8],

    // Of the earlier pieces, those that are still to be put back.
    left: &'a [Head],
    edits: VolumeEdits<'a, T>,
}

impl<'a, T: Copy> Model for FurtherEdits<'a, T> {
    ghost use Rattle.edit_pieces.specs.Walks.{Walk};
    ghost use Rattle.edit_pieces.specs.FurtherWalk.{walk_of, IsFurtherWalk};

    ghost Value = { Walk };

    ghost view = { walk_of };

    ghost invariant = { IsFurtherWalk };
}

impl<'a, T: Copy> FurtherEdits<'a, T> {
    /// The pieces of a file that is the loaded one but where these pieces were written, each of
    /// which lies within it. Of the edits none was given yet.
    pub fn new(
        written: &'a [Head],
        loaded: &'a [u8],
        edits: VolumeEdits<'a, T>,
    ) -> FurtherEdits<'a, T>
        requires within { AllByRecursion (IsWithin (length loaded.now)) written.now }
        requires begun { edits.left ≡ edits.all }
        ensures law { (held : List ℕ) → IsSame (map range_at written.now) loaded.now held →
            laid_all result.all held ≡ laid_all edits.entry.all loaded.now }
        ensures begun { result.left ≡ result.all }
    {
        FurtherEdits {
            written,
            loaded,
            left: written,
            edits,
        }
    }
}

impl<T: Copy> Edits for FurtherEdits<'_, T> {
    ghost all = { λ edits. edits.all };

    ghost left = { λ edits. edits.left };

    ghost failed = { λ edits. false };

    fn rewind(&mut self) {
        self.left = self.written;
        self.edits.begin();
    }

    fn next_piece(&mut self, room: &mut [u8]) -> std::io::Result<Option<Head>> {
        let Some((head, behind)) = self.left.split_first() else {
            return Ok(self.edits.next(room));
        };
        let (at, size) = (head.place as usize, head.size as usize);
        room[..size].copy_from_slice(&self.loaded[at..at + size]);
        self.left = behind;
        Ok(Some(*head))
    }
}
