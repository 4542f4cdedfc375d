// The saves of a session that repair FILE itself.
ghost use Rattle.std.specs.Prelude.{◌≡◌, ◌||◌, Bool, List, ℕ, length, map, IfOk, IsTrue};
ghost use Rattle.frame_cut.specs.Volume.{bytes_of};
ghost use Rattle.journal_save.specs.Disk.{laid_all, IsSame};
ghost use Rattle.journal_save.specs.Saving.{ranges};
ghost use Rattle.edit_pieces.specs.Further.{range_at};
ghost use Rattle.edit_pieces.specs.declared.attempt.Attempt.{Attempt as AttemptOf};
ghost use Rattle.edit_pieces.specs.declared.attempt.Attempt.TheVariants.{Stopped};
ghost use Rattle.script_run.specs.Places.{answer_of, is_last, is_written, Itself, Repairing, Stops, Tries};

use crate::repairing::{base_of, edits_of, repair_by};
use crate::saves::Saves;
use base_file::Held;
use bench_core::Bench;
use edit_pieces::{Attempt, FurtherEdits, Repaired, VolumeEdits, Watcher, are_within, heads_of};
use journal_codes::{Head, PIECE_ROOM};
use journal_save::{Disk, SaveError};
use refusal_texts::SessionFault;
use room::Room;
use std::alloc::{AllocError, Global};

/// FILE itself, which each save of a session repairs: only the bytes that differ from those that it
/// has are written, under a journal of those. A save behind the first puts the loaded bytes back
/// where the earlier one wrote, and writes the edits over them: so FILE becomes the volume also
/// where an edit was taken back in between. Where the edits did not leave the order, the number and
/// the lengths of the traces as they were, a save is S08, nothing is written, and the session goes
/// on. A save that was cut off, or that a power cut may undo, is the last: each one behind it is
/// S08. The watcher is told of each.
#[derive(Drop)]
pub struct InPlace<D, W> {
    pub disk: D,
    pub watcher: W,

    // Where the last save wrote.
    written: Vec<Head>,
    // Whether only the save behind the last line is one: where the bytes of the volume stay on
    // disk, a repair would change them.
    is_at_end: bool,
    is_stopped: bool,
}

impl<D: Disk, W: Watcher<D>> InPlace<D, W> {
    /// FILE, which was not repaired since it was loaded.
    pub fn new(alloc: Global, disk: D, watcher: W, is_at_end: bool) -> InPlace<D, W> {
        InPlace {
            disk,
            watcher,
            written: Vec::new(alloc),
            is_at_end,
            is_stopped: false,
        }
    }

    // Repairs FILE, and tells the watcher.
    fn repair(&mut self, alloc: Global, bench: &Bench) -> Result<u64, SessionFault>
        ensures { (attempt : AttemptOf)
            × (result ≡ answer_of attempt (length (bytes_of bench.now.state.volume)))
            × Stops self.old.is_stopped attempt self.new.is_stopped
            × Tries bench.now.loaded (map range_at self.old.written.items) (D.disk self.old.disk)
            (bytes_of bench.now.state.volume) attempt (map range_at self.new.written.items)
            (D.disk self.new.disk) }
    {
        let bytes = bench.volume().length();
        let attempt = self.attempt(alloc, bench);
        let answer = answer_of(&attempt, bytes);
        if is_last(&attempt) {
            self.is_stopped = true;
        }
        self.watcher.hear(&mut self.disk, attempt);
        answer
    }

    // Repairs FILE.
    fn attempt(&mut self, alloc: Global, bench: &Bench) -> Attempt
        ensures stops { IsTrue self.old.is_stopped → result ≡ Stopped }
        ensures stays { self.new.is_stopped ≡ self.old.is_stopped }
        ensures tries { Tries bench.now.loaded (map range_at self.old.written.items)
            (D.disk self.old.disk) (bytes_of bench.now.state.volume) result
            (map range_at self.new.written.items) (D.disk self.new.disk) }
    {
        if self.is_stopped {
            return Attempt::Stopped;
        }
        try_repair(alloc, bench, &mut self.disk, &mut self.written)
    }
}

impl<D: Disk, W: Watcher<D>> Saves for InPlace<D, W> {
    ghost place = { λ own loaded.
        Itself loaded (map range_at own.written.items) own.is_stopped (D.disk own.disk) };

    fn follows(&self) {}

    fn save(&mut self, room: &mut Room, bench: &mut Bench) -> Result<u64, SessionFault> {
        if self.is_at_end {
            return Err(SessionFault::NoOut);
        }
        self.repair(room.alloc(), bench)
    }

    fn save_at_end(&mut self, room: &mut Room, bench: &mut Bench) -> Result<u64, SessionFault> {
        self.repair(room.alloc(), bench)
    }
}

// What a save tells of a volume of so many bytes.
fn answer_of(attempt: &Attempt, bytes: u64) -> Result<u64, SessionFault>
    ensures { result ≡ answer_of attempt.now bytes }
{
    match attempt {
        Attempt::Ended(Repaired::Saved) => Ok(bytes),
        Attempt::Ended(Repaired::Failed(SaveError::NotSettled(_))) => {
            Err(SessionFault::SaveFailed(bytes))
        }
        Attempt::Stopped | Attempt::NoMemory | Attempt::Ended(_) => Err(SessionFault::SaveFailed(
            0,
        )),
    }
}

// Whether no save may follow: FILE holds a part of the edits, or its journal may still be there.
fn is_last(attempt: &Attempt) -> bool
    ensures { result ≡ is_last attempt.now }
{
    matches!(
        attempt,
        Attempt::Ended(Repaired::Failed(SaveError::Interrupted(..) | SaveError::NotSettled(_)))
    )
}

// Repairs FILE, which was written here before, and is written there then.
fn try_repair<D: Disk>(
    alloc: Global,
    bench: &Bench,
    disk: &mut D,
    written: &mut Vec<Head>,
) -> Attempt
    ensures { Tries bench.now.loaded (map range_at written.old.items) (D.disk disk.old)
        (bytes_of bench.now.state.volume) result (map range_at written.new.items)
        (D.disk disk.new) }
{
    let mut edits = match edits_of(bench) {
        Ok(edits) => edits,
        Err(why) => return Attempt::Ended(Repaired::Unfit(why)),
    };
    let Ok(mut piece) = room_of_a_piece(alloc) else {
        return Attempt::NoMemory;
    };
    let piece = piece.as_mut_slice();
    let Ok(heads) = heads_of(alloc, &mut edits, piece) else {
        return Attempt::NoMemory;
    };
    let attempt = repair_again(disk, base_of(bench), written.as_slice(), edits, piece);
    if is_written(&attempt) {
        *written = heads;
    }
    attempt
}

fn room_of_a_piece(alloc: Global) -> Result<Vec<u8>, AllocError>
    ensures { IfOk result (λ piece. length piece.items ≡ PIECE_ROOM) }
{
    let mut piece = Vec::new(alloc);
    piece.resize(PIECE_ROOM, 0)?;
    Ok(piece)
}

// Whether FILE has the bytes of these edits now.
fn is_written(attempt: &Attempt) -> bool
    ensures { result ≡ is_written attempt.now }
{
    matches!(
        attempt,
        Attempt::Ended(Repaired::Saved | Repaired::Failed(SaveError::NotSettled(_)))
    )
}

// Writes the edits over a FILE of these bytes, of which an earlier repair wrote those pieces.
fn repair_again<T: Copy, D: Disk>(
    disk: &mut D,
    base: &Held,
    written: &[Head],
    mut edits: VolumeEdits<'_, T>,
    piece: &mut [u8],
) -> Attempt
    requires piece { length piece.old ≡ PIECE_ROOM }
    requires begun { edits.left ≡ edits.all }
    ensures { Repairing base.now.bytes (map range_at written.now) (D.disk disk.old)
        (laid_all edits.entry.all base.now.bytes) result (D.disk disk.new) }
{
    if written.is_empty() {
        return Attempt::Ended(repair_by(disk, &mut edits, piece));
    }
    if !base.is_in_memory() {
        return Attempt::Stopped;
    }
    let loaded = base.bytes();
    if !are_within(written, loaded.len() as u64) {
        return Attempt::Stopped;
    }
    let mut edits = FurtherEdits::new(written, loaded, edits);
    Attempt::Ended(repair_by(disk, &mut edits, piece))
}
