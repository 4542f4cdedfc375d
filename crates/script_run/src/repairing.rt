// One repair of FILE itself.
ghost use Rattle.std.specs.Prelude.{◌≡◌, List, ℕ, length, true, IfOk};
ghost use Rattle.frame_cut.specs.Volume.{bytes_of};
ghost use Rattle.journal_save.specs.Disk.{laid_all};
ghost use Rattle.script_run.specs.InPlace.{IsCauseOf, Repairs};

use base_file::Held;
use bench_core::Bench;
use edit_pieces::{Repaired, Unfit, VolumeEdits, edits_over};
use journal_codes::PIECE_ROOM;
use journal_save::{Disk, Edits, save_in_place, settle};
use trace_record::PackedRecord;

/// The pieces of the edits of a volume, or why they need a new file.
pub(crate) fn edits_of(bench: &Bench) -> Result<VolumeEdits<'_, PackedRecord>, Unfit>
    ensures law { IfOk result (λ edits. laid_all edits.all bench.now.loaded
        ≡ bytes_of bench.now.state.volume) }
    ensures begun { IfOk result (λ edits. edits.left ≡ edits.all) }
{
    let overlay = bench.volume().overlay();
    edits_over(
        overlay.text(),
        overlay.bin(),
        overlay.tail(),
        overlay.store(),
    )
}

/// The bytes that were loaded.
pub(crate) fn base_of(bench: &Bench) -> &Held
    ensures { result.now.bytes ≡ bench.now.loaded }
{
    &bench.volume().overlay().store().loaded
}

/// Writes these pieces into FILE, under a journal of the bytes that it has there: a repair of
/// whatever bytes it holds. `room` holds one piece.
pub(crate) fn repair_by<D: Disk, E: Edits>(disk: &mut D, edits: &mut E, room: &mut [u8]) -> Repaired
    requires room { length room.old ≡ PIECE_ROOM }
    ensures repairs { (held : List ℕ) → Repairs true held (laid_all (E.all edits.old) held) result
        (D.disk disk.old) (D.disk disk.new) }
    ensures cause { IsCauseOf result (D.failed disk.new) (E.failed edits.new) }
{
    if let Err(error) = settle(disk) {
        return Repaired::Unsettled(error);
    }
    match save_in_place(disk, edits, room) {
        Ok(()) => Repaired::Saved,
        Err(error) => Repaired::Failed(error),
    }
}
