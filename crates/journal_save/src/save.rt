// A save in place.
ghost use Rattle.std.specs.Prelude.{◌≡◌, ◌⊎◌, ◌++◌, [], true, length, OnOk, OnErr, IfErr};
ghost use Rattle.journal_save.specs.Disk.{Over, Known, Tells, IsDurable, laid_all};
ghost use Rattle.journal_save.specs.Saving.{ranges, listed_in, IsGuarded, IsSettled, IsSettling, StaysSettled, WasFree, AsItWasOr, IsQuiet, LeavesOnly, IsEither, IsWriting, IsOver, IsUntouched, IsListing, IsGuarding, IsHarmless, IsRefused, IsCaused, fresh_journal};

use crate::disk::Disk;
use crate::edits::Edits;
use crate::errors::SaveError;
use crate::finishing::finish;
use crate::recovery::recover;
use journal_codes::{PIECE_ROOM, front_of, head_of};
use md5::{Digest, Md5};
use std::io::Result;

/// Lets all that FILE took, and what the journal's name leads to, be on the disk, as a save needs.
/// Where that is so already, nothing changes, whether a call fails or not.
pub fn settle<D: Disk>(disk: &mut D) -> Result<()>
    ensures ok { OnOk result (Over IsSettling (D.disk disk.old) (D.disk disk.new)) }
    ensures still { Over StaysSettled (D.disk disk.old) (D.disk disk.new) }
    ensures cause { Tells result (D.failed disk.old) (D.failed disk.new) }
{
    disk.sync_file()?;
    disk.sync_folder()
}

/// Writes the edits into FILE, whose old bytes go into a journal first. Where a journal is there
/// already it is refused, and does nothing. It takes no memory: the room holds one piece.
pub fn save_in_place<D: Disk, E: Edits>(
    disk: &mut D,
    edits: &mut E,
    room: &mut [u8],
) -> std::result::Result<(), SaveError>
    requires settled { Known (D.disk disk.old) (λ d. IsSettled d.now) }
    requires room { length room.old ≡ PIECE_ROOM }

    // At `Ok` each crash from now on leaves the new file, and no journal.
    ensures saved { OnOk result (Over
        (λ d e. IsDurable (laid_all (E.all edits.old) d.now.file) e.now)
        (D.disk disk.old) (D.disk disk.new)) }
    ensures free { OnOk result (Over (λ d e. WasFree d) (D.disk disk.old) (D.disk disk.new)) }
    ensures refused { IfErr result (λ error. Over (IsRefused error (E.all edits.old))
        (D.disk disk.old) (D.disk disk.new)) }

    // A crash at any moment leaves what stands for the old file or the new one, all of it.
    ensures any_moment { Over (AsItWasOr (λ d e.
        LeavesOnly (IsEither d.now.file (laid_all (E.all edits.old) d.now.file)) d e))
        (D.disk disk.old) (D.disk disk.new) }

    // It does not give up by itself.
    ensures cause { OnErr result ((D.failed disk.new ≡ true) ⊎ (E.failed edits.new ≡ true)) }
{
    if let Err(error) = seal(disk, edits, room) {
        return Err(SaveError::Untouched(error));
    }
    match write_over(disk, edits, room) {
        Ok(()) => match finish(disk) {
            Ok(()) => Ok(()),
            Err(error) => Err(SaveError::NotSettled(error)),
        },
        Err(error) => match recover(disk, room) {
            Ok(_) => Err(SaveError::Undone(error)),
            Err(again) => Err(SaveError::Interrupted(error, again)),
        },
    }
}

// Lists the bytes that FILE has where the edits go: all of a journal.
fn list_all<D: Disk, E: Edits>(disk: &mut D, edits: &mut E, room: &mut [u8]) -> Result<()>
    requires quiet { Known (D.disk disk.old) (λ d. IsQuiet d.now) }
    requires empty { Known (D.disk disk.old) (λ d. d.now.beside ≡ fresh_journal) }
    requires room { length room.old ≡ PIECE_ROOM }
    ensures ok { OnOk result (Over (IsListing (ranges (E.all edits.old)))
        (D.disk disk.old) (D.disk disk.new)) }
    ensures untouched { Over IsUntouched (D.disk disk.old) (D.disk disk.new) }
    ensures all { E.all edits.new ≡ E.all edits.old }
    ensures cause { IsCaused result (D.failed disk.old) (D.failed disk.new) (E.failed edits.new) }
{
    let front = front_of(disk.facts());
    let mut hasher = Md5::new();
    hasher.update(&front);
    disk.append(&front)?;
    edits.rewind();
    'pieces: while let Some(head) = edits.next_piece(room)? {
        let old = &mut room[..head.size as usize];
        disk.read_at(head.place, old)?;
        let head = head_of(head);
        hasher.update(&head);
        hasher.update(&*old);
        disk.append(&head)?;
        disk.append(old)?;
    }
    disk.append(&hasher.finalize())
}

// Makes the journal, all of it on the disk, and then its name. Where that fails it is taken away
// again, but not where it could not be made: what is there then is another's.
fn seal<D: Disk, E: Edits>(disk: &mut D, edits: &mut E, room: &mut [u8]) -> Result<()>
    requires settled { Known (D.disk disk.old) (λ d. IsSettled d.now) }
    requires room { length room.old ≡ PIECE_ROOM }
    ensures ok { OnOk result (Over (IsGuarding (ranges (E.all edits.old)))
        (D.disk disk.old) (D.disk disk.new)) }
    ensures free { OnOk result (Over (λ d e. WasFree d × IsUntouched d e)
        (D.disk disk.old) (D.disk disk.new)) }
    ensures untouched { Over (AsItWasOr IsUntouched) (D.disk disk.old) (D.disk disk.new) }
    ensures all { E.all edits.new ≡ E.all edits.old }
    ensures cause { IsCaused result (D.failed disk.old) (D.failed disk.new) (E.failed edits.new) }
{
    disk.create()?;
    match fill(disk, edits, room) {
        Ok(()) => Ok(()),
        Err(error) => {
            clean(disk);
            Err(error)
        }
    }
}

// Fills the journal that is being made.
fn fill<D: Disk, E: Edits>(disk: &mut D, edits: &mut E, room: &mut [u8]) -> Result<()>
    requires quiet { Known (D.disk disk.old) (λ d. IsQuiet d.now) }
    requires empty { Known (D.disk disk.old) (λ d. d.now.beside ≡ fresh_journal) }
    requires room { length room.old ≡ PIECE_ROOM }
    ensures ok { OnOk result (Over (IsGuarding (ranges (E.all edits.old)))
        (D.disk disk.old) (D.disk disk.new)) }
    ensures untouched { Over IsUntouched (D.disk disk.old) (D.disk disk.new) }
    ensures all { E.all edits.new ≡ E.all edits.old }
    ensures cause { IsCaused result (D.failed disk.old) (D.failed disk.new) (E.failed edits.new) }
{
    list_all(disk, edits, room)?;
    disk.sync_journal()?;
    disk.publish()?;
    disk.sync_folder()
}

// Takes away what a save made that did not come to write FILE.
fn clean<D: Disk>(disk: &mut D)
    ensures cleaned { Over (λ d e. IsHarmless d.now.file d.now → IsUntouched d e)
        (D.disk disk.old) (D.disk disk.new) }
    ensures cause { D.failed disk.old ≡ true → D.failed disk.new ≡ true }
{
    let _ = disk.clear();
    let _ = disk.remove_journal();
    let _ = disk.sync_folder();
}

// Writes the pieces into FILE, whose journal guards their ranges.
fn write_all<D: Disk, E: Edits>(disk: &mut D, edits: &mut E, room: &mut [u8]) -> Result<()>
    requires guarded { Known (D.disk disk.old) (λ d. IsGuarded d.now) }
    requires covered { Known (D.disk disk.old)
        (λ d. ranges (listed_in d.now.journal) ≡ ranges (E.all edits.old)) }
    requires room { length room.old ≡ PIECE_ROOM }
    ensures ok { OnOk result (Over (λ d e. e.now.writes ≡ d.now.writes ++ E.all edits.old)
        (D.disk disk.old) (D.disk disk.new)) }
    ensures file { Over (λ d e. e.now.file ≡ d.now.file) (D.disk disk.old) (D.disk disk.new) }
    ensures writing { Over IsWriting (D.disk disk.old) (D.disk disk.new) }
    ensures cause { IsCaused result (D.failed disk.old) (D.failed disk.new) (E.failed edits.new) }
{
    edits.rewind();
    'pieces: while let Some(head) = edits.next_piece(room)? {
        disk.write_at(head.place, &room[..head.size as usize])?;
    }
    Ok(())
}

// The same, durably.
fn write_over<D: Disk, E: Edits>(disk: &mut D, edits: &mut E, room: &mut [u8]) -> Result<()>
    requires guarded { Known (D.disk disk.old) (λ d. IsGuarded d.now) }
    requires covered { Known (D.disk disk.old)
        (λ d. ranges (listed_in d.now.journal) ≡ ranges (E.all edits.old)) }
    requires room { length room.old ≡ PIECE_ROOM }
    ensures ok { OnOk result (Over (IsOver (E.all edits.old)) (D.disk disk.old) (D.disk disk.new)) }
    ensures writing { Over IsWriting (D.disk disk.old) (D.disk disk.new) }
    ensures cause { IsCaused result (D.failed disk.old) (D.failed disk.new) (E.failed edits.new) }
{
    write_all(disk, edits, room)?;
    disk.sync_file()
}
