// A recovery.
ghost use Rattle.std.specs.Prelude.{◌≡◌, ◌≤◌, ◌+◌, ◌<◌, ◌++◌, List, ℕ, length, IfOk, IfErr, OnOk, OnErr, MatchResult};
ghost use Rattle.journal_save.specs.Disk.{Over, Known, facts_of};
ghost use Rattle.journal_save.specs.Saving.{listed_in, old_of, IsRecoverable, IsGuarded, IsTaken, IsRecovered, IsNotRecovered, IsCount, IsWriting, IsOver, LeavesOnly, TellsFailure, IsNoRefusal, IsThere};

use crate::disk::Disk;
use crate::errors::{PutBack, RecoverError};
use crate::finishing::finish;
use crate::listing::{check, next_listed};
use journal_codes::{DIGEST_BYTES, FRONT_BYTES, HEAD_BYTES, PIECE_ROOM};

/// Puts the old bytes back, where a journal is there, and takes it away: how many, and in how many
/// pieces. `None` where none is there. Nothing is written before all of the journal was read, and
/// found to be one of FILE. A recovery may be cut off too, and made again.
pub fn recover<D: Disk>(disk: &mut D, room: &mut [u8]) -> Result<Option<PutBack>, RecoverError>
    requires recoverable { Known (D.disk disk.old) (λ d. IsRecoverable d.now) }
    requires room { length room.old ≡ PIECE_ROOM }

    // At `Ok` each crash from now on leaves the old file, and no journal.
    ensures recovered { IfOk result (λ back. Over (IsRecovered back)
        (D.disk disk.old) (D.disk disk.new)) }

    // What is no journal of FILE is refused, and nothing was done.
    ensures refused { IfErr result (λ error. Over (IsNotRecovered error)
        (D.disk disk.old) (D.disk disk.new)) }

    // A crash at any moment leaves what stands for the old file, if the journal is one of FILE.
    ensures any_moment { Over (λ d e. IsTaken (facts_of d.now) d.now.journal
        → LeavesOnly (λ f. f ≡ old_of d.now) d e) (D.disk disk.old) (D.disk disk.new) }

    // It does not give up by itself.
    ensures cause { MatchResult result (λ _. D.failed disk.new ≡ D.failed disk.old)
        (λ error. TellsFailure error (D.failed disk.old) (D.failed disk.new)) }
{
    let Some(size) = disk.journal_length()? else {
        return Ok(None);
    };
    let facts = disk.facts();
    check(disk, facts, size, room)?;
    let back = put_back(disk, facts.length, size, room)?;
    disk.sync_file()?;
    finish(disk)?;
    Ok(Some(back))
}

// Writes the pieces of the journal, which has this many bytes and was checked, into FILE.
fn put_back<D: Disk>(
    disk: &mut D,
    file: u64,
    size: u64,
    room: &mut [u8],
) -> Result<PutBack, RecoverError>
    requires room { length room.old ≡ PIECE_ROOM }
    requires long { 56 ≤ size }
    requires guarded { Known (D.disk disk.old) (λ d. IsGuarded d.now × IsThere file size d.now) }
    ensures count { IfOk result (λ back. Over (λ d e. IsCount (listed_in d.now.journal) back)
        (D.disk disk.old) (D.disk disk.new)) }
    ensures ok { OnOk result (Over (λ d e. e.now.writes ≡ d.now.writes ++ listed_in d.now.journal)
        (D.disk disk.old) (D.disk disk.new)) }
    ensures file { Over (λ d e. e.now.file ≡ d.now.file) (D.disk disk.old) (D.disk disk.new) }
    ensures writing { Over IsWriting (D.disk disk.old) (D.disk disk.new) }
    ensures refused { IfErr result (λ error. Over (λ d e. IsNoRefusal error)
        (D.disk disk.old) (D.disk disk.new)) }
    ensures cause { MatchResult result (λ _. D.failed disk.new ≡ D.failed disk.old)
        (λ error. TellsFailure error (D.failed disk.old) (D.failed disk.new)) }
{
    let end = size - DIGEST_BYTES as u64;
    let mut from = FRONT_BYTES as u64;
    let mut back = PutBack {
        pieces: 0,
        bytes: 0,
    };
    'pieces: while from < end {
        let listed = next_listed(disk, file, from, end, room)?;
        disk.write_at(listed.head.place, &room[..listed.head.size as usize])?;
        back.pieces += 1;
        back.bytes += listed.head.size;
        from += HEAD_BYTES as u64 + listed.head.size;
    }
    Ok(back)
}
