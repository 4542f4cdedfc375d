// The pieces of a journal, one after another.
ghost use Rattle.std.specs.Prelude.{◌≡◌, ◌↔◌, ◌≤◌, ◌<◌, ◌+◌, ◌-◌, IsTrue, List, ℕ, length, take, drop, IfOk, IfErr, OnOk, MatchResult};
ghost use Rattle.journal_save.specs.Disk.{Shows};
ghost use Rattle.journal_save.specs.Saving.{TellsFailure};
ghost use Rattle.journal_codes.specs.Codes.{IsJournal};
ghost use Rattle.journal_save.specs.Walking.{IsListedAt, IsUnlisted, AreTaken, AreUnlisted, IsRefusal};

use crate::disk::Disk;
use crate::errors::RecoverError;
use journal_codes::{
    DIGEST_BYTES, FRONT_BYTES, FileFacts, HEAD_BYTES, Head, JournalFault, PIECE_ROOM, front_fault,
    head_in,
};
use md5::{Digest, Md5};

/// A piece of a journal: what stands before its bytes, and what that says.
#[derive(Clone, Copy)]
pub struct Listed {
    pub front: [u8; HEAD_BYTES],
    pub head: Head,
}

// Whether a piece ends within so many bytes of a journal, has room, and lies inside a FILE of this
// length.
fn is_inside(head: Head, file: u64, left: u64) -> bool
    requires { HEAD_BYTES ≤ left }
    ensures { IsTrue result ↔ ((16 + head.size ≤ left) × (head.size ≤ PIECE_ROOM)
        × (head.place + head.size ≤ file)) }
{
    let size = head.size;
    size <= left - HEAD_BYTES as u64
        && size <= PIECE_ROOM as u64
        && size <= file
        && head.place <= file - size
}

// Reads the piece of the journal at this place. Its bytes begin the room. It is refused where it
// does not end before `end`, or lies outside FILE.
pub(crate) fn next_listed<D: Disk>(
    disk: &mut D,
    file: u64,
    from: u64,
    end: u64,
    room: &mut [u8],
) -> Result<Listed, RecoverError>
    requires room { length room.old ≡ PIECE_ROOM }
    requires inside { from < end }
    ensures same { D.disk disk.new ≡ D.disk disk.old }
    ensures small { IfOk result (λ listed. (listed.head.size ≤ PIECE_ROOM)
        × (from + 16 + listed.head.size ≤ end)) }
    ensures found { IfOk result (λ listed. (bytes : List ℕ) → Shows (D.disk disk.old) bytes
        → IsListedAt file (drop from (take end bytes)) listed room.new) }
    ensures refused { IfErr result (λ error. (bytes : List ℕ) → Shows (D.disk disk.old) bytes
        → end ≤ length bytes → IsUnlisted error file (drop from (take end bytes))) }
    ensures cause { MatchResult result (λ _. D.failed disk.new ≡ D.failed disk.old)
        (λ error. TellsFailure error (D.failed disk.old) (D.failed disk.new)) }
{
    let left = end - from;
    if left < HEAD_BYTES as u64 {
        return Err(RecoverError::Refused(JournalFault::Broken));
    }
    let mut front = [0u8; HEAD_BYTES];
    disk.read_journal(from, &mut front)?;
    let head = head_in(&front);
    if !is_inside(head, file, left) {
        return Err(RecoverError::Refused(JournalFault::Broken));
    }
    disk.read_journal(from + HEAD_BYTES as u64, &mut room[..head.size as usize])?;
    Ok(Listed { front, head })
}

// Reads all pieces of a journal that ends there but for its digest, and takes them into the hasher.
fn check_pieces<D: Disk>(
    disk: &mut D,
    file: u64,
    end: u64,
    hasher: &mut Md5,
    room: &mut [u8],
) -> Result<(), RecoverError>
    requires room { length room.old ≡ PIECE_ROOM }
    requires inside { FRONT_BYTES ≤ end }
    ensures same { D.disk disk.new ≡ D.disk disk.old }
    ensures taken { OnOk result ((bytes : List ℕ) → Shows (D.disk disk.old) bytes
        → end ≤ length bytes → AreTaken file (drop 40 (take end bytes)) hasher.old hasher.new) }
    ensures refused { IfErr result (λ error. (bytes : List ℕ) → Shows (D.disk disk.old) bytes
        → end ≤ length bytes → AreUnlisted error file (drop 40 (take end bytes))) }
    ensures cause { MatchResult result (λ _. D.failed disk.new ≡ D.failed disk.old)
        (λ error. TellsFailure error (D.failed disk.old) (D.failed disk.new)) }
{
    let mut from = FRONT_BYTES as u64;
    'pieces: while from < end {
        let listed = next_listed(disk, file, from, end, room)?;
        hasher.update(&listed.front);
        hasher.update(&room[..listed.head.size as usize]);
        from += HEAD_BYTES as u64 + listed.head.size;
    }
    Ok(())
}

// Reads all of a journal of this many bytes, before anything is written.
pub(crate) fn check<D: Disk>(
    disk: &mut D,
    facts: FileFacts,
    size: u64,
    room: &mut [u8],
) -> Result<(), RecoverError>
    requires room { length room.old ≡ PIECE_ROOM }
    ensures same { D.disk disk.new ≡ D.disk disk.old }
    ensures long { OnOk result (56 ≤ size) }
    ensures taken { OnOk result ((bytes : List ℕ) → Shows (D.disk disk.old) bytes
        → size ≡ length bytes → IsJournal facts bytes) }
    ensures refused { IfErr result (λ error. (bytes : List ℕ) → Shows (D.disk disk.old) bytes
        → size ≡ length bytes → IsRefusal error facts bytes) }
    ensures cause { MatchResult result (λ _. D.failed disk.new ≡ D.failed disk.old)
        (λ error. TellsFailure error (D.failed disk.old) (D.failed disk.new)) }
{
    if size < (FRONT_BYTES + DIGEST_BYTES) as u64 {
        return Err(RecoverError::Refused(JournalFault::Broken));
    }
    let end = size - DIGEST_BYTES as u64;
    let mut front = [0u8; FRONT_BYTES];
    disk.read_journal(0, &mut front)?;
    if let Some(fault) = front_fault(&front, facts) {
        return Err(RecoverError::Refused(fault));
    }
    let mut hasher = Md5::new();
    hasher.update(&front);
    check_pieces(disk, facts.length, end, &mut hasher, room)?;
    let mut digest = [0u8; DIGEST_BYTES];
    disk.read_journal(end, &mut digest)?;
    if digest != hasher.finalize() {
        return Err(RecoverError::Refused(JournalFault::Broken));
    }
    Ok(())
}
