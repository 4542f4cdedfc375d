// A save and a recovery on a disk in memory, whose calls fail.
use journal_codes::{JournalFault, PIECE_ROOM};
use journal_save::{
    FakeDisk, Note, Piece, PieceEdits, RecoverError, SaveError, recover, save_in_place,
};
use std::alloc::Global;
use std::test::Fail;

// The journal of a file of one byte, 7, with inode 11 and born 7 ns after 1970 began, as Python's
// struct and hashlib make it.
const JOURNAL: [u8; 73] = [
    83, 69, 71, 89, 87, 66, 74, 76, 2, 0, 0, 0, 0, 0, 0, 0, 1, 0, 0, 0, 0, 0, 0, 0, 11, 0, 0, 0, 0,
    0, 0, 0, 7, 0, 0, 0, 0, 0, 0, 0, 0, 0, 0, 0, 0, 0, 0, 0, 1, 0, 0, 0, 0, 0, 0, 0, 7, 54, 16, 53,
    166, 149, 94, 229, 147, 181, 54, 96, 3, 25, 192, 15, 50,
];

// The byte 9 is to go to place 0.
fn edits(alloc: Global) -> Result<Vec<Piece>, Fail> {
    let mut edits = Vec::new(alloc);
    edits.push(Piece {
        place: 0,
        bytes: [9].to_vec(alloc)?,
    })?;
    Ok(edits)
}

// A journal of these bytes, which is cut to so many of them.
fn note(bytes: [u8; 73], count: usize) -> Note {
    let mut all = [0; 80];
    all[..73].copy_from_slice(&bytes);
    Note {
        bytes: all,
        count,
        synced: true,
    }
}

#[test]
fn a_save_is_done(rt: HostRuntime) -> Result<(), Fail> {
    let alloc = rt.alloc();
    let mut disk = FakeDisk::new(alloc, 7, 0, 0);
    let edits = edits(alloc)?;
    let mut room = vec![in alloc; 0; PIECE_ROOM]?;
    let saved = save_in_place(&mut disk, &mut PieceEdits::new(&edits), &mut room);
    assert!(rt; saved.is_ok());
    assert_eq!(rt; disk.now.file, 9);
    assert!(rt; disk.now.journal.is_none());
    assert!(rt; disk.now.before.is_none());
    // create, three appends and the digest, sync_journal, publish, sync_folder, write_at,
    // sync_file, remove_journal, sync_folder
    assert_eq!(rt; disk.past.len(), 12);
    Ok(())
}

// How a save ended.
#[derive(Clone, Copy, Debug, PartialEq, Eq)]
enum End {
    Saved,
    Untouched,
    Undone,
    Interrupted,
    NotSettled,
}

// What FILE is after a save of which this call fails, whether its journal is there, and one that
// was being made.
fn failed_save(alloc: Global, call: u32) -> Result<(End, u8, bool, bool), Fail> {
    let edits = edits(alloc)?;
    let mut room = vec![in alloc; 0; PIECE_ROOM]?;
    let mut disk = FakeDisk::new(alloc, 7, call, call.saturating_add(1));
    let end = match save_in_place(&mut disk, &mut PieceEdits::new(&edits), &mut room) {
        Ok(()) => End::Saved,
        Err(SaveError::Untouched(_)) => End::Untouched,
        Err(SaveError::Undone(_)) => End::Undone,
        Err(SaveError::Interrupted(_, _)) => End::Interrupted,
        Err(SaveError::NotSettled(_)) => End::NotSettled,
    };
    let (journal, beside) = (disk.now.journal.is_some(), disk.now.beside.is_some());
    Ok((end, disk.now.file, journal, beside))
}

// The calls are: create, append, read_at, append twice, append, sync_journal, publish, sync_folder,
// write_at, sync_file, remove_journal, sync_folder. This disk takes no journal away while the
// folder is not synced.
#[test]
fn each_call_of_a_save_fails_in_turn(rt: HostRuntime) -> Result<(), Fail> {
    let alloc = rt.alloc();
    for call in 0..8 {
        assert_eq!(rt;
            failed_save(alloc, call)?,
            (End::Untouched, 7, false, false)
        );
    }
    assert_eq!(rt; failed_save(alloc, 8)?, (End::Untouched, 7, true, false));
    assert_eq!(rt; failed_save(alloc, 9)?, (End::Undone, 7, false, false));
    assert_eq!(rt; failed_save(alloc, 10)?, (End::Undone, 7, false, false));
    assert_eq!(rt; failed_save(alloc, 11)?, (End::NotSettled, 9, true, false));
    assert_eq!(rt; failed_save(alloc, 12)?, (End::NotSettled, 9, false, false));
    assert_eq!(rt; failed_save(alloc, 13)?, (End::Saved, 9, false, false));
    Ok(())
}

#[test]
fn a_save_that_is_cut_off_leaves_its_journal(rt: HostRuntime) -> Result<(), Fail> {
    let alloc = rt.alloc();
    let edits = edits(alloc)?;
    let mut room = vec![in alloc; 0; PIECE_ROOM]?;
    let mut disk = FakeDisk::new(alloc, 7, 9, u32::MAX);
    let saved = save_in_place(&mut disk, &mut PieceEdits::new(&edits), &mut room);
    assert!(rt;
        matches!(
            saved,
            Err(SaveError::Interrupted(_, RecoverError::Failed(_)))
        )
    );
    let journal = disk.now.journal.ok_or("no journal")?;
    assert_eq!(rt; journal.count, 73);
    assert_eq!(rt; journal.bytes[..73], JOURNAL[..]);
    // Nothing is saved beside it.
    let mut disk = FakeDisk::after_crash(alloc, 9, Some(journal), 0, 0);
    let saved = save_in_place(&mut disk, &mut PieceEdits::new(&edits), &mut room);
    assert!(rt; matches!(saved, Err(SaveError::Untouched(_))));
    assert!(rt; disk.now.journal.is_some());
    Ok(())
}

// What FILE is after a recovery of which this call fails, and whether the journal is there.
fn failed_recovery(alloc: Global, call: u32) -> Result<(u8, bool), Fail> {
    let mut room = vec![in alloc; 0; PIECE_ROOM]?;
    let to = call.saturating_add(1);
    let mut disk = FakeDisk::after_crash(alloc, 9, Some(note(JOURNAL, 73)), call, to);
    match recover(&mut disk, &mut room) {
        Err(RecoverError::Failed(_)) => Ok((disk.now.file, disk.now.journal.is_some())),
        _ => Err(Fail::from("it did not fail")),
    }
}

// What a recovery tells, and what FILE is then.
fn recovered(
    alloc: Global,
    file: u8,
    journal: Option<Note>,
) -> Result<(Option<(u64, u64)>, u8), Fail> {
    let mut room = vec![in alloc; 0; PIECE_ROOM]?;
    let mut disk = FakeDisk::after_crash(alloc, file, journal, 0, 0);
    let back = recover(&mut disk, &mut room).ok().ok_or("not recovered")?;
    if disk.now.journal.is_some() {
        return Err(Fail::from("the journal is there"));
    }
    Ok((back.map(|back| (back.pieces, back.bytes)), disk.now.file))
}

// The calls are: journal_length, read_journal of the front, of what stands before the piece, of the
// piece and of the digest, then of both of the piece again, write_at, sync_file, remove_journal,
// sync_folder.
#[test]
fn each_call_of_a_recovery_fails_in_turn(rt: HostRuntime) -> Result<(), Fail> {
    let alloc = rt.alloc();
    for call in 0..11 {
        let (file, is_journal_there) = failed_recovery(alloc, call)?;
        assert_eq!(rt; file, if call < 9 { 9 } else { 7 });
        assert_eq!(rt; is_journal_there, call < 10);
        let again = recovered(alloc, file, Some(note(JOURNAL, 73)))?;
        assert_eq!(rt; again, (Some((1, 1)), 7));
    }
    assert_eq!(rt; recovered(alloc, 7, None)?, (None, 7));
    Ok(())
}

// A journal whose byte at this place is another one.
fn refusal(alloc: Global, place: usize, count: usize) -> Result<JournalFault, Fail> {
    let mut bytes = JOURNAL;
    if place < bytes.len() {
        bytes[place] ^= 1;
    }
    let mut room = vec![in alloc; 0; PIECE_ROOM]?;
    let mut disk = FakeDisk::after_crash(alloc, 9, Some(note(bytes, count)), 0, 0);
    match recover(&mut disk, &mut room) {
        Err(RecoverError::Refused(fault)) if disk.now.file == 9 && disk.past.is_empty() => {
            Ok(fault)
        }
        _ => Err(Fail::from("it was not refused, or something was done")),
    }
}

#[test]
fn what_is_no_journal_of_the_file_is_refused(rt: HostRuntime) -> Result<(), Fail> {
    let alloc = rt.alloc();
    assert_eq!(rt; refusal(alloc, 0, 73)?, JournalFault::NoJournal);
    assert_eq!(rt; refusal(alloc, 8, 73)?, JournalFault::OtherVersion);
    assert_eq!(rt; refusal(alloc, 17, 73)?, JournalFault::OtherLength);
    assert_eq!(rt; refusal(alloc, 24, 73)?, JournalFault::OtherFile);
    assert_eq!(rt; refusal(alloc, 31, 73)?, JournalFault::OtherFile);
    for place in 32..40 {
        assert_eq!(rt; refusal(alloc, place, 73)?, JournalFault::OtherBirth);
    }
    for place in 40..73 {
        assert_eq!(rt; refusal(alloc, place, 73)?, JournalFault::Broken);
    }
    for count in 0..73 {
        assert_eq!(rt; refusal(alloc, 73, count)?, JournalFault::Broken);
    }
    Ok(())
}
