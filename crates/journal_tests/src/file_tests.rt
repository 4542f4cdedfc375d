// A save and a recovery of a file of the system.
use journal_codes::{FileFacts, Head, JournalFault, PIECE_ROOM, front_of, head_of};
use journal_save::{
    Disk, FileDisk, OpenFault, Piece, PieceEdits, RecoverError, SaveError, has_journal, recover,
    save_in_place, settle,
};
use md5::{Digest, Md5};
use safe_save::Original;
use std::alloc::Global;
use std::fs;
use std::test::Fail;

// "ab" is to go to place 2, and "z" to place 9.
fn edits(alloc: Global) -> Result<Vec<Piece>, Fail> {
    let mut edits = Vec::new(alloc);
    edits.push(Piece {
        place: 2,
        bytes: b"ab".to_vec(alloc)?,
    })?;
    edits.push(Piece {
        place: 9,
        bytes: b"z".to_vec(alloc)?,
    })?;
    Ok(edits)
}

// A journal of a file that had "23" at place 2.
fn journal(alloc: Global, facts: FileFacts) -> Result<Vec<u8>, Fail> {
    let mut bytes = front_of(facts).to_vec(alloc)?;
    bytes.extend_from_slice(&head_of(Head { place: 2, size: 2 }))?;
    bytes.extend_from_slice(b"23")?;
    let digest = Md5::digest(bytes.as_slice());
    bytes.extend_from_slice(&digest)?;
    Ok(bytes)
}

#[test]
fn a_file_is_changed(rt: HostRuntime) -> Result<(), Fail> {
    let alloc = rt.alloc();
    let path = "changed.tmp";
    fs::write(&rt, path, b"0123456789")?;
    let edits = edits(alloc)?;
    let mut room = vec![in alloc; 0; PIECE_ROOM]?;
    let mut disk = FileDisk::open(&rt, path, None)?;
    settle(&mut disk)?;
    assert!(rt; save_in_place(&mut disk, &mut PieceEdits::new(&edits), &mut room).is_ok());
    assert!(rt; !has_journal(&rt, path)?);
    assert_eq!(rt; fs::read(&rt, path)?.as_slice(), b"01ab45678z".as_slice());
    assert!(rt; !fs::exists(&rt, ".changed.tmp.segywb-journal-new")?);
    fs::remove_file(&rt, path)?;
    Ok(())
}

#[test]
fn a_file_that_was_cut_off_is_recovered(rt: HostRuntime) -> Result<(), Fail> {
    let alloc = rt.alloc();
    let path = "cut.tmp";
    fs::write(&rt, path, b"01##456789")?;
    let edits = edits(alloc)?;
    let mut room = vec![in alloc; 0; PIECE_ROOM]?;
    let mut disk = FileDisk::open(&rt, path, None)?;
    fs::write(
        &rt,
        ".cut.tmp.segywb-journal",
        &journal(alloc, disk.facts())?,
    )?;
    assert!(rt; has_journal(&rt, path)?);
    let saved = save_in_place(&mut disk, &mut PieceEdits::new(&edits), &mut room);
    assert!(rt; matches!(saved, Err(SaveError::Untouched(_))));
    assert!(rt; has_journal(&rt, path)?);
    let back = recover(&mut disk, &mut room).ok().ok_or("not recovered")?;
    let back = back.ok_or("no journal")?;
    assert_eq!(rt; (back.pieces, back.bytes), (1, 2));
    assert_eq!(rt; fs::read(&rt, path)?.as_slice(), b"0123456789".as_slice());
    assert!(rt; !has_journal(&rt, path)?);
    let again = recover(&mut disk, &mut room).ok().ok_or("not recovered")?;
    assert!(rt; again.is_none());
    fs::remove_file(&rt, path)?;
    Ok(())
}

#[test]
fn a_journal_of_another_file_is_refused(rt: HostRuntime) -> Result<(), Fail> {
    let alloc = rt.alloc();
    let path = "other.tmp";
    fs::write(&rt, path, b"01##456789")?;
    let mut room = vec![in alloc; 0; PIECE_ROOM]?;
    let mut disk = FileDisk::open(&rt, path, None)?;
    let facts = disk.facts();
    let other = FileFacts {
        inode: facts.inode ^ 1,
        ..facts
    };
    fs::write(&rt, ".other.tmp.segywb-journal", &journal(alloc, other)?)?;
    let refused = recover(&mut disk, &mut room);
    assert!(rt; matches!(refused, Err(RecoverError::Refused(JournalFault::OtherFile))));
    assert_eq!(rt; fs::read(&rt, path)?.as_slice(), b"01##456789".as_slice());
    assert!(rt; has_journal(&rt, path)?);
    fs::remove_file(&rt, ".other.tmp.segywb-journal")?;
    fs::remove_file(&rt, path)?;
    Ok(())
}

#[test]
fn a_file_is_locked(rt: HostRuntime) -> Result<(), Fail> {
    let path = "locked.tmp";
    fs::write(&rt, path, b"0123456789")?;
    fs::hard_link(&rt, path, "locked2.tmp")?;
    {
        let disk = FileDisk::open(&rt, path, None)?;
        assert!(rt; matches!(FileDisk::open(&rt, path, None), Err(OpenFault::Busy)));
        assert!(rt;
            matches!(
                FileDisk::open(&rt, "locked2.tmp", None),
                Err(OpenFault::Busy)
            )
        );
        assert_eq!(rt; disk.facts().length, 10);
    }
    assert!(rt; FileDisk::open(&rt, path, None).is_ok());
    fs::remove_file(&rt, "locked2.tmp")?;
    fs::remove_file(&rt, path)?;
    Ok(())
}

#[test]
fn nothing_is_written_past_the_end_or_behind_a_change(rt: HostRuntime) -> Result<(), Fail> {
    let alloc = rt.alloc();
    let path = "short.tmp";
    fs::write(&rt, path, b"012345678")?;
    let edits = edits(alloc)?;
    let mut room = vec![in alloc; 0; PIECE_ROOM]?;
    {
        let mut disk = FileDisk::open(&rt, path, None)?;
        let saved = save_in_place(&mut disk, &mut PieceEdits::new(&edits), &mut room);
        assert!(rt; matches!(saved, Err(SaveError::Untouched(_))));
    }
    assert_eq!(rt; fs::read(&rt, path)?.as_slice(), b"012345678".as_slice());
    let original = Original::new(path, &fs::metadata(&rt, path)?);
    fs::write(&rt, path, b"0123456789")?;
    {
        let mut disk = FileDisk::open(&rt, path, original)?;
        let saved = save_in_place(&mut disk, &mut PieceEdits::new(&edits), &mut room);
        assert!(rt; matches!(saved, Err(SaveError::Untouched(_))));
        assert!(rt; disk.is_stale());
    }
    assert_eq!(rt; fs::read(&rt, path)?.as_slice(), b"0123456789".as_slice());
    assert!(rt; !has_journal(&rt, path)?);
    assert!(rt; !fs::exists(&rt, ".short.tmp.segywb-journal-new")?);
    fs::remove_file(&rt, path)?;
    Ok(())
}

#[test]
fn a_journal_of_a_file_that_is_gone_is_refused(rt: HostRuntime) -> Result<(), Fail> {
    let alloc = rt.alloc();
    let path = "gone.tmp";
    fs::write(&rt, path, b"01##456789")?;
    let mut room = vec![in alloc; 0; PIECE_ROOM]?;
    let mut disk = FileDisk::open(&rt, path, None)?;
    let facts = disk.facts();
    // A file system that does not tell it has nothing to refuse.
    if facts.birth < 2 {
        fs::remove_file(&rt, path)?;
        return Ok(());
    }
    let other = FileFacts {
        birth: facts.birth ^ 1,
        ..facts
    };
    fs::write(&rt, ".gone.tmp.segywb-journal", &journal(alloc, other)?)?;
    let refused = recover(&mut disk, &mut room);
    assert!(rt;
        matches!(
            refused,
            Err(RecoverError::Refused(JournalFault::OtherBirth))
        )
    );
    assert_eq!(rt; fs::read(&rt, path)?.as_slice(), b"01##456789".as_slice());
    assert!(rt; has_journal(&rt, path)?);
    fs::remove_file(&rt, ".gone.tmp.segywb-journal")?;
    fs::remove_file(&rt, path)?;
    Ok(())
}
