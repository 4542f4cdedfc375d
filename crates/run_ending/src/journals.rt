// Journals of repairs that were cut off, and how such a repair is undone.
ghost use Rattle.std.specs.Prelude.{◌≡◌};
ghost use Rattle.run_ending.specs.Recovering.{recovery_end, IsRecoveryStatus};

use crate::ending::{RecoveryEnd, recovery_status};
use command_line::Arguments;
use journal_codes::PIECE_ROOM;
use journal_save::{Disk, FileDisk, OpenFault, PutBack, RecoverError, has_journal, recover};
use safe_save::resolve;
use std::fs;
use std::fs::{File, OpenFile, TryLockError};
use std::io::{Error, ErrorKind};
use std::rt::Files;

// Linux's number of "File name too long": no journal has such a name.
const TOO_LONG: i32 = 36;

/// Refuses FILE, before it is loaded, where a journal stands beside it: what FILE holds is neither
/// the old file nor the edited one then. The exit status.
pub fn journal_refusal<R: Files<File = File> + AllocGlobal + Eprint>(
    rt: &R,
    arguments: &Arguments,
    file: &File,
) -> Option<u8> {
    let name = arguments.file;
    match has_journal(rt, name) {
        Ok(false) => None,
        Err(error) if is_none(&error) => None,
        Err(error) => {
            let _ = eprintln!(rt; "segywb: {name}: cannot look for a journal beside it ({error})");
            Some(3)
        }
        Ok(true) if is_locked(file) => {
            let _ = eprintln!(rt; "segywb: {name}: a repair of it is under way; wait for its end");
            Some(3)
        }
        Ok(true) => {
            tell_cut_off(rt, name);
            Some(3)
        }
    }
}

// Whether no journal of this program can be there, since none can be made: FILE's name is too long
// for one, or leads to nothing any more, or to a path that is no UTF-8.
fn is_none(error: &Error) -> bool {
    error.raw_os_error() == Some(TOO_LONG)
        || matches!(
            error.kind(),
            ErrorKind::NotFound
                | ErrorKind::InvalidData
                | ErrorKind::InvalidFilename
                | ErrorKind::InvalidInput
        )
}

/// Tells of a repair that was cut off.
pub(crate) fn tell_cut_off<R: Files + AllocGlobal + Eprint>(rt: &R, file: &str) {
    let then = "puts the old bytes back";
    match resolve(rt, file) {
        Ok((_folder, name, _)) => {
            let _ = eprintln!(rt;
                "segywb: {file}: an earlier repair was cut off (.{name}.segywb-journal); segywb \
                 {file} --recover {then}"
            );
        }
        Err(_) => {
            let _ = eprintln!(rt;
                "segywb: {file}: an earlier repair was cut off; segywb {file} --recover {then}"
            );
        }
    }
}

// Whether a repair or a recovery of the file is under way.
fn is_locked(file: &File) -> bool {
    match file.try_lock_shared() {
        Ok(()) => {
            let _ = file.unlock();
            false
        }
        Err(TryLockError::WouldBlock) => true,
        Err(TryLockError::Error(_)) => false,
    }
}

/// What stands in the way of a save to a file.
#[derive(Clone, Copy, Debug, PartialEq, Eq)]
pub(crate) enum InRepair {
    /// A repair of it was cut off, and its journal is there.
    CutOff,
    /// A repair or a recovery of it is under way.
    UnderWay,
}

/// Whether a repair of the file that a path leads to was cut off or is under way. Where none can
/// be, the path leads to no file that was repaired.
pub(crate) fn in_repair<R: Files<File = File> + AllocGlobal>(
    rt: &R,
    path: &str,
) -> Result<Option<InRepair>, Error> {
    let is_under_way = match fs::open(rt, path) {
        Ok(file) => is_locked(&file),
        Err(_) => false,
    };
    if is_under_way {
        return Ok(Some(InRepair::UnderWay));
    }
    match has_journal(rt, path) {
        Ok(true) => Ok(Some(InRepair::CutOff)),
        Ok(false) => Ok(None),
        Err(error) if is_none(&error) => Ok(None),
        Err(error) => Err(error),
    }
}

/// Puts the old bytes of FILE back where a repair of it was cut off, and says on standard output
/// how many. The exit status: 0, also where there is no journal; 3 where FILE cannot be opened, or
/// what stands under its journal's name is none of FILE, and nothing is written; 4 where a call
/// failed, and then it may be tried again. Takes memory for one piece and for names.
pub fn recover_file<R: Files<File = File> + AllocGlobal + Print + Eprint>(
    rt: &R,
    arguments: &Arguments,
) -> u8
    ensures { IsRecoveryStatus result }
{
    recovery_status(recovery_of(rt, arguments.file))
}

// Recovers FILE, and tells how that ended.
fn recovery_of<R: Files<File = File> + AllocGlobal + Print + Eprint>(
    rt: &R,
    file: &str,
) -> RecoveryEnd {
    let mut room = Vec::new(rt.alloc());
    if room.resize(PIECE_ROOM, 0).is_err() {
        let _ = eprintln!(rt; "segywb: out of memory");
        return RecoveryEnd::NoMemory;
    }
    let mut disk = match FileDisk::open(rt, file, None) {
        Ok(disk) => disk,
        Err(OpenFault::Busy) => {
            tell_busy(rt, file);
            return RecoveryEnd::Busy;
        }
        Err(OpenFault::Failed(error)) => {
            let _ = eprintln!(rt; "segywb: cannot open {file} to be recovered ({error})");
            return RecoveryEnd::NotOpened;
        }
    };
    // What the journal's name leads to is on the disk before the journal is read: the process that
    // gave it the name may have been ended before that.
    let back = match disk.sync_folder() {
        Ok(()) => recover(&mut disk, room.as_mut_slice()),
        Err(error) => Err(RecoverError::Failed(error)),
    };
    // A journal that never got its name is taken away too.
    let _ = disk.clear();
    let is_told = match &back {
        Ok(back) => tell_recovered(rt, file, *back),
        Err(error) => {
            tell_not_recovered(rt, file, disk.journal(), error);
            true
        }
    };
    ended(&back, is_told)
}

// How a recovery ended that was begun, of which standard output took what is told, or not.
fn ended(back: &Result<Option<PutBack>, RecoverError>, is_told: bool) -> RecoveryEnd
    ensures { result ≡ recovery_end back.now is_told }
{
    match back {
        Ok(_) if is_told => RecoveryEnd::Done,
        Ok(_) => RecoveryEnd::NotTold,
        Err(RecoverError::Refused(_)) => RecoveryEnd::Refused,
        Err(RecoverError::Failed(_)) => RecoveryEnd::Failed,
    }
}

/// Tells that FILE is locked.
pub(crate) fn tell_busy<R: Eprint>(rt: &R, file: &str) {
    let _ = eprintln!(rt;
        "segywb: {file}: another run of segywb has it in use, a repair, a recovery or one with \
         --out; try again when that has ended"
    );
}

// Says what was put back; whether standard output took it.
fn tell_recovered<R: Print + Eprint>(rt: &R, file: &str, back: Option<PutBack>) -> bool {
    let told = match back {
        None => println!(rt; "{file}: no journal stands beside it"),
        Some(back) => {
            let (bytes, pieces) = (back.bytes, back.pieces);
            println!(rt; "{file}: {bytes} old bytes in {pieces} pieces put back")
        }
    };
    if told.is_err() {
        let _ = eprintln!(rt; "segywb: answers failed");
        return false;
    }
    true
}

// Tells why nothing is put back, or not all.
fn tell_not_recovered<R: Eprint>(rt: &R, file: &str, journal: &str, error: &RecoverError) {
    match error {
        RecoverError::Refused(fault) => {
            let _ = eprintln!(rt; "segywb: {file}: {journal}: {fault}; nothing was written");
        }
        RecoverError::Failed(error) => {
            let _ = eprintln!(rt;
                "segywb: {file}: cannot put the old bytes back ({error}); run --recover again"
            );
        }
    }
}
