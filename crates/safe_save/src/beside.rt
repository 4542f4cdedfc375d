// The names of the new files beside OUT, and those that were left there.
use std::alloc::{AllocError, Global};
use std::fs;
use std::fs::{File, OpenFile, OpenOptions, TryLockError};
use std::io::{ErrorKind, Result};
use std::os::unix::fs::MetadataExt;
use std::rt::Files;

// How many bytes of OUT's name the new file's name takes, so that it fits 255.
const NAME_ROOM: usize = 230;

// How many names in a row are free where the search for left files ends. A save takes the first
// name that is free, so that there are gaps only behind saves that ran side by side. These few
// looks cost the same in every folder, while to list a large one may take longer than the save.
const FREE_NAMES: u32 = 8;

// What stands under a name.
enum Found {
    Nothing,
    // A file that is being written, or one that may not be taken away, or no file.
    Kept,
    // One that was left, and is gone now.
    Cleared,
}

/// The path of the new file's n-th name.
pub(crate) fn beside_path(
    alloc: Global,
    folder: &str,
    name: &str,
    number: u32,
) -> std::result::Result<String, AllocError> {
    let mut front = String::new(alloc);
    for letter in name.chars() {
        if front.len() >= NAME_ROOM {
            break;
        }
        front.push(letter)?;
    }
    let front = front.as_str();
    format!(in alloc; "{folder}/.{front}.segywb-{number}")
}

/// Locks a file that was just made, for as long as it is open, so that no other save takes it for
/// one that was left; whether it is still under its name. Before it was locked another save may
/// have taken it away. Where the file system has no locks, no save gets one to take a file away.
pub(crate) fn lock_new<R: Files>(rt: &R, path: &str, file: &File) -> Result<bool> {
    match file.try_lock() {
        // Another save is taking it away.
        Err(TryLockError::WouldBlock) => Ok(false),
        Ok(()) | Err(TryLockError::Error(_)) => leads_to(rt, path, file),
    }
}

/// Keeps this file from being taken for one that a save left, for as long as what comes back is
/// open: it holds a lock that a save would need. `None` where it needs none, or none is to be had.
pub fn keep_from_clearing<R: Files<File = File>>(rt: &R, path: &str) -> Option<File> {
    match fs::metadata(rt, path) {
        Ok(there) if there.is_file() => {}
        _ => return None,
    }
    let file = fs::open(rt, path).ok()?;
    match file.try_lock_shared() {
        Ok(()) => Some(file),
        Err(_) => None,
    }
}

/// Takes away the files that saves to this OUT left whose process has ended; how many. Where its
/// name is cut, those of another OUT have the same names, and none is taken away.
pub(crate) fn clear_left<R: Files<File = File>>(
    rt: &R,
    alloc: Global,
    folder: &str,
    name: &str,
) -> std::result::Result<u32, AllocError> {
    let mut cleared = 0u32;
    let mut free = 0u32;
    if name.len() >= NAME_ROOM {
        return Ok(0);
    }
    for number in 0..u32::MAX {
        let path = beside_path(alloc, folder, name, number)?;
        match clear(rt, path.as_str()) {
            Found::Nothing => free = free.saturating_add(1),
            Found::Kept => free = 0,
            Found::Cleared => {
                free = 0;
                cleared = cleared.saturating_add(1);
            }
        }
        if free >= FREE_NAMES {
            break;
        }
    }
    Ok(cleared)
}

// Takes away what stands under this name, if it is a file that nobody writes: each save holds a
// lock on its file until that is renamed or gone, and the system gives it up where the process
// ends. The file is locked here too until its name is gone. So of a save that has made its file and
// not locked it yet, either the lock is refused, or it finds that its name is gone: it takes the
// next one.
fn clear<R: Files<File = File>>(rt: &R, path: &str) -> Found {
    match fs::symlink_metadata(rt, path) {
        Ok(there) if there.is_file() => {}
        Ok(_) => return Found::Kept,
        // What cannot be looked at ends the search, too.
        Err(_) => return Found::Nothing,
    }
    let Ok(file) = open_to_lock(rt, path) else {
        return Found::Kept;
    };
    if file.try_lock().is_err() || !leads_to(rt, path, &file).unwrap_or(false) {
        return Found::Kept;
    }
    match fs::remove_file(rt, path) {
        Ok(()) => Found::Cleared,
        Err(_) => Found::Kept,
    }
}

// For writing, as a lock over a network asks, or for reading, where the file got its mode already,
// and that forbids writing.
fn open_to_lock<R: Files>(rt: &R, path: &str) -> Result<R::File> {
    let mut how = OpenOptions::new();
    how.write(true);
    match how.open(rt, path) {
        Err(error) if error.kind() == ErrorKind::PermissionDenied => fs::open(rt, path),
        result => result,
    }
}

// Whether a path leads to this open file.
fn leads_to<R: Files, F: OpenFile>(rt: &R, path: &str, file: &F) -> Result<bool> {
    let open = file.metadata()?;
    match fs::symlink_metadata(rt, path) {
        Ok(there) => Ok((there.dev(), there.ino()) == (open.dev(), open.ino())),
        Err(error) if error.kind() == ErrorKind::NotFound => Ok(false),
        Err(error) => Err(error),
    }
}
