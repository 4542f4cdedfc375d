// The file that a save is made from, which no other program may change meanwhile.
use crate::digest::digest_at;
use crate::times::wait_of;
use std::fs::Metadata;
use std::io::{Error, ErrorKind};
use std::os::unix::fs::MetadataExt;
use std::rt::{Clock, Files};
use std::time::{Duration, SystemTime, UNIX_EPOCH};
use std::{fs, thread};

// How long it is waited for times that will tell each later change, in milliseconds: less than most
// files take to be read once more.
const PATIENCE: u64 = 50;

// What a change of a file changes.
#[derive(Clone, Copy, PartialEq, Eq)]
struct Stamp {
    device: u64,
    number: u64,
    size: u64,
    modified: (i64, i64),
    changed: (i64, i64),
}

fn stamp_of(file: &Metadata) -> Stamp {
    Stamp {
        device: file.dev(),
        number: file.ino(),
        size: file.size(),
        modified: (file.mtime(), file.mtime_nsec()),
        changed: (file.ctime(), file.ctime_nsec()),
    }
}

// What tells a change that leaves the stamp as it is.
#[derive(Clone, Copy)]
enum Content {
    // There is none: each change shows in the times.
    ShownByTimes,
    // The digest of the bytes as they were.
    Digest([u8; 16]),
    // They could not be read.
    Unread,
}

/// What a look at the original finds.
#[derive(Debug, Drop)]
pub enum Sight {
    /// It is as it was.
    Same,
    /// Its path leads to another file now, or to none, or its size, a time of it or its bytes are
    /// others; or its bytes could not be read when they would have told a change.
    Changed,
    /// It cannot be looked at.
    Unseen(Error),
}

/// A regular file as it was when it was opened.
#[derive(Clone, Copy)]
pub struct Original<'a> {
    path: &'a str,
    stamp: Stamp,
    mode: u32,
    content: Content,
}

impl<'a> Original<'a> {
    /// What the open file is; `None` of a pipe or a device, whose bytes come but once. A change
    /// that follows at once may leave it the same: `watched` sees to that.
    pub fn new(path: &'a str, file: &Metadata) -> Option<Original<'a>> {
        if !file.is_file() {
            return None;
        }
        Some(Original {
            path,
            stamp: stamp_of(file),
            mode: file.mode() & 0o777,
            content: Content::ShownByTimes,
        })
    }

    /// The same, so that a change of the bytes that are read from now on is seen. Where the times
    /// are so young that a change may still get the same ones, it waits until it does not, if that
    /// is soon, and else takes a digest of the file, which each look then compares. A file that
    /// cannot be read for that counts as changed.
    pub fn watched<R: Files + Clock>(self, rt: &R) -> Original<'a> {
        let modified = since_1970(self.stamp.modified);
        let changed = since_1970(self.stamp.changed);
        let wait = wait_of(now(rt), modified, changed);
        if wait > Duration::from_millis(PATIENCE) {
            let content = match digest_at(rt, self.path) {
                Ok(digest) => Content::Digest(digest),
                Err(_) => Content::Unread,
            };
            return Original { content, ..self };
        }
        if !wait.is_zero() {
            thread::sleep(rt, wait);
        }
        self
    }

    /// The same path, after a save over the file itself: what the saved file was when it was still
    /// open. As after `new`, `watched` sees to a change that follows at once.
    pub fn again(&self, saved: &Metadata) -> Original<'a> {
        Original {
            path: self.path,
            stamp: stamp_of(saved),
            mode: saved.mode() & 0o777,
            content: Content::ShownByTimes,
        }
    }

    /// Its permissions.
    pub fn mode(&self) -> u32 {
        self.mode
    }

    /// Whether this is the file, whatever has become of it since.
    pub fn is_file(&self, file: &Metadata) -> bool {
        (self.stamp.device, self.stamp.number) == (file.dev(), file.ino())
    }

    /// The path that it was opened by.
    pub fn path(&self) -> &'a str {
        self.path
    }

    /// Looks whether it is as it was. Where the times alone do not tell, FILE is read from front to
    /// end first, and its times are looked at behind that, so that little lies between this and
    /// what the caller does next.
    pub fn look<R: Files>(&self, rt: &R) -> Sight {
        match (self.look_at_stamp(rt), self.content) {
            (Sight::Same, Content::ShownByTimes) => Sight::Same,
            (Sight::Same, Content::Unread) => Sight::Changed,
            (Sight::Same, Content::Digest(before)) => match digest_at(rt, self.path) {
                Ok(digest) if digest == before => self.look_at_stamp(rt),
                Ok(_) => Sight::Changed,
                Err(error) => Sight::Unseen(error),
            },
            (sight, _) => sight,
        }
    }

    /// Whether it is not seen to be as it was.
    pub fn is_changed<R: Files>(&self, rt: &R) -> bool {
        !matches!(self.look(rt), Sight::Same)
    }

    // What its path leads to, and the size and times of that.
    fn look_at_stamp<R: Files>(&self, rt: &R) -> Sight {
        match fs::metadata(rt, self.path) {
            Ok(file) if stamp_of(&file) == self.stamp => Sight::Same,
            Ok(_) => Sight::Changed,
            Err(error) if error.kind() == ErrorKind::NotFound => Sight::Changed,
            Err(error) => Sight::Unseen(error),
        }
    }
}

// A time of a file, in seconds and nanoseconds. One before 1970 is as old as 1970.
fn since_1970(time: (i64, i64)) -> Duration {
    let (seconds, nanoseconds) = time;
    let seconds = Duration::from_secs(u64::try_from(seconds).unwrap_or(0));
    seconds.saturating_add(Duration::from_nanos(u64::try_from(nanoseconds).unwrap_or(0)))
}

// The time now. A clock that cannot be read, or is set before 1970, makes each file look as
// one of times to come.
fn now<R: Clock>(rt: &R) -> Duration {
    match SystemTime::now(rt) {
        Ok(now) => now.duration_since(UNIX_EPOCH).unwrap_or(Duration::ZERO),
        Err(_) => Duration::ZERO,
    }
}
