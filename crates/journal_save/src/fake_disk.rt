// A disk in memory, of a FILE of one byte, of which a crash leaves what its calls say.
ghost use Rattle.std.specs.Prelude.{None, option_map, ◌≡◌, ◌∷◌, ◌++◌, [], ◌+◌, ◌≤◌, true, false, length, take, drop, IsTrue, IsErr, IfSome, OnOk, OnErr, MatchResult};
ghost use Rattle.journal_save.specs.Disk.{step, laid_all, Flushes, May, Tells, IsPart, sync_lost};
ghost use Rattle.journal_save.specs.Fake.{span_in, bytes_of};
ghost use Rattle.journal_save.specs.Restart.{found_as};
ghost use Rattle.journal_save.specs.Saving.{IsRecoverable, IsSettled};

use crate::disk::Disk;
use journal_codes::FileFacts;
use std::alloc::Global;
use std::io::{Error, ErrorKind, Result};

/// How many bytes a journal in memory has at most.
pub const NOTE_ROOM: usize = 80;

/// A journal in memory: its bytes are the first `count` of these, and whether it is all on the
/// disk.
#[derive(Clone, Copy)]
pub struct Note {
    pub bytes: [u8; NOTE_ROOM],
    pub count: usize,
    pub synced: bool,
}

/// What is there at one moment. `before` is what the journal's name may still lead to after a
/// crash, beside what it leads to.
#[derive(Clone, Copy)]
pub struct Moment {
    pub file: u8,
    pub is_loose: bool,
    pub is_twice: bool,
    pub written: Option<u8>,
    pub beside: Option<Note>,
    pub journal: Option<Note>,
    pub before: Option<Option<Note>>,
}

/// A disk in memory, for tests. Its calls are numbered from 0, and those from `fails_from` up to
/// `fails_to` fail.
#[derive(Drop)]
pub struct FakeDisk {
    pub alloc: Global,
    pub now: Moment,
    pub past: Vec<Moment>,
    pub failed: bool,
    pub calls: u32,
    pub fails_from: u32,
    pub fails_to: u32,
}

impl FakeDisk {
    ghost use Rattle.journal_save.specs.Fake.{disk_of, state_of};

    /// A disk at rest, with this FILE.
    pub fn new(alloc: Global, file: u8, fails_from: u32, fails_to: u32) -> FakeDisk
        ensures settled { IsSettled (disk_of result).now }
        ensures free { (disk_of result).now.journal ≡ None }
        ensures file { result.now.file ≡ file }
        ensures fails { (result.fails_from ≡ fails_from) × (result.fails_to ≡ fails_to) }
    {
        FakeDisk {
            alloc,
            now: Moment {
                file,
                is_loose: false,
                is_twice: false,
                written: None,
                beside: None,
                journal: None,
                before: None,
            },
            past: Vec::new(alloc),
            failed: false,
            calls: 0,
            fails_from,
            fails_to,
        }
    }

    /// What is there when the system is up again behind a crash that left this byte in FILE, and
    /// this journal.
    pub fn after_crash(
        alloc: Global,
        file: u8,
        journal: Option<Note>,
        fails_from: u32,
        fails_to: u32,
    ) -> FakeDisk
        ensures recoverable { IsRecoverable (disk_of result).now }
        ensures settled { IsSettled (disk_of result).now }
        ensures journal { (disk_of result).now.journal ≡ found_as (option_map bytes_of journal) }
        ensures file { result.now.file ≡ file }
        ensures fails { (result.fails_from ≡ fails_from) × (result.fails_to ≡ fails_to) }
    {
        let journal = match journal {
            Some(note) => Some(Note {
                synced: true,
                ..note
            }),
            None => None,
        };
        let quiet = FakeDisk::new(alloc, file, fails_from, fails_to);
        FakeDisk {
            now: Moment {
                journal,
                ..quiet.now
            },
            ..quiet
        }
    }

    // A call fails.
    fn refuse<T>(&mut self) -> Result<T>
        ensures err { IsErr result }
        ensures disk { disk_of self.new ≡ disk_of self.old }
        ensures failed { self.new.failed ≡ true }
    {
        self.failed = true;
        Err(Error::new(ErrorKind::Other, "the disk failed"))
    }

    // The next call is one of those that fail.
    fn is_refused(&mut self) -> bool
        ensures disk { disk_of self.new ≡ disk_of self.old }
        ensures failed { self.new.failed ≡ self.old.failed }
        ensures now { self.new.now ≡ self.old.now }
    {
        let call = self.calls;
        self.calls = call.saturating_add(1);
        self.fails_from <= call && call < self.fails_to
    }

    // What was written is on the disk.
    fn flush(&mut self) -> Result<()>
        ensures turns { MatchResult result (λ _. Flushes (disk_of self.old) (disk_of self.new))
            (λ _. May sync_lost (disk_of self.old) (disk_of self.new)) }
        ensures cause { Tells result self.old.failed self.new.failed }
    {
        let file = on_top(self.now.written, self.now.file);
        self.turn(Moment {
            file,
            is_loose: false,
            is_twice: false,
            written: None,
            ..self.now
        })
    }

    // What was written is lost, or nothing happens.
    fn lose(&mut self)
        ensures { May sync_lost (disk_of self.old) (disk_of self.new) }
    {
        let _ = self.turn(Moment {
            written: None,
            ..self.now
        });
    }

    // The next moment.
    fn turn(&mut self, next: Moment) -> Result<()>
        ensures ok { OnOk result (disk_of self.new ≡ step (λ _. state_of next) (disk_of self.old)) }
        ensures err { OnErr result (disk_of self.new ≡ disk_of self.old) }
        ensures cause { Tells result self.old.failed self.new.failed }
    {
        if self.past.push(self.now).is_err() {
            return self.refuse();
        }
        self.now = next;
        Ok(())
    }
}

// What lies on FILE's byte once what was written is laid over it.
fn on_top(written: Option<u8>, file: u8) -> u8
    ensures { result ∷ [] ≡ laid_all (span_in written) (file ∷ []) }
{
    match written {
        Some(byte) => byte,
        None => file,
    }
}

// The note with these bytes behind its own, where there is room.
fn grown(note: Note, bytes: &[u8]) -> Option<Note>
    ensures { IfSome result (λ more. (bytes_of more ≡ bytes_of note ++ bytes.now)
        × (more.synced ≡ false)) }
{
    let count = note.count;
    if count > NOTE_ROOM || bytes.len() > NOTE_ROOM - count {
        return None;
    }
    let mut all = note.bytes;
    let next = count + bytes.len();
    all[count..next].copy_from_slice(bytes);
    Some(Note {
        bytes: all,
        count: next,
        synced: false,
    })
}

// How many bytes a note has.
fn length_of(note: Note) -> u64
    ensures { result ≡ length (bytes_of note) }
{
    note.count.min(NOTE_ROOM) as u64
}

// Copies a part of the note's bytes.
fn copy_part(note: Note, at: u64, buf: &mut [u8]) -> bool
    ensures { IsTrue result → IsPart at buf.new (bytes_of note) }
{
    let count = length_of(note);
    if at > count || buf.len() as u64 > count - at {
        return false;
    }
    let from = at as usize;
    buf.copy_from_slice(&note.bytes[from..from + buf.len()]);
    true
}

impl Disk for FakeDisk {
    ghost use Rattle.std.specs.Prelude.{Some};
    ghost use Rattle.journal_save.specs.Fake.{disk_of};

    ghost disk = { λ f. Some (disk_of f) };

    ghost failed = { λ f. f.failed };

    fn facts(&self) -> FileFacts {
        FileFacts {
            length: 1,
            inode: 11,
            birth: 7,
        }
    }

    fn read_at(&mut self, at: u64, buf: &mut [u8]) -> Result<()> {
        if self.is_refused() || at != 0 || buf.len() != 1 {
            return self.refuse();
        }
        buf.copy_from_slice(&[self.now.file]);
        Ok(())
    }

    fn create(&mut self) -> Result<()> {
        if self.is_refused() || self.now.journal.is_some() {
            return self.refuse();
        }
        let note = Note {
            bytes: [0; NOTE_ROOM],
            count: 0,
            synced: false,
        };
        self.turn(Moment {
            beside: Some(note),
            ..self.now
        })
    }

    fn append(&mut self, bytes: &[u8]) -> Result<()> {
        if self.is_refused() {
            return self.refuse();
        }
        let Some(note) = self.now.beside else {
            return self.refuse();
        };
        let Some(more) = grown(note, bytes) else {
            return self.refuse();
        };
        self.turn(Moment {
            beside: Some(more),
            ..self.now
        })
    }

    fn sync_journal(&mut self) -> Result<()> {
        if self.is_refused() {
            return self.refuse();
        }
        let Some(note) = self.now.beside else {
            return self.refuse();
        };
        let note = Note {
            synced: true,
            ..note
        };
        self.turn(Moment {
            beside: Some(note),
            ..self.now
        })
    }

    fn publish(&mut self) -> Result<()> {
        if self.is_refused() || self.now.before.is_some() {
            return self.refuse();
        }
        self.turn(Moment {
            beside: None,
            journal: self.now.beside,
            before: Some(self.now.journal),
            ..self.now
        })
    }

    fn sync_folder(&mut self) -> Result<()> {
        if self.is_refused() {
            return self.refuse();
        }
        self.turn(Moment {
            before: None,
            ..self.now
        })
    }

    fn clear(&mut self) -> Result<()> {
        if self.is_refused() {
            return self.refuse();
        }
        self.turn(Moment {
            beside: None,
            ..self.now
        })
    }

    fn remove_journal(&mut self) -> Result<()> {
        if self.is_refused() || self.now.before.is_some() {
            return self.refuse();
        }
        self.turn(Moment {
            journal: None,
            before: Some(self.now.journal),
            ..self.now
        })
    }

    fn journal_length(&mut self) -> Result<Option<u64>> {
        if self.is_refused() {
            return self.refuse();
        }
        match self.now.journal {
            Some(note) => Ok(Some(length_of(note))),
            None => Ok(None),
        }
    }

    fn read_journal(&mut self, at: u64, buf: &mut [u8]) -> Result<()> {
        if self.is_refused() {
            return self.refuse();
        }
        let Some(note) = self.now.journal else {
            return self.refuse();
        };
        if copy_part(note, at, buf) {
            return Ok(());
        }
        self.refuse()
    }

    fn write_at(&mut self, at: u64, bytes: &[u8]) -> Result<()> {
        if self.is_refused() || at != 0 || self.now.is_twice || self.now.written.is_some() {
            return self.refuse();
        }
        let [byte] = bytes else {
            return self.refuse();
        };
        self.turn(Moment {
            is_loose: true,
            is_twice: self.now.is_loose,
            written: Some(*byte),
            ..self.now
        })
    }

    fn sync_file(&mut self) -> Result<()> {
        if self.is_refused() {
            self.lose();
            return self.refuse();
        }
        self.flush()
    }
}
