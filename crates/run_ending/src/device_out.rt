// A save to a pipe or a device.
ghost use Rattle.std.specs.Prelude.{◌≡◌, None, Option, option_map};
ghost use Rattle.std.specs.Io.{WritesAtMost};
ghost use Rattle.run_ending.specs.Passing.{PassesOn};

use safe_save::{BoundedFile, Original, Sight};
use std::fs::{OpenFile, OpenOptions};
use std::io::{Error, ErrorKind, Result, Write};
use std::marker::Model;
use std::os::unix::fs::OpenOptionsExt;
use std::rt::Files;

// Of a new file: what the process leaves to others is the system's to say.
const NEW_MODE: u32 = 0o666;

/// A pipe or a device, which takes the bytes itself: nothing is made beside it. It is opened at the
/// first write, so that a run which saves nothing leaves it alone. A clause sees it as the file,
/// where it is open.
#[derive(Drop)]
pub struct DeviceOut<'a, R: Files> {
    rt: &'a R,
    path: &'a str,
    // A pipe and a device have no limit; a write that a signal interrupts is made again.
    file: Option<BoundedFile<R::File>>,
    original: Option<Original<'a>>,
    is_stale: bool,
    is_unseen: bool,
}

impl<'a, R: Files> Model for DeviceOut<'a, R> {
    ghost Value = { Option R.File };

    ghost view = { λ s. option_map (λ f. f.file) s.file };
}

impl<'a, R: Files + AllocGlobal> DeviceOut<'a, R> {
    /// A save to this path. `original` is not to change until it is opened.
    pub fn new(rt: &'a R, path: &'a str, original: Option<Original<'a>>) -> DeviceOut<'a, R>
        ensures { result ≡ None }
    {
        DeviceOut {
            rt,
            path,
            file: None,
            original,
            is_stale: false,
            is_unseen: false,
        }
    }

    /// Whether the save was refused because the original had changed.
    pub fn is_stale(&self) -> bool {
        self.is_stale
    }

    /// Whether the save was refused because the original could not be looked at.
    pub fn is_unseen(&self) -> bool {
        self.is_unseen
    }

    /// The original as a later save is to find it.
    pub fn original(&self) -> Option<Original<'a>> {
        self.original
    }

    // Refuses the save where the original is not as it was.
    fn look_at_original(&mut self) -> Result<()> {
        let Some(original) = &self.original else {
            return Ok(());
        };
        match original.look(self.rt) {
            Sight::Same => Ok(()),
            Sight::Changed => {
                self.is_stale = true;
                Err(Error::new(ErrorKind::Other, "the original was changed"))
            }
            Sight::Unseen(error) => {
                self.is_unseen = true;
                Err(error)
            }
        }
    }

    /// Opens it.
    pub fn create(&mut self) -> Result<()> {
        self.look_at_original()?;
        let mut how = OpenOptions::new();
        how.write(true).create(true).truncate(true).mode(NEW_MODE);
        let file = how.open(self.rt, self.path)?;
        self.file = Some(BoundedFile::new(file, u64::MAX));
        Ok(())
    }

    /// Writes to the open device the first of these bytes, in order and once, behind those that it
    /// has. An `Err` has written none; where none is open it is one.
    pub fn write(&mut self, bytes: &[u8]) -> Result<usize>
        ensures bound { WritesAtMost result bytes.now }
        ensures bytes { PassesOn R.File.contents self.old self.new result bytes.now }
    {
        put(&mut self.file, bytes)
    }

    /// Closes it: there is nothing to sync.
    pub fn close(&mut self) {
        self.file = None;
    }
}

// One write to the file that is open: it takes the first bytes, in order and once.
fn put<W: Write>(file: &mut Option<BoundedFile<W>>, bytes: &[u8]) -> Result<usize>
    ensures bound { WritesAtMost result bytes.now }
    ensures bytes { PassesOn W.contents (option_map (λ f. f.file) file.old)
        (option_map (λ f. f.file) file.new) result bytes.now }
{
    match file {
        Some(file) => file.write(bytes),
        None => Err(Error::from(ErrorKind::InvalidInput)),
    }
}
