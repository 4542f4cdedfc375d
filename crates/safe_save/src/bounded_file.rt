// A file that is written up to a limit on its size.
ghost use Rattle.std.specs.Prelude.{◌≡◌, ◌≤◌};
ghost use Rattle.std.specs.Io.{WritesAtMost};
ghost use Rattle.std.specs.Io.KnownBytes.{Keeps, WriteAppends};
ghost use Rattle.safe_save.specs.Bounded.{Bounded, Counts, Stays};

use std::io::{Error, ErrorKind, Result, Write};
use std::marker::Model;

// How often a write is tried that a signal interrupts.
const TRIES: u32 = 1000;

// Linux's number of "File too large".
const TOO_LARGE: i32 = 27;

/// A file that is being written, of at most `limit` bytes: a write behind the system's own limit
/// would end the process by a signal. A write that a signal interrupts is made again. A clause sees
/// it as the file inside, the limit, and how many bytes it took: never more than the limit.
#[derive(Drop)]
pub struct BoundedFile<W> {
    inner: W,
    limit: u64,
    written: u64,
}

impl<W> Model for BoundedFile<W> {
    ghost Value = { Bounded W };

    ghost view = { λ f. record { file = f.inner; limit = f.limit; taken = f.written } };

    ghost invariant = { λ f. f.written ≤ f.limit };
}

impl<W: Write> BoundedFile<W> {
    /// A file that has no bytes yet.
    pub fn new(inner: W, limit: u64) -> BoundedFile<W>
        ensures { result ≡ record { file = inner; limit = limit; taken = 0 } }
    {
        BoundedFile {
            inner,
            limit,
            written: 0,
        }
    }

    /// The file, as it is now.
    pub fn into_inner(self) -> W
        ensures { result ≡ self.file }
    {
        self.inner
    }

    /// The file, to be looked at.
    pub fn inner(&self) -> &W
        ensures { result.now ≡ self.now.file }
    {
        &self.inner
    }
}

impl<W: Write> Write for BoundedFile<W> {
    ghost contents = { λ f. W.contents f.file };

    fn write(&mut self, buf: &[u8]) -> Result<usize>
        ensures bound { WritesAtMost result buf.now }
        ensures bytes { WriteAppends (W.contents self.old.file) (W.contents self.new.file) result
            buf.now }
        ensures count { Counts self.old self.new result }
    {
        let room = self.limit.saturating_sub(self.written);
        if room == 0 && !buf.is_empty() {
            return Err(Error::from_raw_os_error(TOO_LARGE));
        }
        let most = room.min(buf.len() as u64) as usize;
        let count = write_again(&mut self.inner, &buf[..most])?;
        self.written = self.written.saturating_add(count as u64);
        Ok(count)
    }

    fn flush(&mut self) -> Result<()>
        ensures bytes { Keeps (W.contents self.old.file) (W.contents self.new.file) }
        ensures count { Stays self.old self.new }
    {
        self.inner.flush()
    }
}

// One write, made again where a signal interrupts it.
fn write_again<W: Write>(file: &mut W, buf: &[u8]) -> Result<usize>
    ensures bound { WritesAtMost result buf.now }
    ensures bytes { WriteAppends (W.contents file.old) (W.contents file.new) result buf.now }
{
    'tries: for _ in 0..TRIES {
        match file.write(buf) {
            Err(error) if error.kind() == ErrorKind::Interrupted => {}
            result => return result,
        }
    }
    Err(Error::from(ErrorKind::Interrupted))
}
