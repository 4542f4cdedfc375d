// A reader that counts its failures.
ghost use Rattle.std.specs.Prelude.{◌≡◌, ◌≤◌, [], length, IfOk, IfErr, IsErrOf, MatchResult};
ghost use Rattle.std.specs.Io.{ReadsAtMost};
ghost use Rattle.std.specs.Io.KnownBytes.{ReadConsumes};
ghost use Rattle.room.specs.Refusals.{Rises};
ghost use Rattle.device_io.specs.Failures.{CountsFailure};
ghost use Rattle.device_io.specs.WholeReads.{FailuresAfter, GivesAll, GivesBefore};

use crate::failed::Failed;
use crate::read_fault::ReadFault;
use room::Room;
use std::io::Read;
use std::marker::Model;

// How many bytes `read_up_to` asks for at once.
const CHUNK: usize = 65536;

/// A reader and the count of its failed reads: a clause sees them as `inner` and `failures`.
#[derive(Drop)]
pub struct Source<R> {
    inner: R,
    failures: u64,
    expected: u64,
}

impl<R> Model for Source<R> {
    ghost use Rattle.device_io.specs.Devices.{CountedDevice};

    ghost Value = { CountedDevice R };

    ghost view = { λ s. record { inner = s.inner; failures = s.failures } };
}

impl<R: Read> Source<R> {
    /// The reader, with no failure yet. Takes no memory.
    pub fn new(inner: R) -> Source<R>
        ensures { result ≡ record { inner = inner; failures = 0 } }
    {
        Source::expecting(inner, 0)
    }

    /// The reader, with no failure yet, of which so many bytes are expected: `read_up_to` then asks
    /// for the memory of them first, and once. They need not come, and no answer depends on them.
    /// Takes no memory.
    pub fn expecting(inner: R, bytes: u64) -> Source<R>
        ensures { result ≡ record { inner = inner; failures = 0 } }
    {
        Source {
            inner,
            failures: 0,
            expected: bytes,
        }
    }

    /// One read, by the reader itself: it gives some of the next bytes, and 0 of them only at the
    /// end or where there is no room. `Failed` is its error, has taken nothing from it, and is
    /// counted.
    pub fn read(&mut self, buf: &mut [u8]) -> Result<usize, Failed>
        ensures bound { ReadsAtMost result buf.new }
        ensures bytes { ReadConsumes (R.remaining self.old.inner) (R.remaining self.new.inner)
            result buf.new }
        ensures failures { CountsFailure result self.old.failures self.new.failures }
    {
        match self.inner.read(buf) {
            Ok(n) => Ok(n),
            Err(_) => {
                self.failures = self.failures.saturating_add(1);
                Err(Failed)
            }
        }
    }

    /// All bytes up to the reader's end, which are at most `limit`. Takes memory for them. Refused
    /// where a read failed, where there are more than `limit`, and where a growth was refused in
    /// this call; the bytes read before are then dropped. Never more than one byte above the limit
    /// is asked for.
    pub fn read_up_to(&mut self, room: &mut Room, limit: u64) -> Result<Vec<u8>, ReadFault>
        ensures all { IfOk result (λ v. GivesAll (R.remaining self.old.inner)
            (R.remaining self.new.inner) v.items) }
        ensures within { IfOk result (λ v. length v.items ≤ limit) }
        ensures refused { IfErr result (λ fault. GivesBefore fault (R.remaining self.old.inner)
            (R.remaining self.new.inner) limit) }
        ensures failures { MatchResult result (λ _. self.new.failures ≡ self.old.failures)
            (λ fault. FailuresAfter fault self.old.failures self.new.failures) }
        ensures memory { Rises (IsErrOf result ReadFault.OutOfMemory) room.old room.new }
    {
        let most = limit as usize;
        let mut bytes = room_for(room, self.expected.min(limit));
        let mut chunk = [0u8; CHUNK];
        'turns: while bytes.len() <= most {
            let want = CHUNK.min((most - bytes.len()).saturating_add(1));
            let count = match self.read(&mut chunk[..want]) {
                Ok(count) => count,
                Err(_) => return Err(ReadFault::ReadFailed),
            };
            if count == 0 {
                return Ok(bytes);
            }
            if room.told(bytes.extend_from_slice(&chunk[..count])).is_err() {
                return Err(ReadFault::OutOfMemory);
            }
        }
        Err(ReadFault::TooLarge)
    }

    /// How many reads have failed. At `u64::MAX` it stays.
    pub fn failures(&self) -> u64
        ensures { result ≡ self.now.failures }
    {
        self.failures
    }

    /// The reader, as it is now.
    pub fn into_inner(self) -> R
        ensures { result ≡ self.inner }
    {
        self.inner
    }
}

// No bytes yet, and memory for so many, where there is that much.
fn room_for(room: &mut Room, count: u64) -> Vec<u8>
    ensures items { result.items ≡ [] }
    ensures memory { room.old ≤ room.new }
{
    match room.told(Vec::with_capacity(room.alloc(), count as usize)) {
        Ok(bytes) => bytes,
        Err(_) => Vec::new(room.alloc()),
    }
}
