// Reads a whole file from a device.
ghost use Rattle.std.specs.Prelude.{◌≡◌, ◌≤◌, vec_len, IfOk, IfErr, IsErrOf, MatchResult};
ghost use Rattle.room.specs.Refusals.{Rises};
ghost use Rattle.device_io.specs.WholeReads.{GivesAll};
ghost use Rattle.volume_loading.specs.Loading.{FailuresAfterRefusal, IsReadFault, TakesWithin};

use device_io::{ReadFault, Source};
use frame_cut::{Limits, LoadFault};
use room::Room;
use std::io::Read;

// All bytes of the reader: L01 where a read fails, L02 where it gives more than the limit, L16
// where a growth is refused in this call. Never more than one byte above the limit is asked for.
pub fn read_file<R: Read>(
    room: &mut Room,
    reader: &mut Source<R>,
    limits: Limits,
) -> Result<Vec<u8>, LoadFault>
    ensures all { IfOk result (λ v. GivesAll (R.remaining reader.old.inner)
        (R.remaining reader.new.inner) v.items) }
    ensures within { IfOk result (λ v. vec_len v ≤ limits.bytes) }
    ensures refused { IfErr result (λ fault. IsReadFault (R.remaining reader.old.inner) limits
        fault) }
    ensures taken { IfErr result (λ _. TakesWithin (R.remaining reader.old.inner)
        (R.remaining reader.new.inner) limits) }
    ensures failures { MatchResult result (λ _. reader.new.failures ≡ reader.old.failures)
        (λ fault. FailuresAfterRefusal fault reader.old.failures reader.new.failures) }
    ensures memory { Rises (IsErrOf result LoadFault.OutOfMemory) room.old room.new }
{
    match reader.read_up_to(room, limits.bytes()) {
        Ok(bytes) => Ok(bytes),
        Err(ReadFault::ReadFailed) => Err(LoadFault::ReadFailed),
        Err(ReadFault::TooLarge) => Err(LoadFault::TooLarge),
        Err(ReadFault::OutOfMemory) => Err(LoadFault::OutOfMemory),
    }
}
