// Reads a whole script.
ghost use Rattle.std.specs.Prelude.{IfErr, IfOk, IsErrOf};
ghost use Rattle.room.specs.Refusals.{Rises};
ghost use Rattle.line_texts.specs.Devices.{device_of};
ghost use Rattle.script_run.specs.Loading.{ReadsScript, IsScriptRefused};

use device_io::{ReadFault, Source};
use refusal_texts::ScriptFault;
use room::Room;
use std::io::Read;

// The most bytes that a script may have.
const MOST_BYTES: u64 = 16777216;

/// All bytes of the script: P01 where a read fails, P02 where there are more than 16777216, P03
/// where a growth is refused. Never more than one byte above that is asked for.
pub(crate) fn read_script<S: Read>(
    room: &mut Room,
    script: &mut Source<S>,
) -> Result<Vec<u8>, ScriptFault>
    ensures ok { IfOk result (λ v. ReadsScript (device_of S.remaining script.old)
        (device_of S.remaining script.new) v.items) }
    ensures err { IfErr result (λ fault. IsScriptRefused (device_of S.remaining script.old)
        (device_of S.remaining script.new) fault) }
    ensures memory { Rises (IsErrOf result ScriptFault.OutOfMemory) room.old room.new }
{
    match script.read_up_to(room, MOST_BYTES) {
        Ok(bytes) => Ok(bytes),
        Err(ReadFault::ReadFailed) => Err(ScriptFault::ReadFailed),
        Err(ReadFault::TooLarge) => Err(ScriptFault::TooLarge),
        Err(ReadFault::OutOfMemory) => Err(ScriptFault::OutOfMemory),
    }
}
