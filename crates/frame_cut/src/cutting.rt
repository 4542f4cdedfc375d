// Cuts a file.
ghost use Rattle.std.specs.Prelude.{◌≡◌, ◌⊎◌, IfOk, IfErr, IsErrOf};
ghost use Rattle.room.specs.Refusals.{Rises};
ghost use Rattle.frame_cut.specs.Layout.{volume_at, AreTracesOf};
ghost use Rattle.frame_cut.specs.Cuts.{IsCut, IsRefused};

use crate::file_cut::Cut;
use crate::head_checks::head;
use crate::limits::Limits;
use crate::load_fault::LoadFault;
use crate::reading::Reading;
use crate::walk::walk;
use room::Room;
use text_block::TEXT_BLOCK_BYTES;

/// Cuts the file with these bytes into its parts. Refused with L02 to L15 or L17 only where there
/// is no such cut: for the head's reason (see [`head`](crate::head)), else for the first trace that
/// is refused: the traces' part of the file ends inside its front (L14), its first header extension
/// names too many of them (L13), the traces' part ends inside it (L14), or it is one more than the
/// limit (L15), in this order. Under a reading that keeps a tail L14 does not come: the bytes of a
/// trace that is not whole are of no trace. Looks at the traces' headers, never at their samples.
/// Takes memory for the list of the traces' places alone, never in step with a number that the file
/// names; where that is refused in this call, and only there, the file is refused with L16.
pub fn cut(
    room: &mut Room,
    bytes: &[u8],
    reading: Reading,
    limits: Limits,
) -> Result<Cut, LoadFault>
    ensures ok { IfOk result
        (λ cut. IsCut bytes.now reading limits (volume_at bytes.now cut.0 cut.1 cut.2)) }
    ensures laid { IfOk result (λ cut. AreTracesOf bytes.now cut.0 cut.1 cut.2) }
    ensures refused { IfErr result (λ fault.
        (fault ≡ LoadFault.OutOfMemory) ⊎ IsRefused bytes.now reading limits fault) }
    ensures memory { Rises (IsErrOf result LoadFault.OutOfMemory) room.old room.new }
{
    let head = match head(bytes, reading, limits) {
        Ok(head) => head,
        Err(fault) => return Err(fault),
    };
    match walk(room, &head, reading, limits, bytes) {
        Ok((extents, at)) => {
            let end = bytes.len() - TEXT_BLOCK_BYTES * head.trailer as usize;
            Ok(Cut::new(head, extents, (end - at) as u64))
        }
        Err(fault) => Err(fault),
    }
}
