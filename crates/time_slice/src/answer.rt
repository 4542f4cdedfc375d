// The answer to a query for a slice.
ghost use Rattle.std.specs.Prelude.{◌≡◌, map, IfErr, IsErrOf};
ghost use Rattle.room.specs.Refusals.{Rises};
ghost use Rattle.sample_codes.specs.Formats.{values};
ghost use Rattle.frame_cut.specs.Traces.{count_of};
ghost use Rattle.trace_record.specs.Packed.{record_in};
ghost use Rattle.edit_overlay.specs.CountedVolume.{IsSeen};
ghost use Rattle.edit_overlay.specs.Reads.{HaveAgreed};
ghost use Rattle.bench_rules.specs.ReadFaults.{IsFaultOfReads};
ghost use Rattle.bench_rules.specs.declared.query.Query.TheVariants as queries;
ghost use Rattle.bench_rules.specs.Answer.{IsReply};
ghost use Rattle.bench_rules.specs.Looks.{value_looks};
ghost use Rattle.bench_rules.specs.Live.{AreRecordsOf};
ghost use Rattle.bench_rules.specs.State.{State};

use crate::rows;
use bench_rules::{Answer, AskFault, Items, has_opaque_samples};
use edit_overlay::Overlay;
use room::Room;
use trace_record::PackedRecord;

/// Sample k, counted from 0, of each trace that has it. Looks at each trace once, and at none where
/// samples have no values. Takes memory. Refused: E12, else E11 alone. On disk also where a trace
/// could not be read (E14, E15).
pub fn slice_answer(
    room: &mut Room,
    overlay: &mut Overlay<PackedRecord>,
    k: u32,
) -> Result<Answer, AskFault>
    ensures reply { (s : State) → s.volume ≡ overlay.old.volume →
        s.on_disk ≡ overlay.old.loaded.on_disk → HaveAgreed overlay.new.reads →
        AreRecordsOf s (map record_in overlay.old.payloads) →
        IsReply s (queries.Slice k) result }
    ensures seen { IsSeen overlay.old overlay.new
        (value_looks (values overlay.old.volume.head.format) (count_of overlay.old.volume)) }
    ensures reads_tell { IfErr result (IsFaultOfReads overlay.old.reads overlay.new.reads) }
    ensures memory { Rises (IsErrOf result AskFault.OutOfMemory) room.old room.new }
{
    if has_opaque_samples(overlay) {
        return Err(AskFault::NoValues);
    }
    let rows = rows(room, overlay, k)?;
    Ok(Answer::Slice(Items::new(rows)))
}
