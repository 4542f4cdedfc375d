// The answer to a query for some fields of a range of traces.
ghost use Rattle.std.specs.Prelude.{◌≡◌, IsErrOf, IfErr};
ghost use Rattle.bench_rules.specs.ReadFaults.{IsFaultOfReads};
ghost use Rattle.room.specs.Refusals.{Rises};
ghost use Rattle.edit_overlay.specs.CountedVolume.{IsSeen};
ghost use Rattle.edit_overlay.specs.Reads.{HaveAgreed};
ghost use Rattle.bench_rules.specs.declared.query.Query.TheVariants as queries;
ghost use Rattle.bench_rules.specs.Answer.{IsReply};
ghost use Rattle.bench_rules.specs.Looks.{looks_at, range_looks};
ghost use Rattle.bench_rules.specs.ManyTraces.{each_of};
ghost use Rattle.bench_rules.specs.Places.{place_in_trace as place_of_field};
ghost use Rattle.bench_rules.specs.State.{State};

use crate::tables::table;
use bench_rules::{Answer, AskFault, Field, range_fault};
use edit_overlay::Overlay;
use field_map::FieldMap;
use room::Room;
use trace_record::PackedRecord;

/// These fields of each of traces a to b. Looks at each of them once at most, and at none where a
/// or b is refused or a field has no place. Takes memory. Refused: E01, E02, E03, else E11 alone.
/// On disk also where a trace could not be read (E14, E15).
pub fn table_answer(
    room: &mut Room,
    overlay: &mut Overlay<PackedRecord>,
    map: &FieldMap,
    a: u32,
    b: u32,
    fields: &[Field],
) -> Result<Answer, AskFault>
    ensures reply { (s : State) → s.volume ≡ overlay.old.volume → s.fields ≡ map.now.pairs →
        s.on_disk ≡ overlay.old.loaded.on_disk → HaveAgreed overlay.new.reads →
        IsReply s (queries.Table a b fields.now) result }
    ensures reads_tell { IfErr result (IsFaultOfReads overlay.old.reads overlay.new.reads) }
    ensures seen { IsSeen overlay.old overlay.new
        (looks_at (each_of (place_of_field map.now.pairs) fields.now)
        (range_looks overlay.old.volume a b)) }
    ensures memory { Rises (IsErrOf result AskFault.OutOfMemory) room.old room.new }
{
    if let Some(fault) = range_fault(overlay, a, b) {
        return Err(fault);
    }
    let rows = match table(room, overlay, map, a, b, fields) {
        Ok(rows) => rows,
        Err(fault) => return Err(fault),
    };
    Ok(Answer::Table(rows))
}
