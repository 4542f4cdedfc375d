// The answers to queries for named header fields.
ghost use Rattle.std.specs.Prelude.{◌≡◌, IsErrOf, IfErr};
ghost use Rattle.bench_rules.specs.ReadFaults.{IsFaultOfReads};
ghost use Rattle.room.specs.Refusals.{Rises};
ghost use Rattle.edit_overlay.specs.CountedVolume.{IsSeen};
ghost use Rattle.edit_overlay.specs.Reads.{HaveAgreed};
ghost use Rattle.bench_rules.specs.declared.query.Query.TheVariants as queries;
ghost use Rattle.bench_rules.specs.Answer.{IsReply};
ghost use Rattle.bench_rules.specs.Looks.{looks_at, range_looks, trace_looks};
ghost use Rattle.bench_rules.specs.Places.{place_in_trace as place_of_field};
ghost use Rattle.bench_rules.specs.State.{State};

use crate::all_extremes::extremes;
use crate::finds::find;
use crate::headers::header;
use crate::names::named_places;
use bench_rules::{Answer, AskFault, Field, has_trace, place_in_trace, range_fault};
use edit_overlay::Overlay;
use field_map::FieldMap;
use room::Room;
use trace_record::PackedRecord;

/// All named header fields of trace p. One look at most. Takes memory. Refused: E01, else E11
/// alone. On disk also where the trace could not be read (E14, E15).
pub fn header_answer(
    room: &mut Room,
    overlay: &mut Overlay<PackedRecord>,
    map: &FieldMap,
    p: u32,
) -> Result<Answer, AskFault>
    ensures reply { (s : State) → s.volume ≡ overlay.old.volume → s.fields ≡ map.now.pairs →
        s.on_disk ≡ overlay.old.loaded.on_disk → HaveAgreed overlay.new.reads →
        IsReply s (queries.Header p) result }
    ensures reads_tell { IfErr result (IsFaultOfReads overlay.old.reads overlay.new.reads) }
    ensures seen { IsSeen overlay.old overlay.new (trace_looks overlay.old.volume p 1) }
    ensures memory { Rises (IsErrOf result AskFault.OutOfMemory) room.old room.new }
{
    if !has_trace(overlay, p) {
        return Err(AskFault::NoTrace(p, overlay.count()));
    }
    let names = named_places(room, map)?;
    let numbers = header(room, overlay, p, names)?;
    Ok(Answer::Header(numbers))
}

/// Those of traces a to b whose field has a number from low to high. Looks at each of them once at
/// most, and at none where a or b is refused or the field has no place. Takes memory. Refused: E01,
/// E02, E03, else E11 alone. On disk also where a trace could not be read (E14, E15).
pub fn found_answer(
    room: &mut Room,
    overlay: &mut Overlay<PackedRecord>,
    map: &FieldMap,
    a: u32,
    b: u32,
    field: &Field,
    low: i128,
    high: i128,
) -> Result<Answer, AskFault>
    ensures reply { (s : State) → s.volume ≡ overlay.old.volume → s.fields ≡ map.now.pairs →
        s.on_disk ≡ overlay.old.loaded.on_disk → HaveAgreed overlay.new.reads →
        IsReply s (queries.Find a b field.now low high) result }
    ensures reads_tell { IfErr result (IsFaultOfReads overlay.old.reads overlay.new.reads) }
    ensures seen { IsSeen overlay.old overlay.new
        (looks_at (place_of_field map.now.pairs field.now)
        (range_looks overlay.old.volume a b)) }
    ensures memory { Rises (IsErrOf result AskFault.OutOfMemory) room.old room.new }
{
    if let Some(fault) = range_fault(overlay, a, b) {
        return Err(fault);
    }
    let Some(place) = place_in_trace(map, field) else {
        return Err(AskFault::NoField);
    };
    let found = find(room, overlay, a, b, place, low, high)?;
    Ok(Answer::Found(found))
}

/// The extremes of all named header fields over traces a to b. Looks at each of them once at most,
/// and at none where a or b is refused. Takes memory. Refused: E01, else E11 alone. On disk also
/// where a trace could not be read (E14, E15).
pub fn extremes_answer(
    room: &mut Room,
    overlay: &mut Overlay<PackedRecord>,
    map: &FieldMap,
    a: u32,
    b: u32,
) -> Result<Answer, AskFault>
    ensures reply { (s : State) → s.volume ≡ overlay.old.volume → s.fields ≡ map.now.pairs →
        s.on_disk ≡ overlay.old.loaded.on_disk → HaveAgreed overlay.new.reads →
        IsReply s (queries.Extremes a b) result }
    ensures reads_tell { IfErr result (IsFaultOfReads overlay.old.reads overlay.new.reads) }
    ensures seen { IsSeen overlay.old overlay.new
        (range_looks overlay.old.volume a b) }
    ensures memory { Rises (IsErrOf result AskFault.OutOfMemory) room.old room.new }
{
    if let Some(fault) = range_fault(overlay, a, b) {
        return Err(fault);
    }
    let names = named_places(room, map)?;
    let found = extremes(room, overlay, a, b, names)?;
    Ok(Answer::Extremes(found))
}
