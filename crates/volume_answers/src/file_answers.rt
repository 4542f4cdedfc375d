// The answers about the file as a whole and about its binary header and its field map. None looks
// at a trace.
ghost use Rattle.std.specs.Prelude.{◌≡◌, Ok, length, IsErrOf, ◌≢◌, IfErr};
ghost use Rattle.room.specs.Refusals.{Rises};
ghost use Rattle.frame_cut.specs.Traces.{count_of};
ghost use Rattle.frame_cut.specs.Volume.{bytes_of};
ghost use Rattle.bench_rules.specs.declared.query.Query.TheVariants as queries;
ghost use Rattle.bench_rules.specs.Answer.{answer, IsReply};
ghost use Rattle.bench_rules.specs.ReadFaults.{IsFaultOfNoRead};
ghost use Rattle.bench_rules.specs.State.{State};

use bench_rules::{Answer, AskFault, Field, Info, Items, Text, binary_value, place_in_binary};
use edit_overlay::Overlay;
use field_map::FieldMap;
use frame_cut::Reading;
use room::Room;
use trace_record::PackedRecord;

/// The number of traces. Takes no memory.
pub fn count_answer(overlay: &Overlay<PackedRecord>) -> Answer
    ensures { (s : State) → s.volume ≡ overlay.now.volume → Ok result ≡ answer s queries.Count }
{
    Answer::Count(overlay.count())
}

/// What the file that is read so is. Takes no memory.
pub fn info_answer(overlay: &Overlay<PackedRecord>, reading: Reading) -> Answer
    ensures { (s : State) → s.volume ≡ overlay.now.volume → s.reading ≡ reading →
        Ok result ≡ answer s queries.Info }
{
    Answer::Info(Info {
        head: overlay.head(),
        traces: overlay.count(),
        bytes: overlay.length(),
        tail: reading.tail.then(|| overlay.tail()),
    })
}

/// The number in the field of the binary header. Takes no memory. Refused: E02, E03.
pub fn get_bin_answer(overlay: &Overlay<PackedRecord>, field: &Field) -> Result<Answer, AskFault>
    ensures reply { (s : State) → s.volume ≡ overlay.now.volume →
        result ≡ answer s (queries.GetBin field.now) }
    ensures other { IfErr result (λ fault. fault ≢ AskFault.OutOfMemory) }
    ensures unread { IfErr result IsFaultOfNoRead }
{
    let Some(place) = place_in_binary(field) else {
        return Err(AskFault::NoField);
    };
    match binary_value(overlay.head().order, overlay.bin(), place) {
        Some(value) => Ok(Answer::Value(value)),
        None => Err(AskFault::NoPlace),
    }
}

/// The bound names with their places, in the map's order. Takes memory; refused for want of it
/// alone, E11.
pub fn fields_answer(room: &mut Room, fields: &FieldMap) -> Result<Answer, AskFault>
    ensures reply { (s : State) → s.fields ≡ fields.now.pairs → IsReply s queries.Fields result }
    ensures unread { IfErr result IsFaultOfNoRead }
    ensures memory { Rises (IsErrOf result AskFault.OutOfMemory) room.old room.new }
{
    let mut all = Vec::new(room.alloc());
    for (name, place) in fields.entries() {
        let text = room.told(String::from_str(room.alloc(), name))?;
        room.told_back(all.push((Text::new(text), place)))?;
    }
    Ok(Answer::Fields(Items::new(all)))
}
