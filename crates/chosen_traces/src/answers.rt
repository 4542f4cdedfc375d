// The answers to queries about the traces that conditions choose.
ghost use Rattle.std.specs.Prelude.{◌≡◌, ◌⊎◌, ◌+◌, ◌<◌, None, Ok, Err, IfOk, IfErr, length, map as map_of, IsErrOf, ◌≢◌};
ghost use Rattle.room.specs.Refusals.{Rises};
ghost use Rattle.frame_cut.specs.Traces.{count_of};
ghost use Rattle.trace_record.specs.Packed.{record_in};
ghost use Rattle.edit_overlay.specs.CountedVolume.{IsSeen, RisesAtMost};
ghost use Rattle.edit_overlay.specs.Reads.{HaveAgreed};
ghost use Rattle.bench_rules.specs.declared.ask_fault.AskFault.TheVariants.{OutOfMemory as no_memory};
ghost use Rattle.bench_rules.specs.declared.query.Query.TheVariants as queries;
ghost use Rattle.bench_rules.specs.Answer.{IsReply, Reply};
ghost use Rattle.bench_rules.specs.ChosenQueries.{answer_of_each, asks_for_fields as asks_for_fields_of, found_answer_of_each, of_range};
ghost use Rattle.bench_rules.specs.Conditions.{AreRising};
ghost use Rattle.bench_rules.specs.Live.{AreRecordsOf};
ghost use Rattle.bench_rules.specs.Looks.{asking_looks, chosen_query_looks, most_query_looks};
ghost use Rattle.bench_rules.specs.Places.{place_in_trace as place_of_field};
ghost use Rattle.bench_rules.specs.RangeFaults.{or_fault};
ghost use Rattle.bench_rules.specs.RangeRefusals.{range_refusal};
ghost use Rattle.bench_rules.specs.ReadFaults.{IsFaultOfReads, IsReadFault};
ghost use Rattle.bench_rules.specs.Sections.{section_answer_of_each};
ghost use Rattle.bench_rules.specs.State.{State};
ghost use Rattle.chosen_traces.specs.RecordTests.{HasRecords};

use crate::choosing::choose;
use bench_rules::{
    Answer, AskFault, Chosen, ChosenQuery, Field, Items, SampleRange, Section, has_opaque_samples,
    place_in_trace, range_fault,
};
use edit_overlay::Overlay;
use field_map::FieldMap;
use header_answers::{extremes_among, found_among, named_places};
use many_traces::{have_places, table_among};
use room::Room;
use sample_answers::stats_among;
use trace_record::PackedRecord;

/// What is asked of the traces that are chosen. Looks once at each trace of the range to choose
/// them, where the records do not tell all numbers of the conditions, and then once at most at each
/// of them; at none where the range is refused or a field has no place. Takes memory. Refused: E01,
/// else E02, E12 of a condition, E03, then E12 of what is asked of the traces, and E11 in the place
/// of any of these. On disk also where a trace could not be read (E14, E15).
pub fn chosen_answer(
    room: &mut Room,
    overlay: &mut Overlay<PackedRecord>,
    map: &FieldMap,
    chosen: &Chosen,
    query: &ChosenQuery,
) -> Result<Answer, AskFault>
    ensures reply { (s : State) → s.volume ≡ overlay.old.volume → s.fields ≡ map.now.pairs →
        s.on_disk ≡ overlay.old.loaded.on_disk → HaveAgreed overlay.new.reads →
        AreRecordsOf s (map_of record_in overlay.old.payloads) →
        IsReply s (queries.OfChosen chosen.now query.now) result }
    ensures reads_tell { IfErr result (IsFaultOfReads overlay.old.reads overlay.new.reads) }

    // Where the reads do not agree, others may have been chosen, but none that is not of the range.
    ensures seen { IsSeen overlay.old overlay.new
        (most_query_looks overlay.old.volume map.now.pairs chosen.now query.now) }
    ensures looks { HaveAgreed overlay.new.reads → HasRecords overlay.old map.now.pairs →
        RisesAtMost overlay.old.looks overlay.new.looks
        (chosen_query_looks overlay.old.volume map.now.pairs chosen.now query.now) }
    ensures memory { Rises (IsErrOf result AskFault.OutOfMemory) room.old room.new }
{
    if let Some(fault) = fault_of_range(overlay, chosen) {
        return Err(fault);
    }
    if !asks_for_fields(map, query) {
        return Err(AskFault::NoField);
    }
    let traces = match choose(room, overlay, map, chosen) {
        Ok(traces) => traces,
        Err(fault) => return Err(fault),
    };
    told(room, overlay, map, traces, query)
}

// The first fault of the range, where there is one.
fn fault_of_range(overlay: &Overlay<PackedRecord>, chosen: &Chosen) -> Option<AskFault>
    ensures told { (reply : Reply) → of_range overlay.now.volume chosen.now.traces reply
        ≡ or_fault result reply }
    ensures free { result ≡ None → range_refusal overlay.now.volume chosen.now.traces ≡ None }
{
    match chosen.traces {
        Some((first, last)) => range_fault(overlay, first, last),
        None => None,
    }
}

// Whether each field of the query has a place.
fn asks_for_fields(map: &FieldMap, query: &ChosenQuery) -> bool
    ensures { result ≡ asks_for_fields_of map.now.pairs query.now }
{
    match query {
        ChosenQuery::Count | ChosenQuery::Extremes | ChosenQuery::Stats | ChosenQuery::Samples(_) =>
            true,
        ChosenQuery::Table(fields) => have_places(map, fields.as_slice()),
        ChosenQuery::Find(field, _low, _high) => place_in_trace(map, field).is_some(),
    }
}

// What is asked of these traces, which rise.
fn told(
    room: &mut Room,
    overlay: &mut Overlay<PackedRecord>,
    map: &FieldMap,
    traces: Vec<u32>,
    query: &ChosenQuery,
) -> Result<Answer, AskFault>
    requires { AreRising 1 (count_of overlay.old.volume) traces.items }
    ensures ok { IfOk result (λ answer. HaveAgreed overlay.new.reads → answer_of_each
        overlay.old.volume map.now.pairs query.now traces.items ≡ Ok answer) }
    ensures err { IfErr result (λ fault. (fault ≡ no_memory) ⊎
        (IsReadFault overlay.old.loaded.on_disk fault
        × (0 < asking_looks query.now (length traces.items))) ⊎
        (HaveAgreed overlay.new.reads → answer_of_each overlay.old.volume map.now.pairs query.now
        traces.items ≡ Err fault)) }
    ensures reads_tell { IfErr result (IsFaultOfReads overlay.old.reads overlay.new.reads) }
    ensures seen { IsSeen overlay.old overlay.new (asking_looks query.now (length traces.items)) }
    ensures memory { Rises (IsErrOf result AskFault.OutOfMemory) room.old room.new }
{
    match query {
        ChosenQuery::Count => {
            // Read for the proof alone: they are no more than there are traces, which a `u32`
            // counts.
            let _count = overlay.count();
            Ok(Answer::Chosen(traces.len() as u32))
        }
        ChosenQuery::Table(fields) => {
            let rows = table_among(room, overlay, map, traces, fields.as_slice())?;
            Ok(Answer::Table(rows))
        }
        ChosenQuery::Find(field, low, high) => {
            found(room, overlay, map, traces.as_slice(), field, *low, *high)
        }
        ChosenQuery::Extremes => {
            let names = named_places(room, map)?;
            let extremes = extremes_among(room, overlay, traces.as_slice(), names)?;
            Ok(Answer::Extremes(extremes))
        }
        ChosenQuery::Stats => stats_among(room, overlay, traces.as_slice()),
        ChosenQuery::Samples(range) => section(overlay, traces, *range),
    }
}

// The section of these traces: E12 where samples have no values. Looks at none of them.
fn section(
    overlay: &Overlay<PackedRecord>,
    traces: Vec<u32>,
    samples: SampleRange,
) -> Result<Answer, AskFault>
    ensures reply { result ≡ section_answer_of_each overlay.now.volume samples traces.items }
    ensures other { IfErr result (λ fault. fault ≢ AskFault.OutOfMemory) }
{
    if has_opaque_samples(overlay) {
        return Err(AskFault::NoValues);
    }
    Ok(Answer::Section(Section {
        traces: Items::new(traces),
        samples,
    }))
}

// Those of these traces whose field has a number from low to high: E02 where it has no place.
fn found(
    room: &mut Room,
    overlay: &mut Overlay<PackedRecord>,
    map: &FieldMap,
    traces: &[u32],
    field: &Field,
    low: i128,
    high: i128,
) -> Result<Answer, AskFault>
    requires { AreRising 1 (count_of overlay.old.volume) traces.now }
    ensures ok { IfOk result (λ answer. HaveAgreed overlay.new.reads → found_answer_of_each
        overlay.old.volume traces.now low high (place_of_field map.now.pairs field.now)
        ≡ Ok answer) }
    ensures err { IfErr result (λ fault. (fault ≡ no_memory) ⊎
        (IsReadFault overlay.old.loaded.on_disk fault × (0 < length traces.now)) ⊎
        (HaveAgreed overlay.new.reads → found_answer_of_each overlay.old.volume traces.now low high
        (place_of_field map.now.pairs field.now) ≡ Err fault)) }
    ensures reads_tell { IfErr result (IsFaultOfReads overlay.old.reads overlay.new.reads) }
    ensures seen { IsSeen overlay.old overlay.new (length traces.now) }
    ensures memory { Rises (IsErrOf result AskFault.OutOfMemory) room.old room.new }
{
    let Some(place) = place_in_trace(map, field) else {
        return Err(AskFault::NoField);
    };
    let found = found_among(room, overlay, place, low, high, traces)?;
    Ok(Answer::Found(found))
}
