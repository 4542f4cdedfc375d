// The list of the traces that conditions choose.
ghost use Rattle.std.specs.Prelude.{ℕ, Option, ◌≡◌, ◌⊎◌, ◌+◌, ◌-◌, ◌<◌, ◌≤◌, [], ◌∷◌, ◌++◌, length, None, Some, IsTrue, IfOk, IfErr, OnOk, false, if◌then◌else◌, IsErr, IsErrOf};
ghost use Rattle.std.specs.List.{range_with_len};
ghost use Rattle.room.specs.Refusals.{Rises};
ghost use Rattle.field_map.specs.Pairs.{Pairs};
ghost use Rattle.frame_cut.specs.Traces.{count_of, is_trace, trace_at};
ghost use Rattle.edit_overlay.specs.CountedVolume.{IsSeen};
ghost use Rattle.edit_overlay.specs.Reads.{HaveAgreed, IsFaultOfLook};
ghost use Rattle.bench_rules.specs.declared.ask_fault.AskFault.TheVariants.{NoField as no_field, NoPlace as no_place, OutOfMemory as no_memory};
ghost use Rattle.bench_rules.specs.Conditions.{asked_tests as asked_tests_of, chosen as chosen_traces, chosen_among, meets_by, tests_of as tests_of_conditions, AreRising};
ghost use Rattle.bench_rules.specs.Looks.{choosing_looks, most_chosen};
ghost use Rattle.bench_rules.specs.RangeRefusals.{range_refusal};
ghost use Rattle.bench_rules.specs.ReadFaults.{IsFaultOfReads, IsReadFault};
ghost use Rattle.bench_rules.specs.RecordNumbers.{tells_tests};
ghost use Rattle.chosen_traces.specs.Choosing.{choosing_fault, fault_under};
ghost use Rattle.chosen_traces.specs.RecordTests.{amplitudes_if, HasRecords};

use crate::by_records::chosen_by_records;
use crate::record_tests::record_tests;
use bench_rules::{
    AskFault, Chosen, Condition, Test, ask_values, lacks_values, meets_all, test_of,
};
use edit_overlay::{Overlay, ReadFault};
use field_map::FieldMap;
use record_table::Records;
use room::{OutOfMemory, Room};
use trace_record::{Amplitudes, PackedRecord};

/// The traces of the range that meet all conditions, in order. Looks once at each trace of the
/// range, where the fields of the conditions have places, of which the records do not tell one.
/// Takes memory. Refused: E02 where a field has no place, E12 where samples have no values that are
/// asked for, E03 where a trace lacks a place; E11 may come in the place of any of these. On disk
/// also where a trace could not be read (E14, E15).
pub fn choose(
    room: &mut Room,
    overlay: &mut Overlay<PackedRecord>,
    map: &FieldMap,
    chosen: &Chosen,
) -> Result<Vec<u32>, AskFault>
    requires { range_refusal overlay.old.volume chosen.now.traces ≡ None }
    ensures ok { IfOk result (λ traces. HaveAgreed overlay.new.reads →
        HasRecords overlay.old map.now.pairs →
        chosen_traces overlay.old.volume map.now.pairs chosen.now ≡ Some traces.items) }
    ensures rising { IfOk result (λ traces. AreRising 1 (count_of overlay.old.volume)
        traces.items) }
    ensures few { IfOk result (λ traces. length traces.items ≤ most_chosen overlay.old.volume
        map.now.pairs chosen.now) }
    ensures err { IfErr result (λ fault. (fault ≡ no_memory) ⊎
        (IsReadFault overlay.old.loaded.on_disk fault
        × (0 < choosing_looks overlay.old.volume map.now.pairs chosen.now)) ⊎
        (HaveAgreed overlay.new.reads →
        choosing_fault overlay.old.volume map.now.pairs chosen.now ≡ Some fault)) }
    ensures reads_tell { IfErr result (IsFaultOfReads overlay.old.reads overlay.new.reads) }
    ensures seen { IsSeen overlay.old overlay.new
        (choosing_looks overlay.old.volume map.now.pairs chosen.now) }
    ensures memory { Rises (IsErrOf result AskFault.OutOfMemory) room.old room.new }
{
    let tests = asked_tests(room, overlay, map, chosen.conditions.as_slice())?;
    let Some((first, last)) = chosen.traces else {
        return Ok(Vec::new(room.alloc()));
    };
    if tests.len() == 0 {
        return Ok(all(room, first, last)?);
    }
    chosen_of(room, overlay, map, first, last, tests.as_slice())
}

// Those of traces a to b that meet all conditions: by their records, where these tell both sides of
// each, else in one look at each trace.
fn chosen_of(
    room: &mut Room,
    overlay: &mut Overlay<PackedRecord>,
    map: &FieldMap,
    a: u32,
    b: u32,
    tests: &[Test],
) -> Result<Vec<u32>, AskFault>
    requires first { 1 ≤ a }
    requires range { a ≤ b }
    requires last { b ≤ count_of overlay.old.volume }
    ensures ok { IfOk result (λ traces. HaveAgreed overlay.new.reads →
        HasRecords overlay.old map.now.pairs → chosen_among overlay.old.volume tests.now
        (range_with_len a (b + 1 - a)) ≡ Some traces.items) }
    ensures rising { IfOk result (λ traces. AreRising a b traces.items) }
    ensures err { IfErr result (λ fault. (fault ≡ no_memory) ⊎
        (IsReadFault overlay.old.loaded.on_disk fault
        × (tells_tests map.now.pairs tests.now ≡ false)) ⊎
        ((fault ≡ no_place) × (HaveAgreed overlay.new.reads → chosen_among overlay.old.volume
        tests.now (range_with_len a (b + 1 - a)) ≡ None))) }
    ensures reads_tell { IfErr result (IsFaultOfReads overlay.old.reads overlay.new.reads) }
    ensures seen { IsSeen overlay.old overlay.new
        (if tells_tests map.now.pairs tests.now then 0 else b + 1 - a) }
    ensures memory { Rises (IsErrOf result AskFault.OutOfMemory) room.old room.new }
{
    match record_tests(room, map, tests)? {
        Some(told) => Ok(chosen_by_records(room, overlay, a, b, told.as_slice())?),
        None => chosen_from(room, overlay, a, b, tests),
    }
}

// The conditions with the places of their fields: E02 where one has none, E12 where samples have no
// values that are asked for.
fn asked_tests(
    room: &mut Room,
    overlay: &Overlay<PackedRecord>,
    map: &FieldMap,
    conditions: &[Condition],
) -> Result<Vec<Test>, AskFault>
    ensures ok { IfOk result (λ tests. asked_tests_of overlay.now.volume.head.format map.now.pairs
        conditions.now ≡ Some tests.items) }
    ensures err { IfErr result (λ fault. (fault ≡ no_memory) ⊎ ((range : Option (ℕ × ℕ)) →
        fault_under overlay.now.volume range (tests_of_conditions map.now.pairs conditions.now)
        ≡ Some fault)) }
    ensures memory { Rises (IsErrOf result AskFault.OutOfMemory) room.old room.new }
{
    let tests = match tests_of(room, map, conditions) {
        Ok(tests) => tests,
        Err(fault) => return Err(fault),
    };
    if lacks_values(overlay.head().format, tests.as_slice()) {
        return Err(AskFault::NoValues);
    }
    Ok(tests)
}

// The conditions with the places of their fields: E02 where one has none.
fn tests_of(
    room: &mut Room,
    map: &FieldMap,
    conditions: &[Condition],
) -> Result<Vec<Test>, AskFault>
    ensures ok { IfOk result (λ tests. tests_of_conditions map.now.pairs conditions.now
        ≡ Some tests.items) }
    ensures err { IfErr result (λ fault. (fault ≡ no_memory) ⊎ ((fault ≡ no_field) ×
        (tests_of_conditions map.now.pairs conditions.now ≡ None))) }
    ensures memory { Rises (IsErrOf result AskFault.OutOfMemory) room.old room.new }
{
    let mut tests = room.told(Vec::with_capacity(room.alloc(), conditions.len()))?;
    for condition in conditions {
        let Some(test) = test_of(map, condition) else {
            return Err(AskFault::NoField);
        };
        room.told_back(tests.push(test))?;
    }
    Ok(tests)
}

// All traces from one to another.
fn all(room: &mut Room, first: u32, last: u32) -> Result<Vec<u32>, OutOfMemory>
    requires { first ≤ last }
    ensures traces { IfOk result (λ traces. traces.items ≡
        range_with_len first (last + 1 - first)) }
    ensures memory { Rises (IsErr result) room.old room.new }
{
    let count = last - first;
    let mut traces = room.told(Vec::with_capacity(room.alloc(), count as usize + 1))?;
    for k in 0..count {
        room.told_back(traces.push(first + k))?;
    }
    room.told_back(traces.push(last))?;
    Ok(traces)
}

// Those of traces a to b that meet all conditions: E03 where one of the traces lacks a place.
fn chosen_from(
    room: &mut Room,
    overlay: &mut Overlay<PackedRecord>,
    a: u32,
    b: u32,
    tests: &[Test],
) -> Result<Vec<u32>, AskFault>
    requires first { 1 ≤ a }
    requires range { a ≤ b }
    requires last { b ≤ count_of overlay.old.volume }
    ensures ok { IfOk result (λ traces. (fields : Pairs) → HaveAgreed overlay.new.reads →
        HasRecords overlay.old fields → chosen_among overlay.old.volume tests.now
        (range_with_len a (b + 1 - a)) ≡ Some traces.items) }
    ensures rising { IfOk result (λ traces. AreRising a b traces.items) }
    ensures err { IfErr result (λ fault. (fault ≡ no_memory) ⊎
        IsReadFault overlay.old.loaded.on_disk fault ⊎
        ((fault ≡ no_place) × (HaveAgreed overlay.new.reads → chosen_among overlay.old.volume
        tests.now (range_with_len a (b + 1 - a)) ≡ None))) }
    ensures reads_tell { IfErr result (IsFaultOfReads overlay.old.reads overlay.new.reads) }
    ensures seen { IsSeen overlay.old overlay.new (b + 1 - a) }
    ensures memory { Rises (IsErrOf result AskFault.OutOfMemory) room.old room.new }
{
    // Most conditions are on numbers of header fields, which need no record beside the trace.
    let beside = ask_values(tests);
    let mut traces = Vec::new(room.alloc());
    for k in 0..b - a + 1 {
        let Some(is_chosen) = judged(overlay, a + k, tests, beside)? else {
            return Err(AskFault::NoPlace);
        };
        keep(room, &mut traces, a + k, is_chosen)?;
    }
    Ok(traces)
}

// Puts the trace behind others, where it is chosen.
pub(crate) fn keep(
    room: &mut Room,
    traces: &mut Vec<u32>,
    p: u32,
    is_chosen: bool,
) -> Result<(), OutOfMemory>
    ensures traces { OnOk result (traces.new.items ≡ (if is_chosen then traces.old.items ++ p ∷ []
        else traces.old.items)) }
    ensures memory { Rises (IsErr result) room.old room.new }
{
    if is_chosen {
        room.told_back(traces.push(p))?;
    }
    Ok(())
}

// Whether trace p meets all conditions, in one look at it, and at the record beside it where the
// conditions ask for that; `None` where it lacks a place.
fn judged(
    overlay: &mut Overlay<PackedRecord>,
    p: u32,
    tests: &[Test],
    beside: bool,
) -> Result<Option<bool>, ReadFault>
    requires { IsTrue (is_trace overlay.old.volume p) }
    ensures told { IfOk result (λ told. HaveAgreed overlay.new.reads → told ≡ meets_by
        overlay.old.volume.head (trace_at overlay.old.volume p)
        (amplitudes_if beside overlay.old.payloads p) tests.now) }
    ensures seen { IsSeen overlay.old overlay.new 1 }
    ensures read { IfErr result (λ _. IsTrue overlay.old.loaded.on_disk) }
    ensures reads_tell { IfErr result (IsFaultOfLook overlay.old.reads overlay.new.reads) }
{
    let amplitudes = amplitudes_of(overlay, p, beside);
    let Some(trace) = overlay.look(p)? else {
        unreachable!()
    };
    Ok(meets_all(&trace, amplitudes, tests))
}

// What the record beside trace p says of its samples, where that is asked for.
fn amplitudes_of(overlay: &Overlay<PackedRecord>, p: u32, beside: bool) -> Option<Amplitudes>
    ensures { result ≡ amplitudes_if beside overlay.now.payloads p }
{
    if !beside {
        return None;
    }
    match Records::new(overlay.payloads()).get((p as usize).saturating_sub(1)) {
        Some(record) => record.amplitudes,
        None => None,
    }
}
