// Some header fields of many traces.
ghost use Rattle.std.specs.Prelude.{◌≡◌, ◌+◌, ◌-◌, ◌*◌, ◌<◌, ◌≤◌, ◌⊎◌, [], None, Some, Ok, Err, List, All, IsTrue, IfOk, IfErr, IfSome, length, IsErrOf, IsNone, ◌≢◌};
ghost use Rattle.std.specs.Vec.{vec_capacity};
ghost use Rattle.room.specs.Refusals.{Rises};
ghost use Rattle.frame_cut.specs.Traces.{count_of};
ghost use Rattle.edit_overlay.specs.CountedVolume.{IsSeen};
ghost use Rattle.edit_overlay.specs.Reads.{Reads, HaveAgreed, IsFaultOfLook};
ghost use Rattle.bench_rules.specs.declared.ask_fault.AskFault.TheVariants.{NoPlace, OutOfMemory as no_memory};
ghost use Rattle.field_map.specs.declared.place.Place.{Place};
ghost use Rattle.bench_rules.specs.declared.answer.Answer.TheVariants as answers;
ghost use Rattle.bench_rules.specs.Answer.{table_answer};
ghost use Rattle.bench_rules.specs.ChosenQueries.{table_of_each, table_answer_of_each};
ghost use Rattle.bench_rules.specs.Conditions.{AreRising};
ghost use Rattle.bench_rules.specs.Looks.{looks_at};
ghost use Rattle.bench_rules.specs.ManyTraces.{each_of};
ghost use Rattle.bench_rules.specs.Places.{place_in_trace};
ghost use Rattle.bench_rules.specs.ReadFaults.{IsFaultOfReads, IsReadFault};
ghost use Rattle.bench_rules.specs.Tables.{rows_at, table_of};
ghost use Rattle.bench_rules.specs.RangeFaults.{fault_of, IsFaultFor};

use crate::places::{have_places, places_of};
use crate::row::{has_row, push_row};
use bench_rules::{AskFault, Field, Table};
use edit_overlay::{Overlay, ReadFault};
use field_map::{FieldMap, Place};
use room::Room;
use trace_record::PackedRecord;

/// These fields of each of traces a to b. Looks at each of them once at most, and at none where a
/// field has no place. Refused: E02, then E03 where one of the traces lacks a place, else E11
/// alone. On disk also where a trace could not be read (E14, E15).
pub fn table(
    room: &mut Room,
    overlay: &mut Overlay<PackedRecord>,
    map: &FieldMap,
    a: u32,
    b: u32,
    fields: &[Field],
) -> Result<Table, AskFault>
    requires first { 1 ≤ a }
    requires range { a ≤ b }
    requires last { b ≤ count_of overlay.old.volume }
    ensures ok { IfOk result (λ rows. HaveAgreed overlay.new.reads → table_answer
        overlay.old.volume a b (each_of (place_in_trace map.now.pairs) fields.now)
        ≡ Ok (answers.Table rows)) }
    ensures count { IfOk result (λ rows. length rows ≡ b + 1 - a) }
    ensures wide { IfOk result (λ rows. All (λ row. length row.1 ≡ length fields.now) rows) }
    ensures err { IfErr result (λ fault. (IsReadFault overlay.old.loaded.on_disk fault
        × (0 < looks_at (each_of (place_in_trace map.now.pairs) fields.now) (b + 1 - a))) ⊎
        (HaveAgreed overlay.new.reads → IsFaultFor fault (table_answer overlay.old.volume a b
        (each_of (place_in_trace map.now.pairs) fields.now)))) }
    ensures reads_tell { IfErr result (IsFaultOfReads overlay.old.reads overlay.new.reads) }
    ensures seen { IsSeen overlay.old overlay.new
        (looks_at (each_of (place_in_trace map.now.pairs) fields.now) (b + 1 - a)) }
    ensures memory { Rises (IsErrOf result AskFault.OutOfMemory) room.old room.new }
{
    if !have_places(map, fields) {
        return Err(AskFault::NoField);
    }
    let Some(places) = places_of(room, map, fields) else {
        return Err(without_memory(overlay, map, a, b, fields)?);
    };
    match space(room, (b - a + 1) as usize, places.len()) {
        Some(numbers) => filled(overlay, a, b, places.as_slice(), numbers),
        None => Err(without_memory(overlay, map, a, b, fields)?),
    }
}

/// These fields of each of these traces, which rise. Looks at each of them once at most, and at
/// none where a field has no place. Refused: E02, then E03 where one of the traces lacks a place;
/// E11 may come in the place of E03. On disk also where a trace could not be read (E14, E15).
pub fn table_among(
    room: &mut Room,
    overlay: &mut Overlay<PackedRecord>,
    map: &FieldMap,
    traces: Vec<u32>,
    fields: &[Field],
) -> Result<Table, AskFault>
    requires { AreRising 1 (count_of overlay.old.volume) traces.items }
    ensures ok { IfOk result (λ rows. HaveAgreed overlay.new.reads → table_answer_of_each
        overlay.old.volume traces.items (each_of (place_in_trace map.now.pairs) fields.now)
        ≡ Ok (answers.Table rows)) }
    ensures err { IfErr result (λ fault. (fault ≡ no_memory) ⊎
        (IsReadFault overlay.old.loaded.on_disk fault × (0 < length traces.items)) ⊎
        (HaveAgreed overlay.new.reads → table_answer_of_each overlay.old.volume traces.items
        (each_of (place_in_trace map.now.pairs) fields.now) ≡ Err fault)) }
    ensures reads_tell { IfErr result (IsFaultOfReads overlay.old.reads overlay.new.reads) }
    ensures seen { IsSeen overlay.old overlay.new (length traces.items) }
    ensures memory { Rises (IsErrOf result AskFault.OutOfMemory) room.old room.new }
{
    if !have_places(map, fields) {
        return Err(AskFault::NoField);
    }
    let Some(places) = places_of(room, map, fields) else {
        return Err(AskFault::OutOfMemory);
    };
    let Some(numbers) = space(room, traces.len(), places.len()) else {
        return Err(AskFault::OutOfMemory);
    };
    // Read for the proof alone: they are no more than there are traces, which a `u32` counts.
    let _count = overlay.count();
    let numbers = listed_rows(overlay, traces.as_slice(), places.as_slice(), numbers)?;
    Ok(Table::listed(traces, places.len(), numbers))
}

// Room for so many rows of so many numbers; `None` where there is none.
fn space(room: &mut Room, count: usize, width: usize) -> Option<Vec<i128>>
    ensures empty { IfSome result (λ numbers. numbers.items ≡ []) }
    ensures room { IfSome result (λ numbers. width * count ≤ vec_capacity numbers) }
    ensures memory { Rises (IsNone result) room.old room.new }
{
    // More of them than can be counted are asked for too, as many as can: the library refuses them.
    let numbers = width.saturating_mul(count);
    match room.told(Vec::with_capacity(room.alloc(), numbers)) {
        Ok(numbers) => Some(numbers),
        Err(_) => None,
    }
}

// The table of traces a to b, in this list, which has place for them.
fn filled(
    overlay: &mut Overlay<PackedRecord>,
    a: u32,
    b: u32,
    places: &[Place],
    numbers: Vec<i128>,
) -> Result<Table, AskFault>
    requires first { 1 ≤ a }
    requires range { a ≤ b }
    requires last { b ≤ count_of overlay.old.volume }
    requires empty { numbers.items ≡ [] }
    requires room { length places.now * (b + 1 - a) ≤ vec_capacity numbers }
    ensures ok { IfOk result (λ rows. HaveAgreed overlay.new.reads →
        table_of overlay.old.volume places.now a b ≡ Some rows) }
    ensures count { IfOk result (λ rows. length rows ≡ b + 1 - a) }
    ensures wide { IfOk result (λ rows. All (λ row. length row.1 ≡ length places.now) rows) }
    ensures err { IfErr result (λ fault. IsReadFault overlay.old.loaded.on_disk fault ⊎
        (HaveAgreed overlay.new.reads → (fault ≡ NoPlace) ×
        (table_of overlay.old.volume places.now a b ≡ None))) }
    ensures reads_tell { IfErr result (IsFaultOfReads overlay.old.reads overlay.new.reads) }
    ensures other { IfErr result (λ fault. fault ≢ AskFault.OutOfMemory) }
    ensures seen { IsSeen overlay.old overlay.new (b + 1 - a) }
{
    let mut numbers = numbers;
    for k in 0..b - a + 1 {
        let there = push_row(overlay, a + k, places, &mut numbers)?;
        if !there {
            return Err(AskFault::NoPlace);
        }
    }
    Ok(Table::new(a, b - a + 1, places.len(), numbers))
}

// The numbers at the places of these traces, which rise, one row behind the other, in this list,
// which has place for them.
fn listed_rows(
    overlay: &mut Overlay<PackedRecord>,
    traces: &[u32],
    places: &[Place],
    numbers: Vec<i128>,
) -> Result<Vec<i128>, AskFault>
    requires rising { AreRising 1 (count_of overlay.old.volume) traces.now }
    requires empty { numbers.items ≡ [] }
    requires room { length places.now * length traces.now ≤ vec_capacity numbers }
    ensures ok { IfOk result (λ numbers. HaveAgreed overlay.new.reads →
        table_of_each overlay.old.volume places.now traces.now
        ≡ Some (rows_at traces.now (length places.now) numbers.items)) }
    ensures full { IfOk result (λ numbers.
        length numbers.items ≡ length places.now * length traces.now) }
    ensures err { IfErr result (λ fault.
        (IsReadFault overlay.old.loaded.on_disk fault × (0 < length traces.now)) ⊎
        ((fault ≡ NoPlace) × (HaveAgreed overlay.new.reads →
        table_of_each overlay.old.volume places.now traces.now ≡ None))) }
    ensures reads_tell { IfErr result (IsFaultOfReads overlay.old.reads overlay.new.reads) }
    ensures other { IfErr result (λ fault. fault ≢ AskFault.OutOfMemory) }
    ensures seen { IsSeen overlay.old overlay.new (length traces.now) }
{
    let mut numbers = numbers;
    for p in traces {
        let there = push_row(overlay, *p, places, &mut numbers)?;
        if !there {
            return Err(AskFault::NoPlace);
        }
    }
    Ok(numbers)
}

// Why the table of traces a to b is refused where there is no room for it: E03 comes before E11.
fn without_memory(
    overlay: &mut Overlay<PackedRecord>,
    map: &FieldMap,
    a: u32,
    b: u32,
    fields: &[Field],
) -> Result<AskFault, ReadFault>
    requires first { 1 ≤ a }
    requires range { a ≤ b }
    requires last { b ≤ count_of overlay.old.volume }
    ensures fault { IfOk result (λ fault. HaveAgreed overlay.new.reads → (places : List Place) →
        each_of (place_in_trace map.now.pairs) fields.now ≡ Some places →
        fault ≡ fault_of (table_of overlay.old.volume places a b)) }
    ensures seen { IsSeen overlay.old overlay.new (b + 1 - a) }
    ensures read { IfErr result (λ _. IsTrue overlay.old.loaded.on_disk) }
    ensures reads_tell { IfErr result (IsFaultOfLook overlay.old.reads overlay.new.reads) }
    ensures rule { (old new : Reads) → IfOk result (IsFaultOfReads old new) }
{
    for k in 0..b - a + 1 {
        let there = has_row(overlay, map, a + k, fields)?;
        if !there {
            return Ok(AskFault::NoPlace);
        }
    }
    Ok(AskFault::OutOfMemory)
}
