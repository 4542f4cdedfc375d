// The exchanges of traces that put them in the order of their numbers.
ghost use Rattle.std.specs.Prelude.{◌≡◌, ℕ, ◌+◌, ◌-◌, ◌<◌, ◌≤◌, ◌^◌, ◌⊎◌, length, All, IfOk, IfErr, IsErrOf};
ghost use Rattle.room.specs.Refusals.{Rises};
ghost use Rattle.frame_cut.specs.Traces.{count_of};
ghost use Rattle.edit_overlay.specs.CountedVolume.{IsSeen};
ghost use Rattle.edit_overlay.specs.Reads.{HaveAgreed};
ghost use Rattle.bench_rules.specs.declared.refusal.Refusal.TheVariants.{OutOfMemory as no_memory};
ghost use Rattle.bench_rules.specs.Looks.{looks_at};
ghost use Rattle.bench_rules.specs.ManyTraces.{each_of};
ghost use Rattle.bench_rules.specs.Places.{place_in_trace};
ghost use Rattle.bench_rules.specs.ReadFaults.{IsReadRefusal, IsRefusalOfReads};
ghost use Rattle.bench_rules.specs.Refused.{sort_refusal};
ghost use Rattle.trace_store.specs.Swapped.{ArePlaces};
ghost use Rattle.many_traces.specs.Arranged.{PutsRows, Sorts};
ghost use Rattle.bench_rules.specs.RangeFaults.{refusal_for as refusal_for_fault};
ghost use Rattle.many_traces.specs.Formulas.{IsRefusalFor};

use crate::sorting::rows_in_order;
use crate::standing::exchanges;
use crate::tables::table;
use bench_rules::{AskFault, Field, Refusal, Table};
use edit_overlay::Overlay;
use field_map::FieldMap;
use room::Room;
use trace_record::PackedRecord;

/// The pairs of traces that put traces a to b in the order of the numbers of these fields, where
/// the traces of each pair come in the place of one another, one pair after the other. The numbers
/// of a field fall where the item of `falling` at its place is true. Looks at each of the traces
/// once at most, and at none where a field has no place. Takes memory for the numbers and for the
/// order. Refused, in this order: E02, E03 where one of the traces lacks a place; else E11 alone.
/// On disk also where a trace could not be read (E14, E15).
pub fn exchanges_to_sort(
    room: &mut Room,
    overlay: &mut Overlay<PackedRecord>,
    map: &FieldMap,
    a: u32,
    b: u32,
    fields: &[Field],
    falling: &[bool],
) -> Result<Vec<(u32, u32)>, Refusal>
    requires first { 1 ≤ a }
    requires range { a ≤ b }
    requires last { b ≤ count_of overlay.old.volume }
    ensures ok { IfOk result (λ pairs. HaveAgreed overlay.new.reads → Sorts overlay.old.volume
        (each_of (place_in_trace map.now.pairs) fields.now) falling.now a b pairs.items) }
    ensures places { IfOk result (λ pairs. ArePlaces (count_of overlay.old.volume) pairs.items) }
    ensures err { IfErr result (λ refusal. (IsReadRefusal overlay.old.loaded.on_disk refusal
        × (0 < looks_at (each_of (place_in_trace map.now.pairs) fields.now) (b + 1 - a))) ⊎
        (HaveAgreed overlay.new.reads → IsRefusalFor refusal (sort_refusal overlay.old.volume a b
        (each_of (place_in_trace map.now.pairs) fields.now)))) }
    ensures reads_tell { IfErr result (IsRefusalOfReads overlay.old.reads overlay.new.reads) }
    ensures seen { IsSeen overlay.old overlay.new
        (looks_at (each_of (place_in_trace map.now.pairs) fields.now) (b + 1 - a)) }
    ensures memory { Rises (IsErrOf result Refusal.OutOfMemory) room.old room.new }
{
    match table(room, overlay, map, a, b, fields) {
        Ok(table) => exchanges_of(room, a, &table, falling),
        Err(fault) => Err(refusal_for(fault)),
    }
}

/// The refusal of an edit where a query for the same numbers has this fault: a sort without its
/// table, or an edit whose traces are not chosen. Takes no memory.
pub fn refusal_for(fault: AskFault) -> Refusal
    ensures { result ≡ refusal_for_fault fault }
{
    match fault {
        AskFault::NoField => Refusal::NoField,
        AskFault::NoPlace => Refusal::NoPlace,
        AskFault::NoValues => Refusal::NoValues,
        AskFault::ReadFailed => Refusal::ReadFailed,
        AskFault::FileChanged => Refusal::FileChanged,
        AskFault::NoTrace(p, count) => Refusal::NoTrace(p, count),
        AskFault::NoSample(k, count) => Refusal::NoSample(k, count),
        AskFault::OutOfMemory => Refusal::OutOfMemory,
    }
}

// The pairs of traces that put those of the table's rows, which are of one length, in order.
fn exchanges_of(
    room: &mut Room,
    first: u32,
    table: &Table,
    falling: &[bool],
) -> Result<Vec<(u32, u32)>, Refusal>
    requires wide { (width : ℕ) × All (λ row. length row.1 ≡ width) table.now }
    requires first { 1 ≤ first }
    requires last { first + length table.now ≤ 2 ^ 32 }
    ensures ok { IfOk result (λ pairs. PutsRows first table.now falling.now pairs.items) }
    ensures err { IfErr result (λ refusal. refusal ≡ no_memory) }
    ensures memory { Rises (IsErrOf result Refusal.OutOfMemory) room.old room.new }
{
    let rows = rows_in_order(room, table, falling)?;
    Ok(exchanges(room, first, rows.as_slice())?)
}
