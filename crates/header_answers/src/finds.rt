// The traces whose header field has a number between two bounds.
ghost use Rattle.std.specs.Prelude.{◌≡◌, ◌+◌, ◌-◌, ◌<◌, ◌≤◌, [], ◌∷◌, ◌++◌, ◌⊎◌, None, Some, IsTrue, IfOk, IfErr, length, if◌then◌else◌, IsErrOf, IsFalse};
ghost use Rattle.room.specs.Refusals.{Rises};
ghost use Rattle.frame_cut.specs.Traces.{count_of, is_trace, trace_at};
ghost use Rattle.trace_view.specs.Values.{value_of};
ghost use Rattle.edit_overlay.specs.CountedVolume.{IsSeen};
ghost use Rattle.edit_overlay.specs.Reads.{Reads, HaveAgreed, IsFaultOfLook};
ghost use Rattle.bench_rules.specs.declared.ask_fault.AskFault.TheVariants.{NoPlace as no_place, OutOfMemory as no_memory};
ghost use Rattle.bench_rules.specs.ChosenQueries.{found_of_each};
ghost use Rattle.bench_rules.specs.Conditions.{AreRising};
ghost use Rattle.bench_rules.specs.ReadFaults.{IsFaultOfReads, IsReadFault};
ghost use Rattle.bench_rules.specs.Tables.{column_of, found_of, is_between};
ghost use Rattle.bench_rules.specs.RangeFaults.{fault_of};

use bench_rules::{AskFault, Items};
use edit_overlay::{Overlay, ReadFault};
use field_map::Place;
use room::Room;
use trace_record::PackedRecord;

/// Those of traces a to b whose number at the place is from low to high, each with it. Looks at
/// each of them once at most. Refused: E03 where one of them lacks the place, else E11 alone. On
/// disk also where a trace could not be read (E14, E15).
pub fn find(
    room: &mut Room,
    overlay: &mut Overlay<PackedRecord>,
    a: u32,
    b: u32,
    place: Place,
    low: i128,
    high: i128,
) -> Result<Items<(u32, i128)>, AskFault>
    requires first { 1 ≤ a }
    requires range { a ≤ b }
    requires last { b ≤ count_of overlay.old.volume }
    ensures ok { IfOk result (λ found. HaveAgreed overlay.new.reads →
        found_of overlay.old.volume place low high a b ≡ Some found) }
    ensures err { IfErr result (λ fault. IsReadFault overlay.old.loaded.on_disk fault ⊎
        (HaveAgreed overlay.new.reads → fault ≡ fault_of
        (found_of overlay.old.volume place low high a b))) }
    ensures reads_tell { IfErr result (IsFaultOfReads overlay.old.reads overlay.new.reads) }
    ensures seen { IsSeen overlay.old overlay.new (b + 1 - a) }
    ensures memory { Rises (IsErrOf result AskFault.OutOfMemory) room.old room.new }
{
    let mut found = Vec::new(room.alloc());
    for k in 0..b - a + 1 {
        let here = number_at(overlay, a + k, place)?;
        let Some(number) = here else {
            return Err(AskFault::NoPlace);
        };
        if !keep(room, &mut found, a + k, number, low, high) {
            return Err(without_memory(overlay, a + k, b, place)?);
        }
    }
    Ok(Items::new(found))
}

/// Those of these traces, which rise, whose number at the place is from low to high, each with it.
/// Looks at each of them once at most. Refused: E03 where one of them lacks the place; E11 may come
/// in its place. On disk also where a trace could not be read (E14, E15).
pub fn found_among(
    room: &mut Room,
    overlay: &mut Overlay<PackedRecord>,
    place: Place,
    low: i128,
    high: i128,
    traces: &[u32],
) -> Result<Items<(u32, i128)>, AskFault>
    requires { AreRising 1 (count_of overlay.old.volume) traces.now }
    ensures ok { IfOk result (λ found. HaveAgreed overlay.new.reads →
        found_of_each overlay.old.volume place low high traces.now ≡ Some found) }
    ensures err { IfErr result (λ fault. (fault ≡ no_memory) ⊎
        (IsReadFault overlay.old.loaded.on_disk fault × (0 < length traces.now)) ⊎
        ((fault ≡ no_place) × (HaveAgreed overlay.new.reads →
        found_of_each overlay.old.volume place low high traces.now ≡ None))) }
    ensures reads_tell { IfErr result (IsFaultOfReads overlay.old.reads overlay.new.reads) }
    ensures seen { IsSeen overlay.old overlay.new (length traces.now) }
    ensures memory { Rises (IsErrOf result AskFault.OutOfMemory) room.old room.new }
{
    let mut found = Vec::new(room.alloc());
    for p in traces {
        let here = number_at(overlay, *p, place)?;
        let Some(number) = here else {
            return Err(AskFault::NoPlace);
        };
        if !keep(room, &mut found, *p, number, low, high) {
            return Err(AskFault::OutOfMemory);
        }
    }
    Ok(Items::new(found))
}

// Puts the trace with its number behind those that were found, where it is from low to high; false
// where there is no room for it.
fn keep(
    room: &mut Room,
    found: &mut Vec<(u32, i128)>,
    p: u32,
    number: i128,
    low: i128,
    high: i128,
) -> bool
    ensures kept { IsTrue result → found.new.items ≡ (if is_between low high number
        then found.old.items ++ (p, number) ∷ [] else found.old.items) }
    ensures memory { Rises (IsFalse result) room.old room.new }
{
    number < low || number > high || room.told_back(found.push((p, number))).is_ok()
}

// The number at the place of trace p, in one look.
fn number_at(
    overlay: &mut Overlay<PackedRecord>,
    p: u32,
    place: Place,
) -> Result<Option<i128>, ReadFault>
    requires { IsTrue (is_trace overlay.old.volume p) }
    ensures number { IfOk result (λ number. HaveAgreed overlay.new.reads → number ≡ value_of
        overlay.old.volume.head (trace_at overlay.old.volume p) place) }
    ensures seen { IsSeen overlay.old overlay.new 1 }
    ensures read { IfErr result (λ _. IsTrue overlay.old.loaded.on_disk) }
    ensures reads_tell { IfErr result (IsFaultOfLook overlay.old.reads overlay.new.reads) }
{
    let Some(trace) = overlay.look(p)? else {
        unreachable!()
    };
    Ok(trace.value(place))
}

// Why nothing is found where there is no room for trace p: E03, where a trace behind it up to trace
// b lacks the place, comes before E11.
fn without_memory(
    overlay: &mut Overlay<PackedRecord>,
    p: u32,
    b: u32,
    place: Place,
) -> Result<AskFault, ReadFault>
    requires range { p ≤ b }
    requires last { b ≤ count_of overlay.old.volume }
    ensures fault { IfOk result (λ fault. HaveAgreed overlay.new.reads →
        fault ≡ fault_of (column_of overlay.old.volume place (p + 1) b)) }
    ensures rule { (old new : Reads) → IfOk result (IsFaultOfReads old new) }
    ensures seen { IsSeen overlay.old overlay.new (b - p) }
    ensures read { IfErr result (λ _. IsTrue overlay.old.loaded.on_disk) }
    ensures reads_tell { IfErr result (IsFaultOfLook overlay.old.reads overlay.new.reads) }
{
    for k in 0..b - p {
        let number = number_at(overlay, p + 1 + k, place)?;
        if number.is_none() {
            return Ok(AskFault::NoPlace);
        }
    }
    Ok(AskFault::OutOfMemory)
}
