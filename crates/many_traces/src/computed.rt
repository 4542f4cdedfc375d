// A number computed for each of many traces.
ghost use Rattle.std.specs.Prelude.{◌≡◌, ◌+◌, ◌-◌, ◌*◌, ◌<◌, ◌≤◌, ℕ, [], ◌++◌, ◌⊎◌, None, Some, Ok, IsTrue, IfOk, IfErr, OnOk, List, length, IsErrOf, ◌≢◌, IfSome};
ghost use Rattle.std.specs.Vec.{vec_len, vec_capacity};
ghost use Rattle.room.specs.Refusals.{Rises};
ghost use Rattle.num_order.specs.Number.{IsSize, InRange, bytes as bytes_of_number};
ghost use Rattle.frame_cut.specs.Traces.{count_of, is_trace, trace_at};
ghost use Rattle.edit_overlay.specs.CountedVolume.{IsSeen};
ghost use Rattle.edit_overlay.specs.Reads.{HaveAgreed, IsFaultOfLook};
ghost use Rattle.bench_rules.specs.declared.operator.Operator.{Operator};
ghost use Rattle.bench_rules.specs.declared.term.Term.{Term};
ghost use Rattle.bench_rules.specs.Computed.{compute_refusal, compute_refusal_in, computed_in, steps_of};
ghost use Rattle.bench_rules.specs.Looks.{looks_at};
ghost use Rattle.bench_rules.specs.ReadFaults.{IsReadRefusal, IsRefusalOfNoRead, IsRefusalOfReads};
ghost use Rattle.many_traces.specs.Fields.{HoldsPlace};
ghost use Rattle.many_traces.specs.Formulas.{formula_at, number_bytes, IsRefusalFor};

use crate::formula::{computed_by_names, have_terms, terms_of};
use bench_rules::{Operand, Operator, Refusal, Term, admitted, computed_in, term_of};
use edit_overlay::{Overlay, ReadFault};
use field_map::{FieldMap, Place};
use num_order::{Kind, Order, write};
use room::Room;
use trace_record::PackedRecord;

/// The bytes of the numbers that are computed for traces a to b over this place, one after another:
/// of those of the place, or the first refusal of a set of them. Looks at each of the traces once
/// at most, and at none where a field has no place. Takes memory for the places of the steps and
/// for the bytes, before the first look. Refused, in this order: E02, then the first refusal of the
/// lowest trace that has one, E03, E13, E04 or E06; else E11 alone. On disk also where a trace
/// could not be read (E14, E15).
pub fn computed_bytes(
    room: &mut Room,
    overlay: &mut Overlay<PackedRecord>,
    map: &FieldMap,
    a: u32,
    b: u32,
    place: Place,
    source: &Operand,
    steps: &[(Operator, Operand)],
) -> Result<Vec<u8>, Refusal>
    requires first { 1 ≤ a }
    requires range { a ≤ b }
    requires last { b ≤ count_of overlay.old.volume }
    ensures none { OnOk result (HaveAgreed overlay.new.reads → compute_refusal_in overlay.old.volume
        (formula_at map.now.pairs place source.now steps.now) a b ≡ None) }
    ensures bytes { IfOk result (λ bytes. HaveAgreed overlay.new.reads → bytes.items ≡ number_bytes
        overlay.old.volume (formula_at map.now.pairs place source.now steps.now) a b) }
    ensures count { IfOk result (λ bytes. length bytes.items ≡ place.kind.size * (b + 1 - a)) }
    ensures each { OnOk result ((k : ℕ) → k < b + 1 - a →
        HoldsPlace (trace_at overlay.old.volume (a + k)) place) }
    ensures looked { OnOk result (0 < looks_at
        (formula_at map.now.pairs place source.now steps.now) (b + 1 - a)) }
    ensures err { IfErr result (λ refusal. (IsReadRefusal overlay.old.loaded.on_disk refusal
        × (0 < looks_at (formula_at map.now.pairs place source.now steps.now) (b + 1 - a))) ⊎
        (HaveAgreed overlay.new.reads → IsRefusalFor refusal (compute_refusal_in overlay.old.volume
        (formula_at map.now.pairs place source.now steps.now) a b))) }
    ensures reads_tell { IfErr result (IsRefusalOfReads overlay.old.reads overlay.new.reads) }
    ensures seen { IsSeen overlay.old overlay.new
        (looks_at (formula_at map.now.pairs place source.now steps.now) (b + 1 - a)) }
    ensures memory { Rises (IsErrOf result Refusal.OutOfMemory) room.old room.new }
{
    let Some(source) = term_of(map, source) else {
        return Err(Refusal::NoField);
    };
    if !have_terms(map, steps) {
        return Err(Refusal::NoField);
    }
    // Where there is no memory, the traces are judged all the same: E11 comes behind all else.
    let Some(terms) = terms_of(room, map, steps) else {
        return Err(without_memory(overlay, map, a, b, place, source, steps)?);
    };
    let size = usize::from(place.kind.size) * (b - a + 1) as usize;
    match room.told(Vec::with_capacity(room.alloc(), size)) {
        Ok(bytes) => filled(overlay, a, b, place, source, terms.as_slice(), bytes),
        Err(_) => Err(without_memory(overlay, map, a, b, place, source, steps)?),
    }
}

// The bytes of the numbers of traces a to b, in this list, which has place for them, or the first
// refusal.
fn filled(
    overlay: &mut Overlay<PackedRecord>,
    a: u32,
    b: u32,
    place: Place,
    source: Term,
    steps: &[(Operator, Term)],
    bytes: Vec<u8>,
) -> Result<Vec<u8>, Refusal>
    requires first { 1 ≤ a }
    requires range { a ≤ b }
    requires last { b ≤ count_of overlay.old.volume }
    requires empty { bytes.items ≡ [] }
    requires room { place.kind.size * (b + 1 - a) ≤ vec_capacity bytes }
    ensures none { OnOk result (HaveAgreed overlay.new.reads → compute_refusal_in overlay.old.volume
        (Some (record { place = place; source = source; steps = steps.now })) a b ≡ None) }
    ensures bytes { IfOk result (λ bytes. HaveAgreed overlay.new.reads → bytes.items ≡ number_bytes
        overlay.old.volume (Some (record {
          place = place;
          source = source;
          steps = steps.now;
        })) a b) }
    ensures count { IfOk result (λ bytes. length bytes.items ≡ place.kind.size * (b + 1 - a)) }
    ensures each { OnOk result ((k : ℕ) → k < b + 1 - a →
        HoldsPlace (trace_at overlay.old.volume (a + k)) place) }
    ensures err { IfErr result (λ refusal. IsReadRefusal overlay.old.loaded.on_disk refusal ⊎
        (HaveAgreed overlay.new.reads → compute_refusal_in overlay.old.volume
        (Some (record { place = place; source = source; steps = steps.now })) a b
        ≡ Some refusal)) }
    ensures reads_tell { IfErr result (IsRefusalOfReads overlay.old.reads overlay.new.reads) }
    ensures other { IfErr result (λ refusal. refusal ≢ Refusal.OutOfMemory) }
    ensures seen { IsSeen overlay.old overlay.new (b + 1 - a) }
{
    let order = overlay.head().order;
    let mut bytes = bytes;
    for k in 0..b - a + 1 {
        match number_at(overlay, a + k, place, source, steps) {
            Ok(number) => push_number(&mut bytes, order, place.kind, number),
            Err(refusal) => return Err(refusal),
        }
    }
    Ok(bytes)
}

// The number that is computed for trace p, or its first refusal, in one look.
fn number_at(
    overlay: &mut Overlay<PackedRecord>,
    p: u32,
    place: Place,
    source: Term,
    steps: &[(Operator, Term)],
) -> Result<i128, Refusal>
    requires { IsTrue (is_trace overlay.old.volume p) }
    ensures none { OnOk result (HaveAgreed overlay.new.reads → compute_refusal overlay.old.volume
        (record { place = place; source = source; steps = steps.now }) p ≡ None) }
    ensures number { IfOk result (λ x. HaveAgreed overlay.new.reads → computed_in
        overlay.old.volume.head (record { place = place; source = source; steps = steps.now }) p
        (trace_at overlay.old.volume p) ≡ Ok x) }
    ensures fits { IfOk result (InRange place.kind) }
    ensures place { OnOk result (HoldsPlace (trace_at overlay.old.volume p) place) }
    ensures err { IfErr result (λ refusal. IsReadRefusal overlay.old.loaded.on_disk refusal ⊎
        (HaveAgreed overlay.new.reads → compute_refusal overlay.old.volume
        (record { place = place; source = source; steps = steps.now }) p ≡ Some refusal)) }
    ensures reads_tell { IfErr result (IsRefusalOfReads overlay.old.reads overlay.new.reads) }
    ensures other { IfErr result (λ refusal. refusal ≢ Refusal.OutOfMemory) }
    ensures seen { IsSeen overlay.old overlay.new 1 }
{
    let order = overlay.head().order;
    let Some(trace) = overlay.look(p)? else {
        unreachable!()
    };
    let number = computed_in(&trace, p, place, source, steps);
    admitted(order, &trace, place, number)
}

// Puts the bytes of a number behind others, for which there is room.
fn push_number(bytes: &mut Vec<u8>, order: Order, kind: Kind, number: i128)
    requires size { IsSize kind.size }
    requires fits { InRange kind number }
    requires room { vec_len bytes.old + kind.size ≤ vec_capacity bytes.old }
    ensures bytes { bytes.new.items ≡ bytes.old.items ++ bytes_of_number order kind number }
    ensures count { vec_len bytes.new ≡ vec_len bytes.old + kind.size }
    ensures room { vec_capacity bytes.old ≤ vec_capacity bytes.new }
{
    let mut buffer = [0u8; 8];
    let new = &mut buffer[..usize::from(kind.size)];
    write(order, kind, number, new);
    let Ok(()) = bytes.extend_from_slice(new) else {
        unreachable!()
    };
}

// Why there are no bytes where there is no room for them: the first refusal of traces a to b comes
// before E11.
fn without_memory(
    overlay: &mut Overlay<PackedRecord>,
    map: &FieldMap,
    a: u32,
    b: u32,
    place: Place,
    source: Term,
    steps: &[(Operator, Operand)],
) -> Result<Refusal, ReadFault>
    requires first { 1 ≤ a }
    requires range { a ≤ b }
    requires last { b ≤ count_of overlay.old.volume }
    ensures read { IfErr result (λ _. IsTrue overlay.old.loaded.on_disk) }
    ensures reads_tell { IfErr result (IsFaultOfLook overlay.old.reads overlay.new.reads) }
    ensures refusal { IfOk result (λ refusal. HaveAgreed overlay.new.reads →
        (terms : List (Operator × Term)) → steps_of map.now.pairs steps.now ≡ Some terms →
        IsRefusalFor refusal (compute_refusal_in overlay.old.volume
        (Some (record { place = place; source = source; steps = terms })) a b)) }
    ensures rule { IfOk result IsRefusalOfNoRead }
    ensures seen { IsSeen overlay.old overlay.new (b + 1 - a) }
{
    for k in 0..b - a + 1 {
        let first = refusal_by_names(overlay, map, a + k, place, source, steps)?;
        if let Some(refusal) = first {
            return Ok(refusal);
        }
    }
    Ok(Refusal::OutOfMemory)
}

// The first refusal of trace p, where it has one, with the steps' fields found by name, in one
// look.
fn refusal_by_names(
    overlay: &mut Overlay<PackedRecord>,
    map: &FieldMap,
    p: u32,
    place: Place,
    source: Term,
    steps: &[(Operator, Operand)],
) -> Result<Option<Refusal>, ReadFault>
    requires { IsTrue (is_trace overlay.old.volume p) }
    ensures refusal { IfOk result (λ refusal. HaveAgreed overlay.new.reads →
        (terms : List (Operator × Term)) → steps_of map.now.pairs steps.now ≡ Some terms →
        refusal ≡ compute_refusal overlay.old.volume
        (record { place = place; source = source; steps = terms }) p) }
    ensures rule { IfOk result (λ refusal. IfSome refusal IsRefusalOfNoRead) }
    ensures seen { IsSeen overlay.old overlay.new 1 }
    ensures read { IfErr result (λ _. IsTrue overlay.old.loaded.on_disk) }
    ensures reads_tell { IfErr result (IsFaultOfLook overlay.old.reads overlay.new.reads) }
{
    let order = overlay.head().order;
    let Some(trace) = overlay.look(p)? else {
        unreachable!()
    };
    let number = computed_by_names(&trace, map, p, place, source, steps);
    match admitted(order, &trace, place, number) {
        Ok(_) => Ok(None),
        Err(refusal) => Ok(Some(refusal)),
    }
}
