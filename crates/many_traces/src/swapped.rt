// The bytes of many traces with two numbers of each in the place of one another.
ghost use Rattle.std.specs.Prelude.{◌≡◌, ◌⊎◌, ◌+◌, ◌-◌, ◌*◌, ◌<◌, ◌≤◌, ◌^◌, length, None, Some, IsTrue, IfOk, IfErr, OnOk, IsErrOf, ◌≢◌, IfSome};
ghost use Rattle.room.specs.Refusals.{Rises};
ghost use Rattle.num_order.specs.Number.{IsSize, InRange, bytes as bytes_of_number};
ghost use Rattle.field_map.specs.Places.{offset_of};
ghost use Rattle.frame_cut.specs.Splice.{splice};
ghost use Rattle.frame_cut.specs.Traces.{count_of, is_trace, trace_at};
ghost use Rattle.trace_view.specs.Shown.{bytes_of, head_of};
ghost use Rattle.edit_overlay.specs.CountedVolume.{IsSeen};
ghost use Rattle.edit_overlay.specs.Reads.{HaveAgreed, IsFaultOfLook};
ghost use Rattle.bench_rules.specs.declared.refusal.Refusal.TheVariants.{OutOfMemory as no_memory};
ghost use Rattle.bench_rules.specs.Computed.{first_at};
ghost use Rattle.bench_rules.specs.Conditions.{AreRising};
ghost use Rattle.bench_rules.specs.ReadFaults.{IsReadRefusal, IsRefusalOfNoRead, IsRefusalOfReads};
ghost use Rattle.bench_rules.specs.SwappedFields.{swap_refusal, swapped};
ghost use Rattle.many_traces.specs.Spans.{span_size, span_start, AreSwapped, HasSpan, HaveSpan};

use bench_rules::{Refusal, set_refusal, zeros};
use edit_overlay::{Overlay, ReadFault};
use field_map::{Place, TRACE_HEADER_BYTES};
use num_order::{Order, fits, write};
use room::Room;
use trace_record::PackedRecord;
use trace_view::TraceView;

/// Where two places lie together in a trace: where the first of them begins, counted from 0, and
/// how many bytes there are from there up to the end of the last. Takes no memory.
pub fn span(first: Place, second: Place) -> (u32, u32)
    ensures start { result.0 ≡ span_start (first, second) }
    ensures size { result.1 ≡ span_size (first, second) }
    ensures small { result.1 < 2 ^ 24 }
{
    let start = begin(first).min(begin(second));
    let end = (begin(first) + u32::from(first.kind.size)).max(
        begin(second) + u32::from(second.kind.size),
    );
    (start, end - start)
}

// Where the place begins, counted from 0; also of a place that no trace has.
fn begin(place: Place) -> u32
    ensures place { result ≡ offset_of place }
    ensures small { result < 2 ^ 24 - 256 }
{
    (TRACE_HEADER_BYTES as u32 * u32::from(place.extension) + u32::from(place.byte)).saturating_sub(
        1,
    )
}

/// For each of these traces the bytes that it has where the two places lie together (`span`), once
/// its two numbers are in the place of one another: of all traces, one after another; or the first
/// refusal. Looks once at each of the traces at most. Takes memory for the bytes, before the first
/// look. Refused with the first refusal of the lowest trace that has one, E03, E04 or E06; E11 may
/// come in the place of each. On disk also where a trace could not be read (E14, E15).
pub fn swapped_bytes(
    room: &mut Room,
    overlay: &mut Overlay<PackedRecord>,
    traces: &[u32],
    first: Place,
    second: Place,
) -> Result<Vec<u8>, Refusal>
    requires rising { AreRising 1 (count_of overlay.old.volume) traces.now }
    ensures none { OnOk result (HaveAgreed overlay.new.reads → first_at
        (λ p. swap_refusal overlay.old.volume.head (first, second)
        (trace_at overlay.old.volume p)) traces.now ≡ None) }
    ensures parts { IfOk result (λ bytes. HaveAgreed overlay.new.reads →
        AreSwapped overlay.old.volume (first, second) traces.now bytes.items) }
    ensures count { IfOk result (λ bytes.
        length bytes.items ≡ length traces.now * span_size (first, second)) }
    ensures inside { OnOk result (HaveSpan overlay.old.volume (first, second) traces.now) }
    ensures err { IfErr result (λ refusal. (refusal ≡ no_memory) ⊎
        IsReadRefusal overlay.old.loaded.on_disk refusal ⊎ (HaveAgreed overlay.new.reads → first_at
        (λ p. swap_refusal overlay.old.volume.head (first, second)
        (trace_at overlay.old.volume p)) traces.now ≡ Some refusal)) }
    ensures reads_tell { IfErr result (IsRefusalOfReads overlay.old.reads overlay.new.reads) }
    ensures seen { IsSeen overlay.old overlay.new (length traces.now) }
    ensures memory { Rises (IsErrOf result Refusal.OutOfMemory) room.old room.new }
{
    // Read for the proof alone, which learns that the traces are counted in 32 bits.
    let _count = overlay.count();
    let (at, size) = span(first, second);
    let mut held = zeros(room, size as usize)?;
    let part = held.as_mut_slice();
    let mut bytes = room.told(Vec::with_capacity(room.alloc(), traces.len() * size as usize))?;
    for k in 0..traces.len() {
        match swap_at(overlay, traces[k], first, second, at, part)? {
            Some(refusal) => return Err(refusal),
            None => room.told(bytes.extend_from_slice(part))?,
        }
    }
    Ok(bytes)
}

// The same of trace p, over bytes that there are already: what is refused, where it is.
fn swap_at(
    overlay: &mut Overlay<PackedRecord>,
    p: u32,
    first: Place,
    second: Place,
    at: u32,
    part: &mut [u8],
) -> Result<Option<Refusal>, ReadFault>
    requires trace { IsTrue (is_trace overlay.old.volume p) }
    requires start { at ≡ span_start (first, second) }
    requires size { length part.old ≡ span_size (first, second) }
    ensures refusal { IfOk result (λ refusal. HaveAgreed overlay.new.reads → refusal ≡ swap_refusal
        overlay.old.volume.head (first, second) (trace_at overlay.old.volume p)) }
    ensures part { IfOk result (λ refusal. HaveAgreed overlay.new.reads → refusal ≡ None →
        splice (trace_at overlay.old.volume p) (span_start (first, second))
        (span_size (first, second)) part.new
        ≡ swapped overlay.old.volume.head (first, second) (trace_at overlay.old.volume p)) }
    ensures other { IfOk result (λ refusal. IfSome refusal (λ r. r ≢ Refusal.OutOfMemory)) }
    ensures rule { IfOk result (λ refusal. IfSome refusal IsRefusalOfNoRead) }
    ensures inside { IfOk result (λ refusal. refusal ≡ None →
        HasSpan (first, second) (trace_at overlay.old.volume p)) }
    ensures seen { IsSeen overlay.old overlay.new 1 }
    ensures read { IfErr result (λ _. IsTrue overlay.old.loaded.on_disk) }
    ensures reads_tell { IfErr result (IsFaultOfLook overlay.old.reads overlay.new.reads) }
{
    let order = overlay.head().order;
    let Some(trace) = overlay.look(p)? else {
        unreachable!()
    };
    Ok(swap_in(&trace, order, first, second, at, part))
}

// The same of a trace that is shown.
fn swap_in(
    trace: &TraceView<'_>,
    order: Order,
    first: Place,
    second: Place,
    at: u32,
    part: &mut [u8],
) -> Option<Refusal>
    requires order { order ≡ (head_of trace.now).order }
    requires start { at ≡ span_start (first, second) }
    requires size { length part.old ≡ span_size (first, second) }
    ensures refusal { result ≡ swap_refusal (head_of trace.now) (first, second)
        (bytes_of trace.now) }
    ensures part { result ≡ None → splice (bytes_of trace.now) (span_start (first, second))
        (span_size (first, second)) part.new
        ≡ swapped (head_of trace.now) (first, second) (bytes_of trace.now) }
    ensures inside { result ≡ None → HasSpan (first, second) (bytes_of trace.now) }
{
    let Some(number) = trace.value(first) else {
        return Some(Refusal::NoPlace);
    };
    let Some(other) = trace.value(second) else {
        return Some(Refusal::NoPlace);
    };
    if let Some(refusal) = set_refusal(order, trace, first, other) {
        return Some(refusal);
    }
    if !fits(second.kind, number) {
        return Some(Refusal::DoesNotFit);
    }
    trace.read(u64::from(at), part);
    put_number(order, first, other, at, part);
    put_number(order, second, number, at, part);
    if trace.changed_length(u64::from(at), part) != Some(trace.length()) {
        return Some(Refusal::Frame);
    }
    None
}

// Writes the number over its place, among bytes that begin at place `at` of the trace.
fn put_number(order: Order, place: Place, number: i128, at: u32, bytes: &mut [u8])
    requires first { 0 < place.byte }
    requires size { IsSize place.kind.size }
    requires fits { InRange place.kind number }
    requires from { at ≤ offset_of place }
    requires inside { offset_of place - at + place.kind.size ≤ length bytes.old }
    ensures { bytes.new ≡ splice bytes.old (offset_of place - at) place.kind.size
        (bytes_of_number order place.kind number) }
{
    let from = (place.offset() - at) as usize;
    let to = from + usize::from(place.kind.size);
    write(order, place.kind, number, &mut bytes[from..to]);
}
