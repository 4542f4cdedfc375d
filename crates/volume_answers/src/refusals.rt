// The first refusals of edits of one trace, but for want of memory.
ghost use Rattle.std.specs.Prelude.{◌≡◌, ◌+◌, ◌*◌, ◌⊎◌, Some, None, IsTrue, IfOk, IfErr, OnOk, ◌≢◌, IfSome};
ghost use Rattle.sample_codes.specs.Formats.{width};
ghost use Rattle.frame_cut.specs.Traces.{is_trace, trace_at};
ghost use Rattle.trace_view.specs.Values.{samples_at};
ghost use Rattle.edit_overlay.specs.CountedVolume.{IsSeen};
ghost use Rattle.edit_overlay.specs.Reads.{HaveAgreed, IsFaultOfLook};
ghost use Rattle.bench_rules.specs.declared.edit.Edit.TheVariants as edits;
ghost use Rattle.bench_rules.specs.declared.field.Field.TheVariants as fields;
ghost use Rattle.bench_rules.specs.Looks.{trace_looks};
ghost use Rattle.bench_rules.specs.ReadFaults.{IsRefusalOfNoRead, IsReadRefusal, IsRefusalOfReads};
ghost use Rattle.bench_rules.specs.Refused.{first_refusal, no_trace as no_trace_in, no_place_for_trace as no_place_in, room_refusal as no_room_in, insert_refusal as not_in};
ghost use Rattle.bench_rules.specs.State.{State};
ghost use Rattle.volume_answers.specs.Rooms.{HasRoom, HasSampleRoom};

use bench_rules::{Refusal, blank_length, has_trace, patch_refusal, sample_place, set_refusal};
use edit_overlay::{Overlay, ReadFault};
use field_map::Place;
use frame_cut::Limits;
use trace_record::PackedRecord;

/// The first refusal of the value at the place of trace p: E01, E03, E04, E06. One look at most.
/// Takes no memory. On disk there may be none, where the trace could not be read.
pub fn value_refusal(
    overlay: &mut Overlay<PackedRecord>,
    p: u32,
    place: Place,
    value: i128,
) -> Result<Option<Refusal>, ReadFault>
    ensures refusal { IfOk result (λ refusal. (s : State) → s.volume ≡ overlay.old.volume →
        HaveAgreed overlay.new.reads →
        refusal ≡ first_refusal s (edits.Set p (fields.Place place) value)) }
    ensures room { IfOk result (λ refusal. refusal ≡ None →
        HasRoom overlay.old.volume p place value) }
    ensures seen { IsSeen overlay.old overlay.new (trace_looks overlay.old.volume p 1) }
    ensures reads_tell { IfErr result (IsFaultOfLook overlay.old.reads overlay.new.reads) }
    ensures read { IfErr result (λ _. IsTrue (is_trace overlay.old.volume p)
        × IsTrue overlay.old.loaded.on_disk) }
    ensures other { IfOk result (λ refusal. IfSome refusal (λ r. r ≢ Refusal.OutOfMemory)) }
    ensures rule { IfOk result (λ refusal. IfSome refusal IsRefusalOfNoRead) }
{
    let head = overlay.head();
    let Some(trace) = overlay.look(p)? else {
        return Ok(Some(Refusal::NoTrace(p, overlay.count())));
    };
    Ok(set_refusal(head.order, &trace, place, value))
}

/// Where sample k of trace p begins in it, or the first refusal of values from there on: E01, E12,
/// E04, E05. One look at most. Takes no memory. On disk also refused where the trace could not be
/// read (E14, E15).
pub fn patch_place(
    overlay: &mut Overlay<PackedRecord>,
    p: u32,
    k: u32,
    values: &[i128],
) -> Result<u64, Refusal>
    ensures ok { OnOk result ((s : State) → s.volume ≡ overlay.old.volume →
        HaveAgreed overlay.new.reads → first_refusal s (edits.Patch p k values.now) ≡ None) }
    ensures place { IfOk result (λ at. HaveAgreed overlay.new.reads → at ≡ samples_at
        overlay.old.volume.head (trace_at overlay.old.volume p)
        + width overlay.old.volume.head.format * k) }
    ensures room { IfOk result (λ at. HasSampleRoom overlay.old.volume p at values.now) }
    ensures err { IfErr result (λ refusal. (IsTrue (is_trace overlay.old.volume p) ×
        IsReadRefusal overlay.old.loaded.on_disk refusal) ⊎
        ((s : State) → s.volume ≡ overlay.old.volume → HaveAgreed overlay.new.reads →
        first_refusal s (edits.Patch p k values.now) ≡ Some refusal)) }
    ensures reads_tell { IfErr result (IsRefusalOfReads overlay.old.reads overlay.new.reads) }
    ensures there { OnOk result (IsTrue (is_trace overlay.old.volume p)) }
    ensures seen { IsSeen overlay.old overlay.new (trace_looks overlay.old.volume p 1) }
    ensures other { IfErr result (λ refusal. refusal ≢ Refusal.OutOfMemory) }
{
    let format = overlay.head().format;
    let Some(trace) = overlay.look(p)? else {
        return Err(Refusal::NoTrace(p, overlay.count()));
    };
    match patch_refusal(format, &trace, k, values) {
        Some(refusal) => Err(refusal),
        None => {
            // Read for the proof alone, which learns that samples are counted in 32 bits.
            let _count = trace.sample_count();
            Ok(sample_place(format, &trace, k))
        }
    }
}

/// The first refusal of a blank trace in front of trace p, or behind the last: E01, E09, E10. Takes
/// no memory.
pub fn blank_refusal(overlay: &Overlay<PackedRecord>, limits: Limits, p: u32) -> Option<Refusal>
    ensures refusal { (s : State) → s.volume ≡ overlay.now.volume → s.limits ≡ limits →
        result ≡ first_refusal s (edits.Blank p) }
    ensures other { IfSome result (λ refusal. refusal ≢ Refusal.OutOfMemory) }
    ensures rule { IfSome result IsRefusalOfNoRead }
{
    insert_refusal(overlay, limits, p, blank_length(&overlay.head()))
}

/// The first refusal of a copy of trace q in front of trace p, or behind the last: E01, E09, E10.
/// One look at most. Takes no memory. On disk there may be none, where trace q could not be read.
pub fn copy_refusal(
    overlay: &mut Overlay<PackedRecord>,
    limits: Limits,
    q: u32,
    p: u32,
) -> Result<Option<Refusal>, ReadFault>
    ensures refusal { IfOk result (λ refusal. (s : State) → s.volume ≡ overlay.old.volume →
        s.limits ≡ limits → refusal ≡ first_refusal s (edits.Copy q p)) }
    ensures seen { IsSeen overlay.old overlay.new (trace_looks overlay.old.volume q 1) }
    ensures reads_tell { IfErr result (IsFaultOfLook overlay.old.reads overlay.new.reads) }
    ensures read { IfErr result (λ _. IsTrue (is_trace overlay.old.volume q)
        × IsTrue overlay.old.loaded.on_disk) }
    ensures other { IfOk result (λ refusal. IfSome refusal (λ r. r ≢ Refusal.OutOfMemory)) }
    ensures rule { IfOk result (λ refusal. IfSome refusal IsRefusalOfNoRead) }
{
    let length = match overlay.look(q)? {
        Some(trace) => trace.length(),
        None => return Ok(Some(Refusal::NoTrace(q, overlay.count()))),
    };
    Ok(insert_refusal(overlay, limits, p, length))
}

/// The first refusal of trace a as trace b: E01. Takes no memory.
pub fn move_refusal(overlay: &Overlay<PackedRecord>, a: u32, b: u32) -> Option<Refusal>
    ensures refusal { (s : State) → s.volume ≡ overlay.now.volume →
        result ≡ first_refusal s (edits.Move a b) }
    ensures other { IfSome result (λ refusal. refusal ≢ Refusal.OutOfMemory) }
    ensures rule { IfSome result IsRefusalOfNoRead }
{
    match no_trace(overlay, a) {
        Some(refusal) => Some(refusal),
        None => no_trace(overlay, b),
    }
}

// The first refusal of a trace's number: E01.
fn no_trace(overlay: &Overlay<PackedRecord>, p: u32) -> Option<Refusal>
    ensures refusal { result ≡ no_trace_in overlay.now.volume p }
    ensures other { IfSome result (λ refusal. refusal ≢ Refusal.OutOfMemory) }
    ensures rule { IfSome result IsRefusalOfNoRead }
{
    if has_trace(overlay, p) {
        None
    } else {
        Some(Refusal::NoTrace(p, overlay.count()))
    }
}

// The first refusal of one more trace of so many bytes at place p: E01, E09, E10.
fn insert_refusal(
    overlay: &Overlay<PackedRecord>,
    limits: Limits,
    p: u32,
    length: u64,
) -> Option<Refusal>
    ensures refusal { result ≡ not_in overlay.now.volume limits p length }
    ensures other { IfSome result (λ refusal. refusal ≢ Refusal.OutOfMemory) }
    ensures rule { IfSome result IsRefusalOfNoRead }
{
    match no_place_for_trace(overlay, p) {
        Some(refusal) => Some(refusal),
        None => room_refusal(overlay, limits, length),
    }
}

// The first refusal of a place for a trace, up to one behind the last: E01.
fn no_place_for_trace(overlay: &Overlay<PackedRecord>, p: u32) -> Option<Refusal>
    ensures refusal { result ≡ no_place_in overlay.now.volume p }
    ensures other { IfSome result (λ refusal. refusal ≢ Refusal.OutOfMemory) }
    ensures rule { IfSome result IsRefusalOfNoRead }
{
    let count = overlay.count();
    if p >= 1 && u64::from(p) <= u64::from(count) + 1 {
        None
    } else {
        Some(Refusal::NoTrace(p, count))
    }
}

// The refusal of one more trace of so many bytes: E09, E10.
fn room_refusal(overlay: &Overlay<PackedRecord>, limits: Limits, length: u64) -> Option<Refusal>
    ensures refusal { result ≡ no_room_in overlay.now.volume limits length }
    ensures other { IfSome result (λ refusal. refusal ≢ Refusal.OutOfMemory) }
    ensures rule { IfSome result IsRefusalOfNoRead }
{
    if length > limits.bytes() || overlay.length() > limits.bytes() - length {
        return Some(Refusal::TooLarge);
    }
    if u64::from(overlay.count()) + 1 > u64::from(limits.traces()) {
        return Some(Refusal::TooManyTraces);
    }
    None
}
