// The answers about the headers, the samples and the record of one trace.
ghost use Rattle.std.specs.Prelude.{◌≡◌, ◌⊎◌, Some, true, false, IsTrue, IsErrAnd, option_map, ◌≢◌, IfErr};
ghost use Rattle.frame_cut.specs.Traces.{is_trace, trace_of};
ghost use Rattle.trace_view.specs.Values.{has_floats};
ghost use Rattle.trace_record.specs.Facts.{facts_of};
ghost use Rattle.trace_record.specs.OfTrace.{record_of};
ghost use Rattle.edit_overlay.specs.CountedVolume.{IsSeen};
ghost use Rattle.edit_overlay.specs.Reads.{Reads, HaveAgreed};
ghost use Rattle.bench_rules.specs.declared.query.Query.TheVariants as queries;
ghost use Rattle.bench_rules.specs.Answer.{answer, of_trace, trace_value, IsReply};
ghost use Rattle.bench_rules.specs.Looks.{looks_at, trace_looks, stat_looks};
ghost use Rattle.bench_rules.specs.Places.{place_in_trace as place_of_field};
ghost use Rattle.bench_rules.specs.ReadFaults.{IsFaultOfReads, IsReadFault, IsFaultOfNoRead};
ghost use Rattle.bench_rules.specs.State.{State};

use crate::report_answers::{geometry, stat};
use bench_rules::{
    Answer, AskFault, Field, float_stat, has_float_samples, has_opaque_samples, has_trace,
    place_in_trace, trace_sample,
};
use edit_overlay::Overlay;
use field_map::{FieldMap, Place};
use trace_record::{PackedRecord, Record};

/// The number in the field of trace p. One look at most, and none where the field has no place.
/// Takes no memory. Refused: E01, E02, E03. On disk also where the trace could not be read (E14,
/// E15).
pub fn get_answer(
    overlay: &mut Overlay<PackedRecord>,
    map: &FieldMap,
    p: u32,
    field: &Field,
) -> Result<Answer, AskFault>
    ensures reply { (s : State) → s.volume ≡ overlay.old.volume → s.fields ≡ map.now.pairs →
        s.on_disk ≡ overlay.old.loaded.on_disk → HaveAgreed overlay.new.reads →
        IsReply s (queries.Get p field.now) result }
    ensures reads_tell { IfErr result (IsFaultOfReads overlay.old.reads overlay.new.reads) }
    ensures seen { IsSeen overlay.old overlay.new
        (looks_at (place_of_field map.now.pairs field.now)
        (trace_looks overlay.old.volume p 1)) }
    ensures other { IfErr result (λ fault. fault ≢ AskFault.OutOfMemory) }
{
    match place_in_trace(map, field) {
        Some(place) => value_at(overlay, p, place),
        None if has_trace(overlay, p) => Err(AskFault::NoField),
        None => Err(AskFault::NoTrace(p, overlay.count())),
    }
}

// The number at the place of trace p: E01, E03.
fn value_at(overlay: &mut Overlay<PackedRecord>, p: u32, place: Place) -> Result<Answer, AskFault>
    ensures reply { HaveAgreed overlay.new.reads → (result ≡ of_trace overlay.old.volume p
        (λ t. trace_value overlay.old.volume.head t (Some place))) ⊎
        IsErrAnd result (λ fault. IsTrue (is_trace overlay.old.volume p) ×
        IsReadFault overlay.old.loaded.on_disk fault) }
    ensures reads_tell { IfErr result (IsFaultOfReads overlay.old.reads overlay.new.reads) }
    ensures seen { IsSeen overlay.old overlay.new (trace_looks overlay.old.volume p 1) }
    ensures other { IfErr result (λ fault. fault ≢ AskFault.OutOfMemory) }
{
    let Some(trace) = overlay.look(p)? else {
        return Err(AskFault::NoTrace(p, overlay.count()));
    };
    match trace.value(place) {
        Some(value) => Ok(Answer::Value(value)),
        None => Err(AskFault::NoPlace),
    }
}

/// Sample k, counted from 0, of trace p. One look at most. Takes no memory. Refused: E01, E12, E05.
/// On disk also where the trace could not be read (E14, E15).
pub fn sample_answer(
    overlay: &mut Overlay<PackedRecord>,
    p: u32,
    k: u32,
) -> Result<Answer, AskFault>
    ensures reply { (s : State) → s.volume ≡ overlay.old.volume →
        s.on_disk ≡ overlay.old.loaded.on_disk → HaveAgreed overlay.new.reads →
        IsReply s (queries.Sample p k) result }
    ensures reads_tell { IfErr result (IsFaultOfReads overlay.old.reads overlay.new.reads) }
    ensures seen { IsSeen overlay.old overlay.new (trace_looks overlay.old.volume p 1) }
    ensures other { IfErr result (λ fault. fault ≢ AskFault.OutOfMemory) }
{
    let Some(trace) = overlay.look(p)? else {
        return Err(AskFault::NoTrace(p, overlay.count()));
    };
    trace_sample(&trace, k)
}

/// Where trace p lies, from its record where there is one. Takes no memory and looks at no trace.
/// Refused: E01.
pub fn geometry_answer(
    trace: Option<Record>,
    overlay: &Overlay<PackedRecord>,
    p: u32,
) -> Result<Answer, AskFault>
    ensures reply { (s : State) → s.volume ≡ overlay.now.volume → option_map facts_of trace ≡
        option_map (record_of s.volume.head s.fields) (trace_of s.volume p) →
        result ≡ answer s (queries.Geometry p) }
    ensures other { IfErr result (λ fault. fault ≢ AskFault.OutOfMemory) }
    ensures unread { IfErr result IsFaultOfNoRead }
{
    match trace {
        Some(trace) => Ok(geometry(&trace)),
        None => Err(AskFault::NoTrace(p, overlay.count())),
    }
}

/// The statistics of the samples of trace p. Of whole numbers they are told by its record, where
/// there is one, and no trace is looked at; the exact sum of floats needs the samples, so that the
/// trace is looked at once. Takes no memory. Refused: E01, E12. Of floats on disk also where the
/// trace could not be read (E14, E15).
pub fn stat_answer(
    trace: Option<Record>,
    overlay: &mut Overlay<PackedRecord>,
    p: u32,
) -> Result<Answer, AskFault>
    ensures reply { (s : State) → s.volume ≡ overlay.old.volume →
        s.on_disk ≡ overlay.old.loaded.on_disk → HaveAgreed overlay.new.reads →
        option_map facts_of trace ≡ option_map (record_of s.volume.head s.fields)
        (trace_of s.volume p) → IsReply s (queries.Stat p) result }
    ensures reads_tell { IfErr result (IsFaultOfReads overlay.old.reads overlay.new.reads) }
    ensures seen { IsSeen overlay.old overlay.new (stat_looks overlay.old.volume p) }
    ensures other { IfErr result (λ fault. fault ≢ AskFault.OutOfMemory) }
{
    if has_float_samples(overlay) {
        return stat_of_floats(overlay, p);
    }
    stat_of_numbers(trace, overlay, p)
}

// Of samples that are floats.
fn stat_of_floats(overlay: &mut Overlay<PackedRecord>, p: u32) -> Result<Answer, AskFault>
    requires { has_floats overlay.old.volume.head ≡ true }
    ensures reply { (s : State) → s.volume ≡ overlay.old.volume →
        s.on_disk ≡ overlay.old.loaded.on_disk → HaveAgreed overlay.new.reads →
        IsReply s (queries.Stat p) result }
    ensures reads_tell { IfErr result (IsFaultOfReads overlay.old.reads overlay.new.reads) }
    ensures seen { IsSeen overlay.old overlay.new (stat_looks overlay.old.volume p) }
    ensures other { IfErr result (λ fault. fault ≢ AskFault.OutOfMemory) }
{
    let Some(trace) = overlay.look(p)? else {
        return Err(AskFault::NoTrace(p, overlay.count()));
    };
    Ok(float_stat(&trace))
}

// Of samples that are whole numbers, or have no values.
fn stat_of_numbers(
    trace: Option<Record>,
    overlay: &Overlay<PackedRecord>,
    p: u32,
) -> Result<Answer, AskFault>
    ensures reply { (s : State) → s.volume ≡ overlay.now.volume →
        has_floats s.volume.head ≡ false → option_map facts_of trace ≡
        option_map (record_of s.volume.head s.fields) (trace_of s.volume p) →
        result ≡ answer s (queries.Stat p) }
    ensures reads_tell { (old new : Reads) → IfErr result (IsFaultOfReads old new) }
    ensures other { IfErr result (λ fault. fault ≢ AskFault.OutOfMemory) }
{
    let Some(trace) = trace else {
        return Err(AskFault::NoTrace(p, overlay.count()));
    };
    if has_opaque_samples(overlay) {
        return Err(AskFault::NoValues);
    }
    Ok(stat(&trace))
}
