// Where a range of samples begins in each of many traces.
ghost use Rattle.std.specs.Prelude.{◌≡◌, ◌⊎◌, ◌+◌, ◌-◌, ◌*◌, ◌≤◌, length, None, Some, IsTrue, IfOk, IfErr, OnOk, IsErrOf, ◌≢◌};
ghost use Rattle.room.specs.Refusals.{Rises};
ghost use Rattle.sample_codes.specs.Formats.{width};
ghost use Rattle.frame_cut.specs.Traces.{count_of, is_trace, trace_at};
ghost use Rattle.trace_view.specs.Shown.{bytes_of, head_of};
ghost use Rattle.trace_view.specs.Values.{samples_at};
ghost use Rattle.edit_overlay.specs.CountedVolume.{IsSeen};
ghost use Rattle.edit_overlay.specs.Reads.{HaveAgreed, IsFaultOfLook};
ghost use Rattle.bench_rules.specs.declared.refusal.Refusal.TheVariants.{OutOfMemory as no_memory};
ghost use Rattle.bench_rules.specs.Computed.{first_at};
ghost use Rattle.bench_rules.specs.Conditions.{AreRising};
ghost use Rattle.bench_rules.specs.FilledSamples.{samples_refusal as refusal_of_samples};
ghost use Rattle.bench_rules.specs.ReadFaults.{IsReadRefusal, IsRefusalOfNoRead, IsRefusalOfReads};
ghost use Rattle.many_traces.specs.SamplePlaces.{AreSamplePlaces, HaveSampleRoom};

use bench_rules::{Refusal, sample_place, samples_refusal};
use edit_overlay::{Overlay, ReadFault};
use room::Room;
use sample_codes::Format;
use trace_record::PackedRecord;
use trace_view::TraceView;

/// Where sample `first` begins in each of these traces, counted from 0 in the trace; or the first
/// refusal. Samples are counted from 0. Looks once at each of the traces at most. Takes memory for
/// the places, before the first look. Refused with E05 of the lowest trace that lacks the greater
/// of the samples `first` and `last`; E11 may come in its place. On disk also where a trace could
/// not be read (E14, E15).
pub fn sample_places(
    room: &mut Room,
    overlay: &mut Overlay<PackedRecord>,
    traces: &[u32],
    first: u32,
    last: u32,
) -> Result<Vec<u64>, Refusal>
    requires rising { AreRising 1 (count_of overlay.old.volume) traces.now }
    ensures none { OnOk result (HaveAgreed overlay.new.reads → first_at
        (λ p. refusal_of_samples overlay.old.volume.head first last
        (trace_at overlay.old.volume p)) traces.now ≡ None) }
    ensures places { IfOk result (λ places. HaveAgreed overlay.new.reads →
        AreSamplePlaces overlay.old.volume first traces.now places.items) }
    ensures count { IfOk result (λ places. length places.items ≡ length traces.now) }
    ensures room { IfOk result (λ places.
        HaveSampleRoom overlay.old.volume (last + 1 - first) traces.now places.items) }
    ensures err { IfErr result (λ refusal. (refusal ≡ no_memory) ⊎
        IsReadRefusal overlay.old.loaded.on_disk refusal ⊎ (HaveAgreed overlay.new.reads → first_at
        (λ p. refusal_of_samples overlay.old.volume.head first last
        (trace_at overlay.old.volume p)) traces.now ≡ Some refusal)) }
    ensures reads_tell { IfErr result (IsRefusalOfReads overlay.old.reads overlay.new.reads) }
    ensures seen { IsSeen overlay.old overlay.new (length traces.now) }
    ensures memory { Rises (IsErrOf result Refusal.OutOfMemory) room.old room.new }
{
    let mut places = room.told(Vec::with_capacity(room.alloc(), traces.len()))?;
    for k in 0..traces.len() {
        match place_at(overlay, traces[k], first, last)? {
            Ok(place) => room.told_back(places.push(place))?,
            Err(refusal) => return Err(refusal),
        }
    }
    Ok(places)
}

// Where the sample begins in trace p, or what is refused.
fn place_at(
    overlay: &mut Overlay<PackedRecord>,
    p: u32,
    first: u32,
    last: u32,
) -> Result<Result<u64, Refusal>, ReadFault>
    requires trace { IsTrue (is_trace overlay.old.volume p) }
    ensures none { IfOk result (λ found. OnOk found (HaveAgreed overlay.new.reads →
        refusal_of_samples overlay.old.volume.head first last (trace_at overlay.old.volume p)
        ≡ None)) }
    ensures place { IfOk result (λ found. IfOk found (λ place. HaveAgreed overlay.new.reads →
        place ≡ samples_at overlay.old.volume.head (trace_at overlay.old.volume p)
        + width overlay.old.volume.head.format * first)) }
    ensures room { IfOk result (λ found. IfOk found (λ place.
        place + width overlay.old.volume.head.format * (last + 1 - first)
        ≤ length (trace_at overlay.old.volume p))) }
    ensures refused { IfOk result (λ found. IfErr found (λ refusal. HaveAgreed overlay.new.reads →
        refusal_of_samples overlay.old.volume.head first last (trace_at overlay.old.volume p)
        ≡ Some refusal)) }
    ensures other { IfOk result (λ found. IfErr found (λ refusal.
        refusal ≢ Refusal.OutOfMemory)) }
    ensures rule { IfOk result (λ found. IfErr found IsRefusalOfNoRead) }
    ensures seen { IsSeen overlay.old overlay.new 1 }
    ensures read { IfErr result (λ _. IsTrue overlay.old.loaded.on_disk) }
    ensures reads_tell { IfErr result (IsFaultOfLook overlay.old.reads overlay.new.reads) }
{
    let format = overlay.head().format;
    let Some(trace) = overlay.look(p)? else {
        unreachable!()
    };
    Ok(place_in(&trace, format, first, last))
}

// The same in a trace that is shown.
fn place_in(trace: &TraceView<'_>, format: Format, first: u32, last: u32) -> Result<u64, Refusal>
    requires { format ≡ (head_of trace.now).format }
    ensures none { OnOk result
        (refusal_of_samples (head_of trace.now) first last (bytes_of trace.now) ≡ None) }
    ensures place { IfOk result (λ place. place ≡ samples_at (head_of trace.now)
        (bytes_of trace.now) + width (head_of trace.now).format * first) }
    ensures room { IfOk result (λ place.
        place + width (head_of trace.now).format * (last + 1 - first)
        ≤ length (bytes_of trace.now)) }
    ensures refused { IfErr result (λ refusal.
        refusal_of_samples (head_of trace.now) first last (bytes_of trace.now) ≡ Some refusal) }
{
    match samples_refusal(trace, first, last) {
        Some(refusal) => Err(refusal),
        None => Ok(sample_place(format, trace, first)),
    }
}
