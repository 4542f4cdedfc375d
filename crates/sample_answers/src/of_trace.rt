// What the samples of one trace say.
ghost use Rattle.std.specs.Prelude.{◌≡◌, ◌≤◌, ◌^◌, IsTrue, IfOk, IfErr, false, true, length};
ghost use Rattle.frame_cut.specs.Traces.{is_trace};
ghost use Rattle.trace_view.specs.Shown.{bytes_of, head_of};
ghost use Rattle.trace_view.specs.Values.{has_floats, samples_of};
ghost use Rattle.edit_overlay.specs.CountedVolume.{IsSeen};
ghost use Rattle.edit_overlay.specs.Reads.{HaveAgreed, IsFaultOfLook};
ghost use Rattle.bench_rules.specs.SampleStatistics.{float_trace_statistics, is_zero as is_zero_of, samples_at, trace_statistics, zeros_in};

use bench_rules::{FloatTraceStatistics, TraceStatistics, statistics_of_floats};
use edit_overlay::{Overlay, ReadFault};
use trace_record::{PackedRecord, statistics_of};
use trace_view::{Samples, TraceView};

/// What the samples of trace p say, which are whole numbers, in one look.
pub(crate) fn of_numbers(
    overlay: &mut Overlay<PackedRecord>,
    p: u32,
) -> Result<TraceStatistics, ReadFault>
    requires trace { IsTrue (is_trace overlay.old.volume p) }
    requires whole { has_floats overlay.old.volume.head ≡ false }
    ensures ok { IfOk result (λ found. HaveAgreed overlay.new.reads →
        found ≡ trace_statistics p (samples_at overlay.old.volume p)) }
    ensures seen { IsSeen overlay.old overlay.new 1 }
    ensures read { IfErr result (λ _. IsTrue overlay.old.loaded.on_disk) }
    ensures reads_tell { IfErr result (IsFaultOfLook overlay.old.reads overlay.new.reads) }
{
    let Some(trace) = overlay.look(p)? else {
        unreachable!()
    };
    Ok(numbers_in(p, &trace))
}

/// The same of floats.
pub(crate) fn of_floats(
    overlay: &mut Overlay<PackedRecord>,
    p: u32,
) -> Result<FloatTraceStatistics, ReadFault>
    requires trace { IsTrue (is_trace overlay.old.volume p) }
    requires floats { has_floats overlay.old.volume.head ≡ true }
    ensures ok { IfOk result (λ found. HaveAgreed overlay.new.reads →
        found ≡ float_trace_statistics p (samples_at overlay.old.volume p)) }
    ensures seen { IsSeen overlay.old overlay.new 1 }
    ensures read { IfErr result (λ _. IsTrue overlay.old.loaded.on_disk) }
    ensures reads_tell { IfErr result (IsFaultOfLook overlay.old.reads overlay.new.reads) }
{
    let Some(trace) = overlay.look(p)? else {
        unreachable!()
    };
    Ok(floats_in(p, &trace))
}

// What the samples of the trace say that is shown.
fn numbers_in(p: u32, trace: &TraceView<'_>) -> TraceStatistics
    requires { has_floats (head_of trace.now) ≡ false }
    ensures { result ≡ trace_statistics p (samples_of (head_of trace.now) (bytes_of trace.now)) }
{
    TraceStatistics {
        position: p,
        statistics: statistics_of(trace),
        zeros: zeros(trace, false),
    }
}

fn floats_in(p: u32, trace: &TraceView<'_>) -> FloatTraceStatistics
    requires { has_floats (head_of trace.now) ≡ true }
    ensures { result ≡ float_trace_statistics p
        (samples_of (head_of trace.now) (bytes_of trace.now)) }
{
    FloatTraceStatistics {
        position: p,
        statistics: statistics_of_floats(trace),
        zeros: zeros(trace, true),
    }
}

// How many samples of the trace are 0.
fn zeros(trace: &TraceView<'_>, floats: bool) -> u64
    ensures { result ≡ zeros_in floats (samples_of (head_of trace.now) (bytes_of trace.now)) }
{
    // its number of samples has 32 bits
    let _count = trace.sample_count();
    zeros_among(trace.samples(), floats)
}

fn zeros_among(mut samples: Samples<'_>, floats: bool) -> u64
    requires { length samples ≤ 2 ^ 32 }
    ensures { result ≡ zeros_in floats samples.entry }
{
    let mut zeros = 0;
    'samples: while let Some(sample) = samples.next() {
        if is_zero(floats, sample) {
            zeros += 1;
        }
    }
    zeros
}

// Whether the sample is 0: of floats -0 too, whose rank is -1.
fn is_zero(floats: bool, sample: i128) -> bool
    ensures { result ≡ is_zero_of floats sample }
{
    sample == 0 || floats && sample == -1
}
