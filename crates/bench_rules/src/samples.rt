// The samples of one trace.
ghost use Rattle.std.specs.Prelude.{◌≡◌, ◌≤◌, ◌+◌, ◌*◌, ◌^◌, true, All, length};
ghost use Rattle.num_order.specs.Number.{is_between};
ghost use Rattle.float_codes.specs.Ranks.{value_at as value_at_rank};
ghost use Rattle.float_sum.specs.Sums.{total_of};
ghost use Rattle.sample_codes.specs.Formats.{values, width};
ghost use Rattle.trace_view.specs.Shown.{bytes_of, head_of};
ghost use Rattle.trace_view.specs.Values.{has_floats, samples_at, samples_of};
ghost use Rattle.bench_rules.specs.Answer.{trace_sample as sample_reply};
ghost use Rattle.bench_rules.specs.FilledSamples.{samples_refusal as refusal_of_samples, sample_value_refusal as refusal_of_value};
ghost use Rattle.bench_rules.specs.FloatStatistics.{float_statistics_of, floats_of, stat_of};
ghost use Rattle.bench_rules.specs.Refused.{patch_refusal as refusal_of_patch};

use crate::answer::Answer;
use crate::ask_fault::AskFault;
use crate::float_statistics::FloatStatistics;
use crate::refusal::Refusal;
use crate::trace_bytes::all_fit;
use field_map::TRACE_HEADER_BYTES;
use float_codes::{rank_of, value_at};
use float_sum::FloatTotal;
use sample_codes::Format;
use trace_record::statistics_of;
use trace_view::{Samples, TraceView};

/// The answer on sample k of the trace: E12 where samples have no values; E05 names the greater of
/// k and the number of samples.
pub fn trace_sample(trace: &TraceView<'_>, k: u32) -> Result<Answer, AskFault>
    ensures { result ≡ sample_reply (head_of trace.now) (bytes_of trace.now) k }
{
    if trace.head().format.values().is_none() {
        return Err(AskFault::NoValues);
    }
    match trace.sample(k) {
        Some(value) => Ok(Answer::Value(value)),
        None => {
            let count = trace.sample_count();
            Err(AskFault::NoSample(k.max(count), count))
        }
    }
}

/// The answer on the statistics of the samples of the trace, which are floats, in two passes over
/// them.
pub fn float_stat(trace: &TraceView<'_>) -> Answer
    requires { has_floats (head_of trace.now) ≡ true }
    ensures { result ≡ stat_of true (samples_of (head_of trace.now) (bytes_of trace.now)) }
{
    Answer::FloatStat(statistics_of_floats(trace))
}

/// The statistics of the samples of the trace, which are floats, in two passes over them; none
/// without samples.
pub fn statistics_of_floats(trace: &TraceView<'_>) -> Option<FloatStatistics>
    requires { has_floats (head_of trace.now) ≡ true }
    ensures { result ≡ float_statistics_of (samples_of (head_of trace.now) (bytes_of trace.now)) }
{
    let all = statistics_of(trace)?;
    // its number of samples has 32 bits
    let _count = trace.sample_count();
    Some(FloatStatistics {
        least: all.least,
        greatest: all.greatest,
        sum: rank_of(float_sum(trace.samples())),
        number: all.number,
        no_numbers: all.sum,
    })
}

// The exact sum of those samples that are numbers, rounded once.
fn float_sum(mut ranks: Samples<'_>) -> f64
    requires few { length ranks ≤ 2 ^ 32 }
    requires ranks { All (λ r. is_between true 8 r ≡ true) ranks }
    ensures { result ≡ total_of (floats_of ranks.entry) }
{
    let mut total = FloatTotal::new();
    'ranks: while let Some(rank) = ranks.next() {
        total.add(value_of(rank));
    }
    total.sum()
}

// The float of a rank.
fn value_of(rank: i128) -> f64
    ensures { is_between true 8 rank ≡ true → result ≡ value_at_rank rank }
{
    match i64::try_from(rank) {
        Ok(rank) => value_at(rank),
        Err(_) => 0.0,
    }
}

/// Where sample k of the trace begins, counted from 0 in the trace.
pub fn sample_place(format: Format, trace: &TraceView<'_>, k: u32) -> u64
    requires { format ≡ (head_of trace.now).format }
    ensures { result ≡ samples_at (head_of trace.now) (bytes_of trace.now) + width
        (head_of trace.now).format * k }
{
    TRACE_HEADER_BYTES as u64 * (1 + u64::from(trace.extension_count()))
        + u64::from(format.width()) * u64::from(k)
}

/// The first refusal of values over the samples from sample k on: E12, E04, E05.
pub fn patch_refusal(
    format: Format,
    trace: &TraceView<'_>,
    k: u32,
    values: &[i128],
) -> Option<Refusal>
    requires { format ≡ (head_of trace.now).format }
    ensures { result ≡ refusal_of_patch (head_of trace.now) (bytes_of trace.now) k values.now }
{
    let Some(numbers) = format.values() else {
        return Some(Refusal::NoValues);
    };
    if !all_fit(numbers, values) {
        return Some(Refusal::DoesNotFit);
    }
    let count = trace.sample_count();
    if k > count || values.len() as u64 > u64::from(count - k) {
        return Some(Refusal::NoSample(k.max(count), count));
    }
    None
}

/// The refusal of a value for samples of the format, whatever trace they are of: E12 where they
/// have no values, E04 where it does not fit them.
pub fn sample_value_refusal(format: Format, value: i128) -> Option<Refusal>
    ensures { result ≡ refusal_of_value (values format) value }
{
    let Some(numbers) = format.values() else {
        return Some(Refusal::NoValues);
    };
    if numbers.fits(value) {
        None
    } else {
        Some(Refusal::DoesNotFit)
    }
}

/// The refusal of a trace that lacks one of two samples, counted from 0: E05, which names the
/// greater of the two.
pub fn samples_refusal(trace: &TraceView<'_>, first: u32, last: u32) -> Option<Refusal>
    ensures { result ≡ refusal_of_samples (head_of trace.now) first last (bytes_of trace.now) }
{
    let sample = first.max(last);
    let count = trace.sample_count();
    if sample < count {
        None
    } else {
        Some(Refusal::NoSample(sample, count))
    }
}
