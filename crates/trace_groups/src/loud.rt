// Loud traces.
ghost use Rattle.std.specs.Prelude.{◌≡◌, ◌||◌, ◌<◌, ◌^◌, IfOk, max, unsigned_abs, length, map, filter_map, option_map, IsErr};
ghost use Rattle.std.specs.List.{list_any};
ghost use Rattle.room.specs.Refusals.{Rises};
ghost use Rattle.trace_record.specs.Facts.{facts_of};
ghost use Rattle.trace_record.specs.Parts.{FitsSample};
ghost use Rattle.trace_groups.specs.Groups.{group_of, group_in};
ghost use Rattle.trace_groups.specs.Loud.{amount_of as amount_in, pattern_of_amount as pattern_in, is_loud as is_loud_amount, loud_beside, loud_marks};
ghost use Rattle.trace_groups.specs.declared.problem.TraceProblem.TheVariants.{Loud as loud};

use crate::dead::has_numbers;
use crate::float_amounts::{exceeds_100_times, is_finite, pattern_of_amount};
use crate::medians::around_median;
use crate::suspect_groups::group_by;
use crate::suspects::Suspicion;
use crate::{TraceGroup, TraceProblem};
use record_table::Records;
use room::{OutOfMemory, Room};
use trace_record::{Amplitudes, Record};

// How many times the median a loud trace exceeds.
const LOUD_TIMES: u128 = 100;

// S13: an amount above so many times this median.
#[derive(Clone, Copy)]
pub(crate) struct Loud {
    pub(crate) floats: bool,
    pub(crate) median: u64,
}

impl Suspicion for Loud {
    ghost use Rattle.trace_groups.specs.Loud.{loud_facts};

    ghost facts = { λ s f. loud_facts s.floats s.median f };

    fn facts_in(&self, trace: &Record) -> Option<(i128, i128)> {
        let amount = amount_of(self.floats, trace)?;
        if !is_loud(self.floats, self.median, amount) {
            return None;
        }
        Some((i128::from(amount), 0))
    }
}

// Whether the amount is loud where this is the median.
fn is_loud(floats: bool, median: u64, amount: u64) -> bool
    ensures { result ≡ is_loud_amount floats median amount }
{
    if floats {
        return median > 0
            && is_finite(median)
            && (!is_finite(amount) || exceeds_100_times(amount, median));
    }
    median > 0 && LOUD_TIMES * u128::from(median) < u128::from(amount)
}

// S13: the traces of which a sample is more than 100 times as far from 0 as the lower median of
// such greatest amounts, which are given and moved about; none where this median is 0. Where
// samples are floats, amounts are compared exactly, and none is loud where the median is infinite.
// The traces are passed over only where an amount is loud. Takes memory for the group.
pub(crate) fn loud_group(
    room: &mut Room,
    records: &Records,
    floats: bool,
    amounts: &mut [u64],
) -> Result<Option<TraceGroup>, OutOfMemory>
    requires few { length records.now < 2 ^ 32 }
    requires amounts { amounts.old ≡ filter_map (amount_in floats) (map facts_of records.now) }
    ensures group { IfOk result (λ group. option_map group_in group ≡
        group_of loud (loud_marks floats (map facts_of records.now))) }
    ensures memory { Rises (IsErr result) room.old room.new }
{
    match loud_median(floats, amounts) {
        Some(median) => { group_by(room, TraceProblem::Loud, records, &Loud { floats, median }) }
        None => Ok(None),
    }
}

// The lower median of the amounts, where one of them is loud beside it. Moves them about.
fn loud_median(floats: bool, amounts: &mut [u64]) -> Option<u64>
    ensures { result ≡ loud_beside floats amounts.old }
{
    let (front, median, back) = around_median(amounts)?;
    if !has_loud_around(floats, front, median, back) {
        return None;
    }
    Some(median)
}

// Whether the median itself is loud, or one of the amounts in front of it and behind it.
fn has_loud_around(floats: bool, front: &[u64], median: u64, back: &[u64]) -> bool
    ensures { result ≡ (list_any (is_loud_amount floats median) front.now
        || (is_loud_amount floats median median
        || list_any (is_loud_amount floats median) back.now)) }
{
    has_loud(floats, median, front)
        || is_loud(floats, median, median)
        || has_loud(floats, median, back)
}

// Whether one of the amounts is loud where this is the median.
fn has_loud(floats: bool, median: u64, amounts: &[u64]) -> bool
    ensures { result ≡ list_any (is_loud_amount floats median) amounts.now }
{
    amounts
        .iter()
        .any(|amount| is_loud(floats, median, *amount))
}

// The greatest amount of the trace's samples, of floats its pattern; none without enough samples,
// or where they have no values.
pub(crate) fn amount_of(floats: bool, trace: &Record) -> Option<u64>
    ensures { result ≡ amount_in floats (facts_of trace.now) }
{
    let amplitudes = trace.amplitudes?;
    if !floats {
        return Some(whole_amount(&amplitudes));
    }
    if !has_numbers(true, trace.number, &amplitudes) {
        return None;
    }
    Some(float_amount(&amplitudes))
}

fn whole_amount(amplitudes: &Amplitudes) -> u64
    requires least { FitsSample amplitudes.now.least }
    requires greatest { FitsSample amplitudes.now.greatest }
    ensures { result ≡
        max (unsigned_abs amplitudes.now.least) (unsigned_abs amplitudes.now.greatest) }
{
    let least = amplitudes.least.unsigned_abs();
    least.max(amplitudes.greatest.unsigned_abs()) as u64
}

fn float_amount(amplitudes: &Amplitudes) -> u64
    requires least { FitsSample amplitudes.now.least }
    requires greatest { FitsSample amplitudes.now.greatest }
    ensures { result ≡
        max (pattern_in amplitudes.now.least) (pattern_in amplitudes.now.greatest) }
{
    pattern_of_amount(amplitudes.least).max(pattern_of_amount(amplitudes.greatest))
}
