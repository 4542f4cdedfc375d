// The statistics of samples that are floats, in one slice.
ghost use Rattle.std.specs.Prelude.{◌≡◌, ◌*◌, ◌≤◌, IfSome, length, true};
ghost use Rattle.sample_codes.specs.declared.value_format.ValueFormat.TheVariants.{Float};
ghost use Rattle.float_codes.specs.Values.{float_width};
ghost use Rattle.trace_view.specs.Values.{samples_in};
ghost use Rattle.trace_record.specs.Statistics.{statistics_of, HasRange};

use crate::Statistics;
use crate::reads_sample::{Ordered, ReadsFloat};
use float_codes::NO_NUMBER;

// What stands for a greatest of no numbers: it lies below the ranks of all numbers.
const BELOW_NUMBERS: i64 = -1 - NO_NUMBER;

// The least and the greatest rank of numbers, and how many of fewer than 2^32 samples are none.
#[derive(Clone, Copy)]
struct Ranks {
    least: i64,
    greatest: i64,
    no_numbers: u32,
}

impl Ranks {
    ghost use Rattle.std.specs.Prelude.{◌≡◌, true, pos, ◌+◌, ◌^◌, ◌<◌, ◌≤◌, ℕ};
    ghost use Rattle.trace_record.specs.Parts.{FitsSample};
    ghost use Rattle.trace_record.specs.Statistics.{one_sample, with_sample, for_sum, for_greatest as greatest_of_sample};
    ghost use Rattle.trace_record.specs.Floats.{statistics_of_ranks};

    #[inline(always)]
    fn of(rank: i64) -> Ranks
        ensures value { statistics_of_ranks result 1 ≡ one_sample true rank }
        ensures few { result.no_numbers ≤ 1 }
    {
        Ranks {
            least: rank,
            greatest: Ranks::for_greatest(rank),
            no_numbers: Ranks::no_number(rank),
        }
    }

    #[inline(always)]
    fn add(&mut self, rank: i64)
        requires { self.old.no_numbers + 1 < 2 ^ 32 }
        ensures value { (n : ℕ) → statistics_of_ranks self.new (n + 1) ≡ with_sample true
            (statistics_of_ranks self.old n) rank }
        ensures few { self.new.no_numbers ≤ self.old.no_numbers + 1 }
    {
        self.least = self.least.min(rank);
        self.greatest = self.greatest.max(Ranks::for_greatest(rank));
        self.no_numbers += Ranks::no_number(rank);
    }

    // What a sample is for the greatest.
    #[inline(always)]
    fn for_greatest(rank: i64) -> i64
        ensures { result ≡ greatest_of_sample true rank }
    {
        if rank == NO_NUMBER {
            BELOW_NUMBERS
        } else {
            rank
        }
    }

    // 1 where the sample is no number.
    #[inline(always)]
    fn no_number(rank: i64) -> u32
        ensures value { pos result ≡ for_sum true rank }
        ensures small { result ≤ 1 }
    {
        if rank == NO_NUMBER { 1 } else { 0 }
    }

    // So many samples have these statistics.
    fn statistics(self, number: u32) -> Statistics
        ensures value { result ≡ statistics_of_ranks self number }
        ensures least { FitsSample result.least }
        ensures greatest { FitsSample result.greatest }
    {
        Statistics {
            least: i128::from(self.least),
            greatest: i128::from(self.greatest),
            sum: i128::from(self.no_numbers),
            number: u64::from(number),
        }
    }
}

// Of the first samples of the bytes, of a format that S reads, in the order O.
pub(crate) fn float_statistics<S: ReadsFloat, O: Ordered>(
    bytes: &[u8],
    number: u32,
) -> Option<Statistics>
    requires { float_width S.format * number ≤ length bytes.now }
    ensures value { result ≡ statistics_of true
        (samples_in O.order (Float S.format) number bytes.now) }
    ensures range { IfSome result HasRange }
{
    if number == 0 {
        return None;
    }
    let mut ranks = Ranks::of(S::at::<O>(bytes, 0));
    for i in 1..number as usize {
        ranks.add(S::at::<O>(bytes, i));
    }
    Some(ranks.statistics(number))
}
