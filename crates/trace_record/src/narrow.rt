// The statistics of samples that fit an i32, in one slice.
ghost use Rattle.std.specs.Prelude.{◌≡◌, ◌*◌, ◌≤◌, IfSome, length, false};
ghost use Rattle.sample_codes.specs.declared.value_format.ValueFormat.TheVariants.{Integer};
ghost use Rattle.sample_codes.specs.Formats.{integer_width};
ghost use Rattle.trace_view.specs.Values.{samples_in};
ghost use Rattle.trace_record.specs.Statistics.{statistics_of, HasRange};

use crate::Statistics;
use crate::reads_sample::{Ordered, ReadsSample};

// The least, the greatest and the sum of fewer than 2^32 samples: the sum fits an i64.
#[derive(Clone, Copy)]
struct Narrow {
    least: i32,
    greatest: i32,
    sum: i64,
}

impl Narrow {
    ghost use Rattle.std.specs.Prelude.{◌≡◌, false, ◌*◌, ◌-◌, ◌+◌, ◌^◌, ◌≤ℤ◌, pos, neg_ℤ, ℕ};
    ghost use Rattle.trace_record.specs.Parts.{FitsSample};
    ghost use Rattle.trace_record.specs.Statistics.{one_sample, with_sample};
    ghost use Rattle.trace_record.specs.Narrow.{statistics_of_narrow};

    #[inline(always)]
    fn of(sample: i32) -> Narrow
        ensures { statistics_of_narrow result 1 ≡ one_sample false sample }
    {
        Narrow {
            least: sample,
            greatest: sample,
            sum: i64::from(sample),
        }
    }

    #[inline(always)]
    fn add(&mut self, sample: i32)
        requires sum_low { neg_ℤ (pos (2 ^ 31 * (2 ^ 32 - 1))) ≤ℤ self.old.sum }
        requires sum_high { self.old.sum ≤ℤ pos (2 ^ 31 * (2 ^ 32 - 1)) }
        ensures { (n : ℕ) → statistics_of_narrow self.new (n + 1) ≡ with_sample false
            (statistics_of_narrow self.old n) sample }
    {
        self.least = self.least.min(sample);
        self.greatest = self.greatest.max(sample);
        self.sum += i64::from(sample);
    }

    // So many samples have these statistics.
    fn statistics(self, number: u32) -> Statistics
        ensures value { result ≡ statistics_of_narrow self number }
        ensures least { FitsSample result.least }
        ensures greatest { FitsSample result.greatest }
    {
        Statistics {
            least: i128::from(self.least),
            greatest: i128::from(self.greatest),
            sum: i128::from(self.sum),
            number: u64::from(number),
        }
    }
}

// Of the first samples of the bytes, of a format that S reads, in the order O.
pub(crate) fn narrow_statistics<S: ReadsSample, O: Ordered>(
    bytes: &[u8],
    number: u32,
) -> Option<Statistics>
    requires { integer_width S.format * number ≤ length bytes.now }
    ensures value { result ≡ statistics_of false
        (samples_in O.order (Integer S.format) number bytes.now) }
    ensures range { IfSome result HasRange }
{
    if number == 0 {
        return None;
    }
    let mut narrow = Narrow::of(S::at::<O>(bytes, 0));
    for i in 1..number as usize {
        narrow.add(S::at::<O>(bytes, i));
    }
    Some(narrow.statistics(number))
}
