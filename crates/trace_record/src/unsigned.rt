// The statistics of unsigned samples of 32 bits, in one slice.
ghost use Rattle.std.specs.Prelude.{◌≡◌, ◌*◌, ◌≤◌, IfSome, length, false};
ghost use Rattle.sample_codes.specs.declared.value_format.ValueFormat.TheVariants.{Integer};
ghost use Rattle.sample_codes.specs.declared.integer_format.IntegerFormat.TheVariants.{Unsigned32};
ghost use Rattle.trace_view.specs.Values.{samples_in};
ghost use Rattle.trace_record.specs.Statistics.{statistics_of, HasRange};

use crate::Statistics;
use crate::reads_sample::{Ordered, four_bytes};

// The least, the greatest and the sum of fewer than 2^32 samples: the sum fits a u64.
#[derive(Clone, Copy)]
struct Unsigned {
    least: u32,
    greatest: u32,
    sum: u64,
}

impl Unsigned {
    ghost use Rattle.std.specs.Prelude.{◌≡◌, false, ◌+◌, ◌^◌, ◌<◌, pos, ℕ};
    ghost use Rattle.trace_record.specs.Parts.{FitsSample};
    ghost use Rattle.trace_record.specs.Statistics.{one_sample, with_sample};
    ghost use Rattle.trace_record.specs.Unsigned.{statistics_of_unsigned};

    #[inline(always)]
    fn of(sample: u32) -> Unsigned
        ensures { statistics_of_unsigned result 1 ≡ one_sample false (pos sample) }
    {
        Unsigned {
            least: sample,
            greatest: sample,
            sum: u64::from(sample),
        }
    }

    #[inline(always)]
    fn add(&mut self, sample: u32)
        requires { self.old.sum + sample < 2 ^ 64 }
        ensures { (n : ℕ) → statistics_of_unsigned self.new (n + 1) ≡ with_sample false
            (statistics_of_unsigned self.old n) (pos sample) }
    {
        self.least = self.least.min(sample);
        self.greatest = self.greatest.max(sample);
        self.sum += u64::from(sample);
    }

    // So many samples have these statistics.
    fn statistics(self, number: u32) -> Statistics
        ensures value { result ≡ statistics_of_unsigned self number }
        ensures least { FitsSample result.least }
        ensures greatest { FitsSample result.greatest }
    {
        Statistics {
            least: i128::from(self.least),
            greatest: i128::from(self.greatest),
            sum: i128::from(self.sum),
            number: u64::from(number),
        }
    }
}

// Of the first samples of the bytes, in the order O.
pub(crate) fn unsigned_statistics<O: Ordered>(bytes: &[u8], number: u32) -> Option<Statistics>
    requires { 4 * number ≤ length bytes.now }
    ensures value { result ≡ statistics_of false
        (samples_in O.order (Integer Unsigned32) number bytes.now) }
    ensures range { IfSome result HasRange }
{
    if number == 0 {
        return None;
    }
    let mut unsigned = Unsigned::of(four_bytes::<O>(bytes, 0));
    for i in 1..number as usize {
        unsigned.add(four_bytes::<O>(bytes, 4 * i));
    }
    Some(unsigned.statistics(number))
}
