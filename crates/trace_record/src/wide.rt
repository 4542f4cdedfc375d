// The statistics of samples of 64 bits, in one slice.
ghost use Rattle.std.specs.Prelude.{◌≡◌, ◌*◌, ◌≤◌, IfSome, length, false};
ghost use Rattle.sample_codes.specs.declared.value_format.ValueFormat.TheVariants.{Integer};
ghost use Rattle.sample_codes.specs.Formats.{integer_width};
ghost use Rattle.trace_view.specs.Values.{samples_in};
ghost use Rattle.trace_record.specs.Statistics.{statistics_of, HasRange};

use crate::Statistics;
use crate::reads_sample::{Ordered, ReadsWide};

// Of the first samples of the bytes, of a format that S reads, in the order O.
pub(crate) fn wide_statistics<S: ReadsWide, O: Ordered>(
    bytes: &[u8],
    number: u32,
) -> Option<Statistics>
    requires { integer_width S.format * number ≤ length bytes.now }
    ensures value { result ≡ statistics_of false
        (samples_in O.order (Integer S.format) number bytes.now) }
    ensures range { IfSome result HasRange }
{
    if number == 0 {
        return None;
    }
    let mut statistics = Statistics::of(S::at::<O>(bytes, 0));
    for i in 1..number as usize {
        statistics.add(S::at::<O>(bytes, i));
    }
    Some(statistics)
}
