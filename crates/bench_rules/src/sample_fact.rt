// Facts about the samples of one trace.
ghost use Rattle.std.specs.Prelude.{◌≡◌};
ghost use Rattle.bench_rules.specs.SampleFacts.{extreme_by, fact_by, fact_named as fact_of_name};

use crate::side_value::SideValue;
use float_codes::NO_NUMBER;
use trace_record::Amplitudes;

/// What the samples of a trace say, as a side of a condition.
#[derive(Clone, Copy, Debug, PartialEq, Eq)]
pub enum SampleFact {
    Least,
    Greatest,
    /// How many samples there are.
    Count,
}

/// The fact of that name. Takes no memory.
pub(crate) fn fact_named(name: &str) -> Option<SampleFact>
    ensures { result ≡ fact_of_name name.now }
{
    match name {
        "sample_least" => Some(SampleFact::Least),
        "sample_greatest" => Some(SampleFact::Greatest),
        "sample_count" => Some(SampleFact::Count),
        _ => None,
    }
}

/// What the fact says of a trace whose samples have these amplitudes, and are so many. Takes no
/// memory.
pub fn fact_value(
    floats: bool,
    amplitudes: Option<Amplitudes>,
    count: u32,
    fact: SampleFact,
) -> SideValue
    ensures { result ≡ fact_by floats amplitudes count fact }
{
    match fact {
        SampleFact::Count => SideValue::Whole(i128::from(count)),
        SampleFact::Least => match amplitudes {
            Some(all) => extreme(floats, all, all.least),
            None => SideValue::Missing,
        },
        SampleFact::Greatest => match amplitudes {
            Some(all) => extreme(floats, all, all.greatest),
            None => SideValue::Missing,
        },
    }
}

// The least or the greatest of samples, which of floats is missing where none is a number.
fn extreme(floats: bool, amplitudes: Amplitudes, sample: i128) -> SideValue
    ensures { result ≡ extreme_by floats amplitudes sample }
{
    if !floats {
        SideValue::Whole(sample)
    } else if amplitudes.least == i128::from(NO_NUMBER) {
        SideValue::Missing
    } else {
        SideValue::Rank(sample)
    }
}
