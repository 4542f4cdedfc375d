// Dead traces.
ghost use Rattle.std.specs.Prelude.{◌≡◌, int_le, pos};
ghost use Rattle.trace_groups.specs.Suspects.{numbers_among as numbers_of, is_dead as has_one_value, value_of as value_of_sample};

use crate::suspects::Suspicion;
use trace_record::{Amplitudes, Record};

// S12: two or more samples that are numbers, all with one value.
#[derive(Clone, Copy)]
pub(crate) struct Dead {
    pub(crate) floats: bool,
}

impl Suspicion for Dead {
    ghost use Rattle.trace_groups.specs.Suspects.{dead_facts};

    ghost facts = { λ s f. dead_facts s.floats f };

    fn facts_in(&self, trace: &Record) -> Option<(i128, i128)> {
        let amplitudes = trace.amplitudes?;
        if !is_dead(self.floats, trace.number, &amplitudes) {
            return None;
        }
        Some((value_of(self.floats, amplitudes.least), 0))
    }
}

// Whether of so many samples two or more are numbers, all with one value.
fn is_dead(floats: bool, number: u32, amplitudes: &Amplitudes) -> bool
    ensures { result ≡ has_one_value floats number amplitudes.now }
{
    has_numbers(floats, number, amplitudes)
        && value_of(floats, amplitudes.least) == value_of(floats, amplitudes.greatest)
}

// Whether two or more of the samples are numbers: of floats the place of the sum has how many are
// none.
pub(crate) fn has_numbers(floats: bool, number: u32, amplitudes: &Amplitudes) -> bool
    ensures { result ≡ int_le (pos 2) (numbers_of floats number amplitudes.now) }
{
    if floats {
        amplitudes.sum <= i128::from(number) - 2
    } else {
        number >= 2
    }
}

// A sample's value: of floats -0 has that of 0.
fn value_of(floats: bool, sample: i128) -> i128
    ensures { result ≡ value_of_sample floats sample }
{
    if floats && sample == -1 {
        return 0;
    }
    sample
}
