use trace_record::Record;

// The number of the samples of traces that have values, and the sum of these.
#[derive(Clone, Copy)]
pub(crate) struct Sums {
    pub number: u64,
    pub sum: i128,
}

impl Sums {
    ghost use Rattle.std.specs.Prelude.{◌≡◌};
    ghost use Rattle.trace_record.specs.Facts.{facts_of, number_of_values, sum_of_values};

    // Those of one trace.
    pub(crate) fn of(trace: &Record) -> Sums
        ensures number { result.number ≡ number_of_values (facts_of trace.now) }
        ensures sum { result.sum ≡ sum_of_values (facts_of trace.now) }
    {
        match trace.amplitudes {
            Some(amplitudes) => Sums {
                number: u64::from(trace.number),
                sum: amplitudes.sum,
            },
            None => Sums { number: 0, sum: 0 },
        }
    }
}
