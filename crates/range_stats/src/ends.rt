use key_counts::beside;
use trace_record::Record;

// The least and the greatest sample of a trace that are counted, or no longer. One that is missing
// is not touched.
#[derive(Clone, Copy)]
pub(crate) struct Ends {
    pub least: Option<i128>,
    pub greatest: Option<i128>,
}

impl Ends {
    ghost use Rattle.std.specs.Prelude.{◌≡◌, ◌-◌};
    ghost use Rattle.trace_record.specs.Facts.{facts_of};
    ghost use Rattle.trace_record.specs.Keys.{Key};
    ghost use Rattle.trace_record.specs.Tally.{times};
    ghost use Rattle.range_stats.specs.TotalKeys.{keys_of_totals};
    ghost use Rattle.range_stats.specs.OfKeys.{times_among_ends};

    // Both of a trace whose samples have values.
    pub(crate) fn of(trace: &Record) -> Ends
        ensures { (k : Key) →
            times_among_ends result k ≡ times keys_of_totals (facts_of trace.now) k }
    {
        match trace.amplitudes {
            Some(amplitudes) => Ends {
                least: Some(amplitudes.least),
                greatest: Some(amplitudes.greatest),
            },
            None => Ends {
                least: None,
                greatest: None,
            },
        }
    }

    // Those that the other trace has not.
    pub(crate) fn beside(trace: &Record, other: &Record) -> Ends
        ensures { (k : Key) → times_among_ends result k ≡
            times keys_of_totals (facts_of trace.now) k - times keys_of_totals (facts_of other.now)
            k }
    {
        let own = Ends::of(trace);
        let others = Ends::of(other);
        Ends {
            least: beside(own.least, others.least),
            greatest: beside(own.greatest, others.greatest),
        }
    }
}
