use key_counts::{PackedRatio, beside};
use trace_record::Record;

// Keys of a trace that are counted, or no longer. A key that is missing is not touched.
#[derive(Clone, Copy)]
pub(crate) struct Keys {
    pub inline: Option<i32>,
    pub crossline: Option<i32>,
    pub offset: Option<i32>,
    pub x: Option<PackedRatio>,
    pub y: Option<PackedRatio>,
}

impl Keys {
    ghost use Rattle.std.specs.Prelude.{◌≡◌, ◌-◌};
    ghost use Rattle.trace_record.specs.Facts.{facts_of};
    ghost use Rattle.trace_record.specs.Keys.{Key};
    ghost use Rattle.trace_record.specs.Tally.{times};
    ghost use Rattle.range_stats.specs.RangeKeys.{keys_of_ranges};
    ghost use Rattle.range_stats.specs.OfKeys.{times_among};

    // Each key of the trace.
    pub(crate) fn of(trace: &Record) -> Keys
        ensures { (k : Key) → times_among result k ≡ times keys_of_ranges (facts_of trace.now) k }
    {
        Keys {
            inline: Some(trace.inline),
            crossline: Some(trace.crossline),
            offset: Some(trace.offset),
            x: Some(trace.packed_x()),
            y: Some(trace.packed_y()),
        }
    }

    // Those that the other trace has not.
    pub(crate) fn beside(trace: &Record, other: &Record) -> Keys
        ensures { (k : Key) → times_among result k ≡ times keys_of_ranges (facts_of trace.now) k -
            times keys_of_ranges (facts_of other.now) k }
    {
        let own = Keys::of(trace);
        let others = Keys::of(other);
        Keys {
            inline: beside(own.inline, others.inline),
            crossline: beside(own.crossline, others.crossline),
            offset: beside(own.offset, others.offset),
            x: beside(own.x, others.x),
            y: beside(own.y, others.y),
        }
    }
}
