ghost use Rattle.grid_live.specs.Fitting.{CellFits};

use key_counts::beside;
use trace_record::Record;

// Keys of a trace that are counted, or no longer. A key that is missing is not touched.
#[derive(Clone, Copy)]
pub(crate) struct Keys {
    pub cell: Option<(i32, i32)>,
    pub inline: Option<i32>,
    pub crossline: Option<i32>,
    pub ghost fits: { CellFits cell },
}

impl Keys {
    ghost use Rattle.std.specs.Prelude.{◌≡◌, ◌-◌};
    ghost use Rattle.trace_record.specs.Facts.{facts_of};
    ghost use Rattle.trace_record.specs.Keys.{Key};
    ghost use Rattle.trace_record.specs.Tally.{times};
    ghost use Rattle.grid_live.specs.GridKeys.{keys_of_grid};
    ghost use Rattle.grid_live.specs.OfKeys.{times_among};

    // Each key of the trace.
    pub(crate) fn of(trace: &Record) -> Keys
        ensures { (k : Key) → times_among result k ≡ times keys_of_grid (facts_of trace.now) k }
    {
        Keys {
            cell: Some((trace.inline, trace.crossline)),
            inline: Some(trace.inline),
            crossline: Some(trace.crossline),
        }
    }

    // Those that the other trace has not.
    pub(crate) fn beside(trace: &Record, other: &Record) -> Keys
        ensures { (k : Key) → times_among result k ≡ times keys_of_grid (facts_of trace.now) k -
            times keys_of_grid (facts_of other.now) k }
    {
        let own = Keys::of(trace);
        let others = Keys::of(other);
        Keys {
            cell: beside(own.cell, others.cell),
            inline: beside(own.inline, others.inline),
            crossline: beside(own.crossline, others.crossline),
        }
    }
}
