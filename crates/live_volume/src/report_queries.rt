// The reports that run with the volume, and the records beside its traces. No trace is looked at.
ghost use Rattle.std.specs.Prelude.{◌≡◌, is_none, option_map};
ghost use Rattle.edit_overlay.specs.Reads.{HaveAgreed};
ghost use Rattle.sample_codes.specs.Formats.{values};
ghost use Rattle.frame_cut.specs.Traces.{trace_of};
ghost use Rattle.trace_record.specs.Facts.{facts_of};
ghost use Rattle.trace_record.specs.OfTrace.{record_of};
ghost use Rattle.bench_rules.specs.FloatStatistics.{float_format as float_format_of};
ghost use Rattle.bench_rules.specs.Live.{IsGridOf, AreRangesOf, AreTotalsOf, AreTriplesOf};

use crate::live_volume::LiveVolume;
use bench_rules::{float_format, has_opaque_samples};
use fault_live::Faults;
use float_codes::FloatFormat;
use grid_live::Grid;
use range_stats::{Ranges, Totals};
use trace_record::Record;

impl LiveVolume {
    /// The grid, which has counted the traces as they are now. Takes no memory and looks at none.
    /// Claimed, as of the next three, where each read of the loaded bytes agreed.
    pub fn grid(&self) -> &Grid
        ensures { HaveAgreed self.now.reads → IsGridOf self.now.state result.now }
    {
        self.reports.grid()
    }

    /// The ranges, which have counted the traces as they are now. Takes no memory and looks at
    /// none.
    pub fn ranges(&self) -> &Ranges
        ensures { HaveAgreed self.now.reads → AreRangesOf self.now.state result.now }
    {
        self.reports.ranges()
    }

    /// The totals, which have counted the traces as they are now. Takes no memory and looks at
    /// none.
    pub fn totals(&self) -> &Totals
        ensures { HaveAgreed self.now.reads → AreTotalsOf self.now.state result.now }
    {
        self.reports.totals()
    }

    /// How often inline, crossline and offset stand together in the traces as they are now. Takes
    /// no memory and looks at none.
    pub fn triples(&self) -> &Faults
        ensures { HaveAgreed self.now.reads → AreTriplesOf self.now.state result.now }
    {
        self.reports.triples()
    }

    // The record of trace p, where there is one.
    pub(crate) fn record(&self, p: u32) -> Option<Record>
        ensures { HaveAgreed self.now.reads → option_map facts_of result ≡ option_map
            (record_of self.now.state.volume.head self.now.state.fields)
            (trace_of self.now.state.volume p) }
    {
        if !self.has_trace(p) {
            return None;
        }
        Some(self.overlay.payload(p).record())
    }

    /// The format of the samples of the file where they are floats. Takes no memory and looks at no
    /// trace.
    pub fn float_format(&self) -> Option<FloatFormat>
        ensures { result ≡ float_format_of self.now.state.volume.head.format }
    {
        float_format(&self.overlay)
    }

    /// Whether the samples of the file have no values. Takes no memory and looks at no trace.
    pub fn has_opaque_samples(&self) -> bool
        ensures { result ≡ is_none (values self.now.state.volume.head.format) }
    {
        has_opaque_samples(&self.overlay)
    }
}
