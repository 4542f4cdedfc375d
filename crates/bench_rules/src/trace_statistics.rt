use crate::float_statistics::FloatStatistics;
use trace_record::Statistics;

/// What the samples of a trace say, and which trace it is.
#[derive(Debug, Clone, Copy, PartialEq, Eq)]
pub struct TraceStatistics {
    /// The trace, counted from 1.
    pub position: u32,
    /// `None` without samples.
    pub statistics: Option<Statistics>,
    /// How many samples are 0.
    pub zeros: u64,
}

/// The same where samples are floats, of which -0 is 0 too.
#[derive(Debug, Clone, Copy, PartialEq, Eq)]
pub struct FloatTraceStatistics {
    pub position: u32,
    pub statistics: Option<FloatStatistics>,
    pub zeros: u64,
}
