use float_codes::FloatFormat;

/// A command on a range of traces, which conditions may stand behind.
#[derive(Clone, Copy, Debug, PartialEq, Eq)]
pub(crate) enum RangeCommand {
    Table,
    Find,
    Extremes,
    Set,
    Renumber,
    Compute,
    Delete,
    Count,
    Stats,
    Swap,
    Samples,

    /// The format of samples, where they are floats, tells how a value is read.
    Fill(Option<FloatFormat>),
}
