use crate::float_word::FloatWord;
use bench_rules::{FloatTraceStatistics, Items, ProblemLine, Row};

/// The least and the greatest float of some that are numbers.
#[derive(Clone, Copy)]
pub struct ShownEnds {
    pub least: FloatWord,
    pub greatest: FloatWord,
}

/// The statistics of the samples of a trace.
#[derive(Clone, Copy)]
pub struct ShownStatistics {
    /// The ends, and the exact sum, rounded once; `None` where no sample is a number.
    pub of_numbers: Option<(ShownEnds, FloatWord)>,
    /// How many samples there are.
    pub number: u64,
    /// How many of them are no number.
    pub no_numbers: i128,
}

/// What is told of the samples of all traces.
#[derive(Clone, Copy)]
pub struct ShownTotals {
    /// `None` where no sample is a number.
    pub ends: Option<ShownEnds>,
    /// How many samples there are.
    pub number: u64,
    /// How many of them are no number.
    pub no_numbers: i128,
}

/// A row of a slice, whose value is a rank, with the word of its float.
#[derive(Clone, Copy)]
pub struct FloatRow {
    pub row: Row,
    pub word: FloatWord,
}

/// A line of what is wrong or doubtful, with the word of its float where it tells of one: the value
/// of dead traces, and the amount of loud ones.
#[derive(Clone, Copy)]
pub struct ShownProblem {
    pub line: ProblemLine,
    pub word: Option<FloatWord>,
}

/// What the samples of a trace say, with the words of its statistics.
#[derive(Clone, Copy)]
pub struct ShownTrace {
    pub trace: FloatTraceStatistics,
    /// `None` of a trace without samples.
    pub statistics: Option<ShownStatistics>,
}

/// The answer to a query that tells of samples that are floats.
#[derive(Drop)]
pub enum FloatAnswer {
    /// Of a sample.
    Value(FloatWord),
    /// `None` of a trace without samples.
    Stat(Option<ShownStatistics>),
    /// `None` without samples.
    Totals(Option<ShownTotals>),
    /// A row for each trace that has the sample, rising by inline, crossline and position.
    Slice(Items<FloatRow>),
    /// The problems in the order of their codes, each with its first runs behind it.
    Problems(Items<ShownProblem>),
    /// What the samples of each of the traces say, in order.
    Stats(Items<ShownTrace>),
}
