use crate::{Run, TraceProblem};

/// The traces that have a problem.
#[derive(Debug, Drop)]
pub struct TraceGroup {
    pub problem: TraceProblem,
    /// How many traces have it.
    pub traces: u64,
    /// How many runs they make.
    pub runs: u64,
    /// The first 10 of these runs, by position.
    pub first_runs: Vec<Run>,
}
