use cell_positions::TracePair;
use line_problems::{MissingRun, NoSurvey, UnevenFold};
use trace_groups::{Run, TraceProblem};

/// A line of what is wrong or doubtful with a file: a problem, or behind it a run of what has it.
/// Traces count from 1.
#[derive(Debug, Clone, Copy, PartialEq, Eq)]
pub enum ProblemLine {
    /// `Traces(problem, traces, runs)`: so many traces have this problem (F1 to F6, F9, S2 to S6,
    /// S12, S13), in so many runs.
    Traces(TraceProblem, u64, u64),
    /// A run of traces with this problem.
    Run(TraceProblem, Run),
    /// F7 `TraceCount(count, traces)`: in a file of revision 2.0, bytes 3513-3520 are neither 0 nor
    /// the number of traces.
    TraceCount(u64, u32),
    /// F8 `TextLines(lines)`: so many lines of the textual header do not begin with `C`.
    TextLines(u32),
    /// S1: all traces have the same inline and crossline.
    NoSurvey(NoSurvey),
    /// S7 `MissingInlines(missing, runs)`: so many inlines are missing, in so many runs.
    MissingInlines(u64, u32),
    /// S8: the same of crosslines.
    MissingCrosslines(u64, u32),
    /// A run of lines that are missing.
    Missing(MissingRun),
    /// S9: a few cells have another fold than the others.
    Fold(UnevenFold),
    /// S10 `Jumps(pairs, jumps)`: of so many pairs of neighbouring cells so many have positions
    /// that jump.
    Jumps(u64, u64),
    /// The first traces of two cells whose positions jump.
    Jump(TracePair),
    /// S11 `SharedPositions(cells)`: so many cells stand where a cell before them does.
    SharedPositions(u64),
    /// The first trace of a cell that stands where one before it does, and that of the first cell
    /// there.
    SharedPosition(TracePair),
}
