/// How the lines of a script ended.
#[derive(Clone, Copy, Debug, PartialEq, Eq)]
pub(crate) enum LinesEnd {
    /// All were run, so many of them refused.
    Whole { refused: u64 },
    /// This line, counted from 1, was refused, and a refusal stops the run.
    Stopped { line: u64 },
    /// The writer of the answers failed when it had taken the first `written` bytes of what is
    /// printed, or `u64::MAX` and more.
    Answers { written: u64 },
}
