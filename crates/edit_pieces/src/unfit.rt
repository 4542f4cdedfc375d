use thiserror::Error;

/// Why the edits of a volume cannot be written into its file. Traces count from 1.
#[derive(Clone, Copy, Debug, PartialEq, Eq, Error)]
pub enum Unfit {
    /// This trace is the first that is not at its place, and it lies over bytes of its own: it was
    /// inserted, copied or resized.
    #[error("trace {0} is a new one, or has another length (one was inserted, copied or resized)")]
    NewTrace(u32),
    /// This trace is the first that is not at its place, and it lies over a part of the file that
    /// starts elsewhere: it was moved or sorted, or one before it was deleted.
    #[error("trace {0} stood elsewhere in it (one was moved, sorted or deleted)")]
    OtherPlace(u32),
    /// Each trace is at its place, but the last one does not end where the file's traces do: traces
    /// at the end were deleted, or the bytes of no trace behind them were dropped.
    #[error("traces at its end were deleted, or its tail was dropped")]
    Fewer,
}
