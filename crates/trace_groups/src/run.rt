/// Traces that follow one another and have a problem with the same facts. Positions count from 1.
#[derive(Debug, Clone, Copy, PartialEq, Eq)]
pub struct Run {
    /// The position of the first trace.
    pub first: u32,
    /// The position of the last trace, which may be the first one.
    pub last: u32,
    /// Two numbers whose meaning the problem gives, 0 where it gives none.
    pub facts: (i128, i128),
}
