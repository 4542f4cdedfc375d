/// What comes next from the reader of a session.
#[derive(Clone, Copy, Debug, PartialEq, Eq)]
pub(crate) enum Next {
    /// A line; the last may lack its line feed.
    Line { has_end: bool },
    /// The reader is at its end.
    End,
    /// A read failed.
    Failed,
    /// A line of which more parts were read than a 64-bit number counts.
    Endless,
}
