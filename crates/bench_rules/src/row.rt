/// One row of a slice: where its trace lies and stands, and its sample. Positions count from 1.
/// Rows are ordered by inline, crossline, position and value.
#[derive(Debug, Clone, Copy, PartialEq, Eq, PartialOrd, Ord)]
pub struct Row {
    pub inline: i32,
    pub crossline: i32,
    pub position: u32,
    pub value: i128,
}
