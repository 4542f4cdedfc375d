/// A cell with the position of its first trace in the file. Ordered by inline, crossline and trace.
#[derive(Debug, Clone, Copy, PartialEq, Eq, PartialOrd, Ord)]
pub struct Cell {
    pub inline: i32,
    pub crossline: i32,
    pub trace: u32,
}
