use crate::TracePair;
use key_counts::Ratio;

/// Cells that stand where a cell before them does: how many they are, and the first ten of them,
/// each by its first trace, with the first trace of the first cell there.
#[derive(Debug, Drop, PartialEq, Eq)]
pub struct SharedPositions {
    pub cells: u64,
    pub first_cells: Vec<TracePair>,
}

/// A cell by its first trace and where that stands. Ordered by x, y and trace.
#[derive(Debug, Clone, Copy, PartialEq, Eq, PartialOrd, Ord)]
pub struct PlacedCell {
    pub x: Ratio,
    pub y: Ratio,
    pub trace: u32,
}
