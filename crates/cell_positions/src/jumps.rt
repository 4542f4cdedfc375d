use crate::TracePair;

/// Jumps of positions between neighbouring cells: how many pairs of cells were looked at, how many
/// of them jump, and the first ten of those, by the first traces of their cells.
#[derive(Debug, Drop, PartialEq, Eq)]
pub struct Jumps {
    pub pairs: u64,
    pub jumps: u64,
    pub first_jumps: Vec<TracePair>,
}
