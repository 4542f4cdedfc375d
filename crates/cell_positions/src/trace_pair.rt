/// So many pairs of traces are told.
pub const MOST_PAIRS: usize = 10;

/// Two traces by their positions in the file, which count from 1. Ordered by the later one and then
/// by the earlier one.
#[derive(Debug, Clone, Copy, PartialEq, Eq, PartialOrd, Ord)]
pub struct TracePair {
    pub later: u32,
    pub earlier: u32,
}
