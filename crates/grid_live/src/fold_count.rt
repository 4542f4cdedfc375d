use key_counts::FromCount;

/// A fold with the number of cells that have it.
#[derive(Debug, Clone, Copy, PartialEq, Eq)]
pub struct FoldCount {
    pub fold: u64,
    pub cells: u64,
}

impl FromCount<u64> for FoldCount {
    ghost count = { λ t. (t.fold, t.cells) };

    fn from_count(key: u64, number: u64) -> FoldCount {
        FoldCount {
            fold: key,
            cells: number,
        }
    }
}
