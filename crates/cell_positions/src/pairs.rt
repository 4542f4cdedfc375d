use crate::Cell;
use position_differences::Difference;

/// Two cells that are neighbours on a line, and how far the second one's position lies above the
/// first one's.
#[derive(Clone, Copy)]
pub struct Pair {
    pub first: Cell,
    pub second: Cell,
    pub difference: Difference,
}
