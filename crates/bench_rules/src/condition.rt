use crate::comparison::Comparison;
use crate::side::Side;

/// What a trace has to meet to be chosen: two sides, and how they compare.
#[derive(Drop)]
pub struct Condition {
    pub left: Side,
    pub comparison: Comparison,
    pub right: Side,
}
