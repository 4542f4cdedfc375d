use crate::operand::Operand;
use exact_amounts::Amount;

/// A side of a condition. The name of a field may be that of a fact about the trace's samples.
#[derive(Drop)]
pub enum Side {
    Operand(Operand),
    /// A decimal: for facts about samples that are floats.
    Decimal(Amount),
}
