use crate::field::Field;

/// What a computation reads: a number, or a field of the trace as it is before the edit.
#[derive(Drop)]
pub enum Operand {
    Number(i128),
    Field(Field),
}
