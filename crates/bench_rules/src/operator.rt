/// What a step of a computation does with the number so far and its operand, both whole numbers.
#[derive(Clone, Copy, Debug, PartialEq, Eq)]
pub enum Operator {
    Plus,
    Minus,
    Times,
    /// The quotient, rounded towards the lesser number, also for a negative divisor.
    Over,
    /// What `Over` leaves: `a - b * (a / b)`, which is 0 or has the divisor's sign.
    Modulo,
}
