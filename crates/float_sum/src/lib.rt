//! The sum of floats without rounding, and then rounded once. Digits to the base 2 ^ 32 stand in
//! words of 128 bits, so that nothing is carried while numbers are added. Negative floats are
//! added to a second list.
#![tactic(auto)]

mod added;
mod digits;
mod exact_sum;
mod float_total;
mod laws;
mod parts;
mod rounding;
#[cfg(test)]
mod tests;

pub use crate::exact_sum::ExactSum;
pub use crate::float_total::FloatTotal;
pub use crate::laws::{order_is_free, units_are_exact};
