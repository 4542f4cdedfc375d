//! Numbers compared exactly with samples of floats: a whole number, or a decimal of any length,
//! with the value of a rank.
//!
//! No call takes memory, and none can fail.
#![tactic(auto)]

mod amount;
mod decimal_order;
mod large_number;
mod laws;
mod side;
mod size_parts;
#[cfg(test)]
mod tests;
mod whole_order;

pub use crate::amount::Amount;
pub use crate::laws::places_are_exact;
