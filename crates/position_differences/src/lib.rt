//! How positions differ: the exact difference of two, and differences that are far from the
//! commonest of many and from those beside them on their line.
//!
//! No call takes memory.
#![tactic(auto)]

mod difference;
mod far;
mod fractions;

pub use crate::difference::{Difference, LastDifferences, Position, difference_between};
pub use crate::far::{is_far, is_jump};
