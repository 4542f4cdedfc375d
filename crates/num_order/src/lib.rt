//! Numbers as bytes: the two byte orders of a SEG-Y file (bytes 3297-3300 of the binary file header
//! tell which it has), and integers of 1, 2, 3, 4 or 8 bytes, in two's complement or without a
//! sign.
//!
//! No call takes memory, and none fails: what a call needs is a `requires`.
#![tactic(auto)]

mod kind;
mod laws;
mod number;
mod order;
mod placed;

pub use crate::kind::Kind;
pub use crate::laws::reads_back;
pub use crate::number::{fits, read, write};
pub use crate::order::Order;
pub use crate::placed::{i16_at, i32_at, u8_at, u16_at, u32_at, u64_at};
