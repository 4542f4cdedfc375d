//! Numbers that are counted, and how often. `Ratio` is a coordinate under its scalar, a fraction in
//! lowest terms; `PackedRatio` the same with two flags in 8 bytes. `Counts` counts keys of any
//! kind, one by one or all at once, in their order; a `Counter` is whatever counts keys one by one.
//! The call that is named for a law does nothing: its contract is the law.
//!
//! `Counter::raise`, `raise_any` and `raise_both` take memory only for a key that is not held;
//! where a growth is refused they leave all as it was. `Counts::from_keys` counts all at once, and
//! takes memory for what it makes, `Counts::list` for the list. Each of them gives up only where a
//! growth was refused in that call (`memory`). No other call takes memory.
#![tactic(auto)]

mod counter;
mod counts;
mod from_count;
mod laws;
mod packed_ratio;
mod raising;
mod ratio;
mod runs;

pub use crate::counter::Counter;
pub use crate::counts::Counts;
pub use crate::from_count::FromCount;
pub use crate::laws::equal_ratios_are_one;
pub use crate::packed_ratio::PackedRatio;
pub use crate::raising::{beside, lower_any, lower_both, raise_any, raise_both};
pub use crate::ratio::Ratio;
pub use room::OutOfMemory;
