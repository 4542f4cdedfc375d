//! The least and greatest value of each number of the traces, and the totals of their samples.
//! `Ranges` and `Totals` run with the traces of a volume: `add` counts a trace, `remove` no longer
//! counts it, in any order, and what they then tell is that of the traces that are counted. The
//! calls that are named for a law do nothing: their contract is the law.
//!
//! `add` and `add_beside` take memory, only for a value that no counted trace has, and leave all as
//! it was where a growth is refused; `from_records` takes it for all that it counts. Each of them
//! gives up only where a growth was refused in that call. The other calls always answer.
#![tactic(auto)]

mod coordinate_counts;
mod end_counts;
mod ends;
mod key_lists;
mod keys;
mod laws;
mod quantity;
mod ranges;
mod sums;
mod totals;
mod whole_counts;

pub use crate::laws::{
    at_most_one_range, at_most_one_range_in, range_is_range, range_of_tally, totals_are_of_samples,
    totals_of_tally,
};
pub use crate::quantity::Quantity;
pub use crate::ranges::Ranges;
pub use crate::totals::Totals;
