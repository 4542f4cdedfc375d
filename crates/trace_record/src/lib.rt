//! What the reports need of one trace. `Record` is a trace's own numbers, which `record_of` takes
//! from a view of the trace, and `record_with_samples_of` from its headers alone; `PackedRecord` is
//! the same in 72 bytes. `Amplitudes` is the least, greatest and sum of samples, where they have
//! values, and `Statistics` these with their number. What many traces have together is their tally.
//! The calls that are named for a law do nothing: their contract is the law.
//!
//! No call takes memory. Bytes of headers count from 1, as in the standard.
#![tactic(auto)]

mod amplitudes;
mod floats;
mod header_fields;
mod laws;
mod main_header;
mod narrow;
mod of_samples;
mod of_trace;
mod packed_record;
mod reads_sample;
mod record;
mod statistics;
mod unsigned;
mod wide;

pub use crate::amplitudes::Amplitudes;
pub use crate::laws::{
    geometry_of_each_trace, minus_beside_undoes_plus, minus_undoes_plus, plus_in_any_order,
    plus_undoes_minus, statistics_of_joined, tally_holds_each, tally_in_any_order,
    tally_of_an_exchange, tally_of_one_less, tally_of_one_more,
};
pub use crate::of_samples::statistics_of;
pub use crate::of_trace::{record_of, record_with_samples_of};
pub use crate::packed_record::PackedRecord;
pub use crate::record::Record;
pub use crate::statistics::Statistics;
