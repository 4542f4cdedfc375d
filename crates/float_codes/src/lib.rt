//! The float formats of SEG-Y revision 2.0: code 1, hexadecimal floats of 4 bytes as IBM has them,
//! and codes 5 and 6, the binary32 and binary64 of IEEE 754. Each of their values is exactly a
//! binary64, an infinity or no number. A sample is read as the rank of its value: the pattern of
//! the binary64 as a whole number in the order of the values.
//!
//! No call takes memory, and none can fail.
#![tactic(auto)]

mod float_format;
mod ibm;
mod laws;
mod ranks;

pub use crate::float_format::FloatFormat;
pub use crate::ibm::value as ibm_value;
pub use crate::laws::{
    ibm_is_exact, ibm_reads_back, ieee_reads_back, ranks_keep_order, samples_fit,
};
pub use crate::ranks::{NO_NUMBER, is_number, rank_of, value_at};
