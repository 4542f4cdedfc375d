//! The samples of a trace that a range names, one after another (`AskedSamples`), and what the
//! samples of listed traces of a volume under edits say: of each trace the least, the
//! greatest and the sum of its samples, how many there are, how many are 0, and of floats how many
//! are no number.
//!
//! Traces count from 1. `stats_among` looks once at each trace, and leaves the volume and what is
//! prepared as they are. It takes memory in step with its answer, and is refused for want of it,
//! E11, only where a growth was refused in that call. Where the bytes of the volume are on disk, it
//! is also refused where a trace could not be read, E14 or E15, and what it says holds if each read
//! since the load agreed.
#![tactic(auto)]

mod among;
mod asked;
mod of_trace;
mod plain;

pub use crate::among::stats_among;
pub use crate::asked::AskedSamples;
