//! All that is wrong or doubtful with a volume under edits, grouped, as the answer of the query
//! `problems`: the faults of its headers and what the numbers of its traces make suspicious, from
//! the records beside the traces, the grid, the faults, and one look at each trace for its delay.
//! And the grid of its survey in one line, from the records alone.
//!
//! It takes memory for the cells, the delays, the faults and the answer, and is refused for want of
//! it (E11). Where the bytes of the volume are on disk, also where a trace could not be read (E14,
//! E15).
#![tactic(auto)]

mod answers;
mod delays;
mod lines;
mod positions;

pub use crate::answers::problems_answer;
pub use crate::positions::survey_answer;
