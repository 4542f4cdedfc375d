//! The traces of a volume that have a problem, in groups: for each problem how many traces have it,
//! how many runs they make, and the first of these runs. A run is of traces that follow one another
//! and of which the problem says the same. `fault_groups` has the groups of a list of faults, and
//! the other calls each have that of one suspicion, which only the traces together show.
//!
//! Positions of traces count from 1. Each call may take memory, and gives up only where a growth
//! was refused in that call.
#![tactic(auto)]

mod by_fault;
mod dead;
mod fault_facts;
mod fault_tallies;
mod float_amounts;
mod group;
mod loud;
mod mark;
mod medians;
mod others;
mod positions;
mod problem;
mod run;
mod run_tally;
mod samples;
mod suspect_groups;
mod suspects;

pub use crate::by_fault::fault_groups;
pub use crate::group::TraceGroup;
pub use crate::others::{delay_group, scalar_group};
pub use crate::positions::position_group;
pub use crate::problem::TraceProblem;
pub use crate::run::Run;
pub use crate::samples::sample_groups;
pub use crate::suspect_groups::{far_crossline_group, far_inline_group};
pub use room::OutOfMemory;
