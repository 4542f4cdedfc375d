//! The cells of a survey, each with its first trace and where that stands: what is doubtful in
//! their positions, and the grid that they make. The definitions of all of it stand in `specs/`,
//! and the types of the answers here; the code that finds them is that of `survey_cells`.
//!
//! Positions of traces in their file count from 1.
#![tactic(auto)]

mod cell;
mod jumps;
mod pairs;
mod shared;
mod survey;
mod trace_pair;

pub use crate::cell::Cell;
pub use crate::jumps::Jumps;
pub use crate::pairs::Pair;
pub use crate::shared::{PlacedCell, SharedPositions};
pub use crate::survey::SurveyGrid;
pub use crate::trace_pair::{MOST_PAIRS, TracePair};
