//! What is doubtful in the positions of a survey's cells, and the grid that they make, found among
//! its cells; `cell_positions` says what each is.
//!
//! `find_cells` makes the list of the cells, and the other calls are lent it, or take it. Each call
//! may take memory, and gives up only where a growth was refused in that call. None looks at a
//! trace.
#![tactic(auto)]

mod cells;
mod groups;
mod jumps;
mod lines;
mod pairs;
mod shared;
mod survey;
mod times;

pub use crate::cells::{SurveyCell, find_cells};
pub use crate::jumps::position_jumps;
pub use crate::shared::shared_positions;
pub use crate::survey::survey_grid;
pub use room::OutOfMemory;
