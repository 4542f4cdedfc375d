//! What is doubtful in the lists of the inlines, the crosslines and the folds of a survey.
//!
//! `near_lines`, `missing_lines` and `line_span` take memory, for the distances of the lines and
//! for the runs that are told, and give up only where a growth was refused in that call. No other
//! call takes memory.
#![tactic(auto)]

mod distances;
mod folds;
mod missing;
mod near;
mod parts;
mod spans;
mod survey_numbers;

pub use crate::folds::{UnevenFold, uneven_fold};
pub use crate::missing::{MissingLines, MissingRun, missing_lines};
pub use crate::near::near_lines;
pub use crate::spans::{LineSpan, line_span};
pub use crate::survey_numbers::{NoSurvey, no_survey};
pub use room::OutOfMemory;
