//! What is printed for each line of a script, and how a run ends.
//!
//! [`push_reply`] prints what a line gives, through an [`OutBuffer`](line_texts::OutBuffer), and
//! takes no memory; but of samples of many traces, which are looked at while they are printed,
//! [`push_section_head`] and [`push_section_row`] print the lines, and [`section_end`] is what
//! stands behind them. [`RunEnd`] is the whole report of a run.
#![tactic(auto)]

mod answer_texts;
mod float_problem_texts;
mod float_texts;
mod header_texts;
mod laws;
mod list_texts;
mod long_texts;
mod problem_texts;
mod reply;
mod report_texts;
mod run_end;
mod section_texts;
mod stats_texts;
mod survey_texts;
mod table_texts;

pub use crate::laws::{answers_are_full_lines, float_answers_are_full_lines};
pub use crate::reply::{Reply, is_refusal, push_reply};
pub use crate::run_end::RunEnd;
pub use crate::section_texts::{push_section_head, push_section_row, section_end};
