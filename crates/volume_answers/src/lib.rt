//! The answers of queries over a volume under edits, its field map and its running reports, and the
//! first refusals of edits of one trace. Named header fields are answered by `header_answers`,
//! tables by `many_traces`, slices by `time_slice`.
//!
//! Each contract speaks of every state that fits what the call is lent: the volume of an overlay,
//! the pairs of a field map, the records beside the traces, or what a report has counted. So one
//! who holds these parts of a state answers its queries. No call changes them: of an overlay that
//! is lent to be looked at, the number of looks alone is another one then, and on disk whether each
//! read agreed. What is told of traces that were looked at holds if each did; in any case the
//! contracts tell what an edit has to know of a trace, as that its place lies inside.
//!
//! Traces and the lines of a block count from 1, samples of a trace from 0. A call takes memory
//! where it is lent a room, for an answer that is a text or a list, and gives up for want of it
//! only where a growth was refused in that call.
#![tactic(auto)]

mod file_answers;
mod of_headers;
mod refusals;
mod report_answers;
mod sample_answers;
mod stanzas;
mod text_answers;
mod trace_answers;

pub use crate::file_answers::{count_answer, fields_answer, get_bin_answer, info_answer};
pub use crate::of_headers::head_facts;
pub use crate::refusals::{blank_refusal, copy_refusal, move_refusal, patch_place, value_refusal};
pub use crate::report_answers::{
    cells, crosslines, faults, fold, geometry, histogram, inlines, range, stat, totals,
};
pub use crate::sample_answers::{faults_answer, totals_answer};
pub use crate::stanzas::add_stanzas;
pub use crate::text_answers::{code_answer, line_answer, lines_answer, stanzas_answer};
pub use crate::trace_answers::{geometry_answer, get_answer, sample_answer, stat_answer};
