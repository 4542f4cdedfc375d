//! What edits and queries of a volume mean: the types of both, of their answers and refusals, which
//! refusal comes first, and which bytes an edit gives. The definitions of all of it stand in
//! `specs/`; the bench above holds a volume and follows them.
//!
//! Traces count from 1, bytes in a header from 1, samples of a trace from 0. No call takes memory
//! but `samples_bytes`, `repeated_sample`, `joined`, `zeros`, `resized` and `values_bytes`.
#![tactic(auto)]

mod answer;
mod ask_fault;
mod binary_header;
mod calculation;
mod chosen;
mod chosen_edit;
mod chosen_query;
mod comparison;
mod computation;
mod condition;
mod edit;
mod extremes;
mod field;
mod float_statistics;
mod header_field;
mod info;
mod items;
mod location;
mod mapping;
mod mappings;
mod of_volume;
mod operand;
mod operator;
mod problem_line;
mod query;
mod refusal;
mod renumber;
mod resize;
mod row;
mod sample_fact;
mod sample_range;
mod samples;
mod section;
mod side;
mod side_value;
mod table;
mod term;
mod test;
mod test_side;
mod text;
mod text_lines;
mod trace_bytes;
mod trace_statistics;

pub use crate::answer::Answer;
pub use crate::ask_fault::AskFault;
pub use crate::binary_header::{binary_offset, binary_value, place_in_binary, set_bin_refusal};
pub use crate::calculation::calculate;
pub use crate::chosen::Chosen;
pub use crate::chosen_edit::ChosenEdit;
pub use crate::chosen_query::ChosenQuery;
pub use crate::comparison::{Comparison, compares};
pub use crate::computation::{admitted, after_step, computed_in, term_in, term_of};
pub use crate::condition::Condition;
pub use crate::edit::Edit;
pub use crate::extremes::Extremes;
pub use crate::field::Field;
pub use crate::float_statistics::FloatStatistics;
pub use crate::header_field::set_refusal;
pub use crate::info::Info;
pub use crate::items::Items;
pub use crate::location::Location;
pub use crate::mapping::Mapping;
pub use crate::mappings::bindings;
pub use crate::of_volume::{
    float_format, has_float_samples, has_opaque_samples, has_trace, is_shot_file, place_in_trace,
    range_fault,
};
pub use crate::operand::Operand;
pub use crate::operator::Operator;
pub use crate::problem_line::ProblemLine;
pub use crate::query::Query;
pub use crate::refusal::Refusal;
pub use crate::renumber::{counted_up, renumber_refusal, values_bytes};
pub use crate::resize::{count_refusal, resized};
pub use crate::row::Row;
pub use crate::sample_fact::{SampleFact, fact_value};
pub use crate::sample_range::SampleRange;
pub use crate::samples::{
    float_stat, patch_refusal, sample_place, sample_value_refusal, samples_refusal,
    statistics_of_floats, trace_sample,
};
pub use crate::section::Section;
pub use crate::side::Side;
pub use crate::side_value::SideValue;
pub use crate::table::Table;
pub use crate::term::Term;
pub use crate::test::{Test, ask_values, lacks_values, meets_all, test_of};
pub use crate::test_side::TestSide;
pub use crate::text::Text;
pub use crate::text_lines::is_line;
pub use crate::trace_bytes::{
    all_fit, blank_length, joined, repeated_sample, samples_bytes, zeros,
};
pub use crate::trace_statistics::{FloatTraceStatistics, TraceStatistics};
