//! Laws of edits, queries and reports: what holds of them after any edit, or any list of edits.
//! Each is the contract of a call that does nothing and takes no memory; its statement stands in
//! `specs/`, or in those of the crate that has its words.
#![tactic(auto)]

mod kept_laws;
mod laws;
mod live_laws;
mod number_laws;
mod read_laws;
mod sort_laws;

pub use crate::kept_laws::kept_slices_stay;
pub use crate::laws::{
    answers_from_scratch, reads_what_was_set, replies_from_scratch, set_leaves_the_rest, stays_cut,
    steps_stay_cut,
};
pub use crate::live_laws::{running_values_show_the_reports, totals_are_of_all_samples};
pub use crate::number_laws::{
    compute_is_its_sets, compute_of_a_number_is_renumber, renumber_is_its_sets, resize_keeps_bytes,
    resize_keeps_samples, resize_leaves_the_rest,
};
pub use crate::read_laws::{memory_reads_all, refused_edits_change_nothing, rules_tell_of_no_read};
pub use crate::sort_laws::{
    rows_stand_in_order, sort_keeps_traces, sort_puts_rows_in_order, sorted_table_is_in_order,
};
