//! Laws of traces that are chosen: what holds of edits of them, and of queries about them.
//! Each is the contract of a call that does nothing and takes no memory; its statement stands in
//! `specs/`.
#![tactic(auto)]

mod edit_laws;
mod range_laws;
mod swap_laws;

pub use crate::edit_laws::{
    chosen_delete_is_its_deletes, chosen_delete_leaves_the_others, chosen_numbers_are_their_sets,
    fill_is_its_patches, none_chosen_changes_nothing,
};
pub use crate::range_laws::{
    chosen_of_a_range, compute_is_of_its_range, queries_are_of_their_range,
    renumber_is_of_its_range,
};
pub use crate::swap_laws::{
    swap_again_is_not_refused, swap_back_is_not_refused, swap_is_its_sets, swap_twice_is_nothing,
};
