//! One SEG-Y file (revisions 0, 1 and 2.0) cut into its parts: the head that its binary header
//! gives, and where each trace lies. `head` and `cut` answer these, or why the file has none: the
//! first of L02 to L12 and L17 that holds of its head, else L13, L14 or L15 of the first trace that
//! is refused. A `Reading` says what is asked for beside the file's own bytes. `keeps` tells what a
//! reading takes for no trace. `front_length`,
//! `trace_length`, `extension_count` and `sample_count` tell of one trace, `extensions_by` and
//! `samples_by` of the numbers that its headers say. The calls that are named for a law do nothing:
//! their contract is the law.
//!
//! `cut` takes memory, for the list of the traces' places; the other calls take none. Bytes of
//! headers count from 1, as in the standard, and so do traces; the places of an `Extent` are
//! counted from 0.
#![tactic(auto)]

mod binary_header;
mod cutting;
mod extent;
mod file_cut;
mod file_head;
mod frames;
mod head_checks;
mod laws;
mod limits;
mod load_fault;
mod reading;
mod sizes;
mod text_headers;
mod walk;

pub use crate::cutting::cut;
pub use crate::extent::Extent;
pub use crate::file_cut::Cut;
pub use crate::file_head::Head;
pub use crate::frames::{
    extension_count, extensions_by, front_length, sample_count, samples_by, trace_length,
};
pub use crate::head_checks::{head, head_of_front};
pub use crate::laws::{
    at_most_one_cut, at_most_one_refusal, at_most_one_stuck, cut_or_refused, laid_is_joined,
    length_by_front, not_cut_and_refused, not_cut_and_stuck, splice_stays_cut,
};
pub use crate::limits::Limits;
pub use crate::load_fault::LoadFault;
pub use crate::reading::Reading;
pub use crate::sizes::{BINARY_HEADER_BYTES, FILE_HEADER_BYTES};
pub use crate::walk::{keeps, length_of_next};
