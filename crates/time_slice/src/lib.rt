//! Time slices: the sample of one number of each trace that has it, by inline, crossline and
//! position. Positions of traces count from 1, samples from 0. `rows` makes a slice of a volume
//! under edits, beside whose traces their records stand. A `SliceCache` keeps the slices that were
//! asked last, and answers them again without a look at the traces; who edits the volume has it
//! forget those that change. Both take memory and look at traces. They may be refused for want of
//! memory, only where a growth was refused in that call, or, where the bytes of the volume are on
//! disk, because a trace could not be read (`SliceFault`). `slice_answer` is the answer to a query
//! for a slice. The calls that are named for a law do nothing: their contract is the law.
//!
//! The rows of a slice are claimed where each read since the load gave the bytes that the load read
//! (`HaveAgreed`). That each sample is one of the format's, and which slices are kept, is claimed
//! in any case.
#![tactic(auto)]

mod answer;
mod cell_walk;
mod cells_ahead;
mod kept_rows;
mod laws;
mod of_volume;
mod slice_cache;
mod slice_fault;

pub use crate::answer::slice_answer;
pub use crate::laws::{
    asked_stays_right, at_most_one_slice, forgotten_stays_right, numbers_after_asked,
    numbers_after_forgotten, right_of_records, rows_are_of_traces, rows_come_back, slice_is_slice,
};
pub use crate::of_volume::rows;
pub use crate::slice_cache::SliceCache;
pub use crate::slice_fault::SliceFault;
pub use room::OutOfMemory;
