//! The headers of many traces of a volume under edits: the answer to a query for some fields of
//! each of a range or of listed ones as a table, the bytes of a number that is computed for each,
//! or of two numbers of each in the place of one another, where a range of samples begins in each,
//! and the exchanges that put traces in an order or move a block of them.
//!
//! Traces count from 1. Each call looks once at each trace that it is asked about, and leaves the
//! volume and what is prepared as they are. Each takes memory in step with its answer, and is
//! refused for want of it, E11, only where a growth was refused in that call, and only where
//! nothing else refuses it; but of listed traces E11 may come in the place of E03, and of two
//! numbers or of samples in the place of any refusal.
//!
//! Where the bytes of the volume are on disk, each is also refused where a trace could not be read,
//! E14 or E15, and what it says of numbers holds if each read since the load agreed.
#![tactic(auto)]

mod answers;
mod block;
mod computed;
mod filling;
mod formula;
mod places;
mod row;
mod sort;
mod sorting;
mod standing;
mod swapped;
mod tables;

pub use crate::answers::table_answer;
pub use crate::block::exchanges_to_move;
pub use crate::computed::computed_bytes;
pub use crate::filling::sample_places;
pub use crate::formula::have_terms;
pub use crate::places::have_places;
pub use crate::sort::{exchanges_to_sort, refusal_for};
pub use crate::swapped::{span, swapped_bytes};
pub use crate::tables::table_among;
