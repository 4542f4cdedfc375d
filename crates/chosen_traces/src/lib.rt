//! The traces of a volume that conditions choose: their list, what is told of them, and the
//! exchanges that bring them to the front of the file, in their order, and back again, so that an
//! edit of traces that follow one another is one of any traces.
//!
//! Traces count from 1. Each call takes memory in step with the list, and gives up for want of it
//! only where a growth was refused in that call. `choose` looks once at each
//! trace of its range where the records beside the traces do not tell all numbers of the
//! conditions, else at none, and `chosen_answer` then once at most at each that is chosen; they
//! leave the volume and what is prepared as they are. Where the bytes of the volume are on disk,
//! both are also refused where a trace could not be read, E14 or E15, and what they say of numbers
//! holds if each read since the load agreed.
#![tactic(auto)]

mod answers;
mod by_records;
mod choosing;
mod exchanges;
mod record_tests;
mod retelling;

pub use crate::answers::chosen_answer;
pub use crate::choosing::choose;
pub use crate::exchanges::{exchanges_back, exchanges_to_front};
pub use crate::retelling::retold;
