//! The answers to queries for named header fields of a volume under edits: all of one trace, their
//! extremes over a range of traces or over listed ones, and those of a range or of listed ones
//! whose field has a number between two bounds.
//!
//! Traces count from 1. Each call looks once at each trace that it is asked about, and leaves the
//! volume and what is prepared as they are. Each takes memory in step with its answer (the lists of
//! `found_answer` and `found_among` grow by doubling), and is refused for want of it, E11, only
//! where a growth was refused in that call, and only where nothing else refuses it; but of listed
//! traces E11 may come in the place of E03.
//!
//! Where the bytes of the volume are on disk, each is also refused where a trace could not be read,
//! E14 or E15, and what it says of numbers holds if each read since the load agreed.
#![tactic(auto)]

mod all_extremes;
mod answers;
mod finds;
mod headers;
mod main_numbers;
mod names;
mod seen;

pub use crate::all_extremes::extremes_among;
pub use crate::answers::{extremes_answer, found_answer, header_answer};
pub use crate::finds::found_among;
pub use crate::names::named_places;
