//! A file that is loaded, until it is an [`Overlay`](edit_overlay::Overlay) of its traces with a
//! payload beside each. Traces count from 1.
//!
//! A file comes in as a [`Loading`], which shows its traces one after another and takes a payload
//! for each; once each has one, it is an overlay. A [`Passing`] does so with a file that stays on
//! disk, in one pass over it, by blocks; where it is refused, a
//! [`PassFault`](edit_overlay::PassFault) has the bytes that were read.
//!
//! `load` takes memory for the file's bytes, and like `from_bytes` for a slot for each trace;
//! `push` for the trace's place in the order, and for the extent of a trace of 2^32 bytes or more.
//! Each of them may be refused for want of memory, and then nothing is changed. The calls of a
//! [`Passing`] take memory for the longest part of the file that is shown at once, and for the
//! table of its traces. Each is refused for want of memory only where a growth was refused in that
//! call. No other call takes any.
#![tactic(auto)]

mod loading;
mod pass_reads;
mod passing;
mod reading_in;

pub use crate::loading::Loading;
pub use crate::passing::Passing;
