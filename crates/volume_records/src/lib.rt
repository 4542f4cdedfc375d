//! The records of the traces of a volume under edits: of all of them as a file is loaded, with the
//! running reports made of them (`with_records`), all again under another map (`remake`), of one
//! trace as it would be with the edit that is prepared (`prepared_record`; `prepared_headers`,
//! which reads no sample; `laid_headers`, which reads nothing where the record that the trace had
//! tells the new one; `record_after`, whichever of these serves), of traces that follow one another
//! (`prepared_records`, which reads no more; `prepared_whole_records`, which reads the samples of
//! each), and of a whole trace in memory that no volume holds yet (`record_of_bytes`). An edit that
//! is prepared is made with the new records, which the reports then count (`commit_with_record`,
//! `commit_with_records`).
//!
//! The record that a trace had tells the one with bytes laid over its headers where these share
//! none with the coordinate scalar and with bytes 89-90, 115-118 and 233-240; and with each of
//! inline, crossline, offset, x, y and the sequence number (bytes 5-8) share none, or are exactly
//! its bytes. `laid_headers`, `record_after` and `prepared_records` look at no trace then.
//!
//! Traces count from 1. Each call that looks at a trace of the volume says how often; a look
//! leaves the volume and what is prepared as they are. These alone take memory, and may give up for
//! want of it, only where a growth was refused in that call: `with_records`,
//! `with_records_on_disk`, `remake`, `prepared_records`, `prepared_whole_records`,
//! `commit_with_record` and `commit_with_records`. Where the bytes of the volume are on disk a look
//! may be refused too: `prepared_record`, `prepared_headers`, `laid_headers` and `record_after`
//! tell the `ReadFault`, `remake`, `prepared_records` and `prepared_whole_records` a
//! `RecordsFault`.
//!
//! That records are those of the traces is claimed where each read since the load gave the bytes
//! that the load read (`HaveAgreed`); how many there are, and how many samples they tell, in any
//! case.
#![tactic(auto)]

mod committing;
mod laid;
mod of_pass;
mod of_trace;
mod of_traces;
mod of_volume;
mod records_fault;
mod remaking;

pub use crate::committing::{commit_with_record, commit_with_records};
pub use crate::of_pass::with_records_on_disk;
pub use crate::of_trace::{
    laid_headers, prepared_headers, prepared_record, record_after, record_of_bytes,
};
pub use crate::of_traces::{prepared_records, prepared_whole_records};
pub use crate::of_volume::with_records;
pub use crate::records_fault::RecordsFault;
pub use crate::remaking::{remake, set_records};
pub use room::OutOfMemory;
