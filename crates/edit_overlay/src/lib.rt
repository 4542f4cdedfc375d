//! A volume under edits: the bytes that were loaded, and what edits laid over them; and beside each
//! trace a value of the caller's, its payload.
//!
//! Contracts see an [`Overlay`] as the parts of its file (head, textual header, binary header,
//! extended textual headers, traces and data trailer records), the payloads of its traces and the
//! number of looks at them, and beside parts and payloads as they are those that they would be with
//! the edit that is prepared. Traces count from 1, bytes of a trace from 0.
//!
//! The loaded bytes never change, in memory or on disk. The traces stand in a `TraceStore`. A save
//! writes the parts one behind the other, neighbouring ranges of the loaded bytes together, by
//! pieces as long as can be lent at once, and joins nothing in memory.
//!
//! `volume_loading` makes an overlay of a file ([`Overlay::new`]). Where a file that stays on disk
//! is refused, a [`PassFault`] has the bytes that were read.
//!
//! `prepare_put`, `prepare_put_each` and `prepare_put_over` take memory for the runs of the traces
//! that they change; `insert` for one slot, for what holds its bytes, and for room in the order,
//! `move_to` and `prepare_move` for room in the order. Each of them may be refused for want of
//! memory, only where a growth was refused in that call, and then nothing is changed. No other call
//! takes any.
//!
//! A put or a move has two parts for a caller that has to show its outcome first, or to take memory
//! elsewhere too: `prepare_put`, `prepare_put_each`, `prepare_put_over` and `prepare_move` take all
//! the memory and change nothing, `look_prepared` shows a trace as it would be, and `commit`, which
//! cannot fail, makes the edit, as `commit_with`, which gives a trace its payload too; `discard`
//! drops it. An overlay holds one such edit at a time, and any other edit drops it.
//!
//! `look` and `look_prepared` show a trace in the pieces in which it is held. Looks are counted:
//! contracts can say how often traces were read. Payloads are no look.
//!
//! What is claimed of a trace's bytes is claimed where each read since the load gave the bytes that
//! the load read (`HaveAgreed`); lengths, counts and what stays as it was, in any case. Of bytes in
//! memory nothing is open: they are sure, and no read of them is refused.
#![tactic(auto)]

mod bytes;
mod laid;
mod overlay;
mod pass_fault;
mod save_fault;
mod waiting;
mod writing_out;

pub use crate::bytes::array_at;
pub use crate::overlay::Overlay;
pub use crate::pass_fault::PassFault;
pub use crate::save_fault::SaveFault;
pub use base_file::ReadFault;
pub use room::OutOfMemory;
pub use trace_store::{Column, Payloads};
