//! The traces of a volume: an order of ids, and under each id a slot with the bytes that the trace
//! had, the runs of bytes that puts laid over them, and one value of the caller's, its payload.
//!
//! A slot's bytes are a part of the loaded file, which is in memory or on disk and never changes,
//! or bytes of its own. The store knows no refusals of a load, and of a payload only that it is
//! copied. Contracts see a [`TraceStore`] as the list of its traces, the list of the bytes under
//! their runs, and the list of their payloads, in the order of the ids. Traces count from 1, bytes
//! of a trace from 0.
//!
//! A trace is read first (`fetch`), and shown then (`shown`). What is shown has the trace's length
//! and is a whole trace, whatever a file on disk gives; it is the trace where each read since the
//! load gave the bytes of the load, and in memory always.
//!
//! A store may stand over a file that is still being read, from its front to its end (`hold`): what
//! was read and is not taken yet is in a [`Window`]. More bytes change no trace.
//!
//! An edit has two parts: what is [`Prepared`] takes all the memory and changes nothing, and
//! `commit`, which takes none and cannot fail, makes the edit. A [`Column`] lends the payloads
//! alone. A look at a trace is refused with a `ReadFault`, an edit with `OutOfMemory`, only where a
//! growth was refused in that call; then nothing is changed.
#![tactic(auto)]

mod base;
mod column;
mod deleting;
mod layers;
mod laying;
mod loaded;
mod parts;
mod payloads;
mod prepared;
mod reading_ahead;
mod slot;
mod store;
mod whole;
mod window;

pub use crate::base::Base;
pub use crate::column::Column;
pub use crate::layers::{Layers, NewRuns};
pub use crate::parts::part;
pub use crate::payloads::Payloads;
pub use crate::prepared::{Prepared, TraceMove, TracePut, TraceRuns};
pub use crate::slot::Slot;
pub use crate::store::TraceStore;
pub use crate::window::Window;
pub use room::OutOfMemory;
