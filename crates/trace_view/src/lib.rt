//! One trace of a SEG-Y file as a view: the bytes that it has in the file, with runs of changed
//! bytes laid over them, borrowed in pieces and never joined. A `TraceView` gives the trace's
//! length, its headers and its sample bytes as pieces, the number at a place of a header, and the
//! values of its samples. Where the trace has no such header or sample, or no value there, the
//! answer is None.
//! `changed_length` and `overlaid_length` tell the length that changed headers would give the
//! trace. `put_run` lays one more run over others.
//!
//! `put_run` takes memory, and gives up only where a growth was refused in that call; the other
//! calls take none. Bytes of a header count from 1, as in the standard, header extensions from 1,
//! and samples from 0; the place of a run, and any other place in the whole trace, is counted from
//! 0.
#![tactic(auto)]

mod cursor;
mod gap;
mod lengths;
mod overlaid;
mod part;
mod pieces;
mod put;
mod run;
mod samples;
mod stretches;
mod view;

pub use crate::lengths::overlaid_length;
pub use crate::part::Part;
pub use crate::pieces::Pieces;
pub use crate::put::put_run;
pub use crate::run::Run;
pub use crate::samples::Samples;
pub use crate::view::TraceView;
pub use room::OutOfMemory;
