//! What the edits of a volume changed of its loaded file, as pieces that a save writes into the
//! file itself: only the bytes that changed are written.
//!
//! [`edits_over`] tells whether the edits left the order, the number and the lengths of the traces
//! as they were, and is refused where they did not: an [`Unfit`] says which trace is the first that
//! is not at its place. Where they did, [`VolumeEdits`] are the pieces, walked as
//! `journal_save::Edits`: the textual and the binary header where they differ from the loaded ones,
//! and then for each trace the runs of bytes that lie over it. Laid over the loaded bytes they give
//! the bytes of the volume: that is the law of the crate.
//!
//! A file that was repaired is repaired again by [`FurtherEdits`], which put the loaded bytes back
//! where the earlier pieces went ([`heads_of`]), and then write those of the volume as it is now.
//!
//! [`Repaired`] says how a repair ended, and [`Attempt`] how one of a session did, of which a
//! [`Watcher`] is told.
//!
//! No call but `heads_of` takes memory; none reads the file or looks at a trace: runs and headers
//! are in memory. Traces count from 1, bytes from 0 in the file.
#![tactic(auto)]

mod attempt;
mod change;
mod further_edits;
mod heads;
mod in_place;
mod repaired;
mod runs_walk;
mod unfit;
mod volume_edits;

pub use crate::attempt::{Attempt, Watcher};
pub use crate::further_edits::FurtherEdits;
pub use crate::heads::{are_within, heads_of};
pub use crate::repaired::Repaired;
pub use crate::unfit::Unfit;
pub use crate::volume_edits::{VolumeEdits, edits_over};
