//! What is told of refused lines beside their answers: where each stands, and what may be meant.
//!
//! [`Notes`] keeps the first 20 refused lines of a run in a room of fixed size, and counts all.
//! [`NoteLine`] is what is told of one of them, [`LoadNote`] of a refused file; each is one line,
//! without its line feed. What may be meant is one of the commands ([`COMMANDS`], each with its
//! [`form`]), of the names of header fields ([`TRACE_NAMES`], [`BINARY_NAMES`]), or of the words
//! of `range`; of a refused file also readings that would cut it evenly ([`Fit`]). [`Look`] is what
//! the head of a file says, beside what its length says. Nothing here takes memory, and no answer
//! depends on it. Lines count from 1, and bytes of a header from 1.
#![tactic(auto)]

mod commands;
mod compute_hint;
mod condition_hint;
mod fault;
mod fit;
mod hint;
mod line_hint;
mod load_note;
mod look;
mod names;
mod near;
mod note;
mod note_line;
mod notes;
mod number_hint;
mod shown;
mod torn_file;
mod words;

pub use crate::commands::{COMMANDS, form};
pub use crate::fault::{Fault, fault_of};
pub use crate::fit::Fit;
pub use crate::load_note::LoadNote;
pub use crate::look::Look;
pub use crate::names::{BINARY_NAMES, SAMPLE_FACTS, TRACE_NAMES};
pub use crate::note::Note;
pub use crate::note_line::NoteLine;
pub use crate::notes::Notes;
pub use crate::torn_file::TornFile;
