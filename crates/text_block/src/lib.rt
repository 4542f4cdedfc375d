//! A block of 3200 bytes as text: its code, its 40 lines of 80 characters, its stanzas. Blocks are
//! the textual file header, the extended textual file headers and the data trailer records of SEG-Y
//! revision 2.0.
//!
//! Lines and columns count from 1. `line` and `stanzas` take memory: `room` is their first
//! argument, and their only error is `OutOfMemory`, only where a growth was refused in that call.
//! The others take none.
#![tactic(auto)]

mod block;
mod characters;
mod code;
mod laws;
mod lines;
mod names;
mod shown;
mod text_fault;

pub use crate::block::{TEXT_BLOCK_BYTES, code_of, ends_text};
pub use crate::code::Code;
pub use crate::laws::shows_encoded;
pub use crate::lines::{encode_line, line};
pub use crate::names::stanzas;
pub use crate::text_fault::TextFault;
pub use room::OutOfMemory;
