//! The script language: lines into commands.
//!
//! A script is lines ended by a line feed; the last may lack it, and one carriage return at a
//! line's end is dropped. Words are separated by blanks and tabs. A line without words, or whose
//! first word begins with `#`, prints nothing; each other line prints its answer, one line or a
//! list of lines.
//!
//! Behind a command on a range of traces, and `where`, conditions may stand, with `and` between
//! them: the command is then about those of the traces that meet all of them.
//!
//! [`parse_line`] reads one line, and takes memory only where its command holds a text or a list;
//! it gives up for want of it only where a growth was refused in that call. [`session_word`] tells
//! what a line says to a session itself: `save` is no command of a script.
#![tactic(auto)]

mod chosen;
mod command;
mod compute_command;
mod conditions;
mod fields;
mod header_commands;
mod line_fault;
mod lines;
mod many_commands;
mod map_command;
mod move_command;
mod numbers;
mod parse;
mod range_command;
mod ranges;
mod report_commands;
mod samples_command;
mod session_words;
mod sort_command;
mod split;
mod swap_command;
mod trace_commands;
mod words;

pub use crate::command::Command;
pub use crate::line_fault::LineFault;
pub use crate::lines::{Lines, strip_return};
pub use crate::parse::parse_line;
pub use crate::session_words::{SessionWord, session_word};
pub use crate::split::split_once;
