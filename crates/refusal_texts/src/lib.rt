//! The lines that are printed for refusals: of a file, of a script, and of each line of a script or
//! a session. Each has the word `refused`, with what is refused in front of it where that is a file
//! or a script, and the code behind it. No call takes memory.
#![tactic(auto)]

mod refusal_lines;
mod script_fault;
mod session_fault;

pub use crate::refusal_lines::{
    ask_fault_line, line_fault_line, load_fault_line, refusal_line, script_fault_line,
    session_fault_line,
};
pub use crate::script_fault::ScriptFault;
pub use crate::session_fault::SessionFault;
