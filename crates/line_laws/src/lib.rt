//! What holds of the lines of a script, whatever they are, as contracts of calls that do nothing
//! and take no memory.
#![tactic(auto)]

mod laws;

pub use crate::laws::lines_are_determined;
