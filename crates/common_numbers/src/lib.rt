//! The number that stands most often in a list. `commonest` takes memory for a copy of the list,
//! but where all are one number, and gives up only where that was refused. The call that is named
//! for a law does nothing: its contract is the law.
#![tactic(auto)]

mod laws;
mod runs;

pub use crate::laws::commonest_is_found;
pub use crate::runs::commonest;
