//! Faults of a volume's headers: what does not agree with the file, with the first trace or with an
//! earlier trace. Positions of traces count from 1. A `Faults` runs with the traces of a volume;
//! `report` makes the list of faults from it and the records. `add`, `add_beside`, `from_records`
//! and `report` may take memory, and answer want of it only where a growth was refused in that
//! call; the other calls take none. The call that is named for a law does nothing: its contract is
//! the law.
#![tactic(auto)]

mod checks;
mod fault;
mod faults;
mod firsts;
mod head_facts;
mod laws;
mod report;

pub use crate::fault::Fault;
pub use crate::faults::Faults;
pub use crate::head_facts::HeadFacts;
pub use crate::laws::once_is_not_repeated;
pub use room::OutOfMemory;
