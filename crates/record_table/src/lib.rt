//! The records of the traces of a volume, in order, as they stand in the table of traces: `Records`
//! lends them from the column of payloads, each of 72 bytes, or their inlines and crosslines alone.
//! A `RecordList` holds records of its own in as many bytes each, as those that are to stand in the
//! table. A `Running` value counts records as they come and go, seen as their tally.
//!
//! `RecordList::with_capacity` and `push` take memory for the list. `Running::add` and `add_beside`
//! take memory only for a key that is not held; where a growth is refused they leave all as it was.
//! `Running::from_records` counts all at once, and takes memory for what it makes. Each of them
//! gives up only where a growth was refused in that call. No other call takes memory. Places count
//! from 0.
#![tactic(auto)]

mod cells_iter;
mod reach;
mod record_list;
mod records;
mod records_iter;
mod running;

pub use crate::cells_iter::CellsIter;
pub use crate::reach::Reach;
pub use crate::record_list::RecordList;
pub use crate::records::Records;
pub use crate::records_iter::RecordsIter;
pub use crate::running::Running;
pub use room::OutOfMemory;
