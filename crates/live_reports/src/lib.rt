//! The reports that run with the records of a volume's traces: `LiveReports`, the `Grid`, `Ranges`,
//! `Totals` and `Faults` of a list of records, of which it holds none. The list stands in the table
//! of traces. Each call that changes what is counted is lent the list as it is, is told which
//! record is exchanged, comes or goes, and has then counted exactly the list as it will be. A
//! record that moves changes nothing. It knows nothing of bytes.
//!
//! Places count from 0. There are fewer than 2^32 records, with at most 2^40 samples together.
//! Calls that may take memory answer `OutOfMemory` only where a growth was refused in that call,
//! and then nothing has changed; `remove`, `take_back` and the calls that lend take none.
#![tactic(auto)]

mod counting;
mod exchanging;
mod live_reports;
mod values;

pub use crate::live_reports::{LiveReports, same_cells};
pub use room::OutOfMemory;
