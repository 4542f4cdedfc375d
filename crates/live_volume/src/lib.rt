//! One volume under edits, and what is asked of it.
//!
//! Contracts see a [`LiveVolume`] as its state and a count of its looks at traces. The state is the
//! parts of the file as they are now, the field map in force, and the reading and the limits under
//! which the file was loaded. Traces count from 1, bytes in a header from 1, samples of a trace
//! from 0. A refused edit or query leaves the state as it is.
//!
//! Beside the parts a bench holds the record of each trace, and the grid, the ranges, the totals
//! and the triples that have counted them. Each edit keeps them those of the traces as they are, so
//! a report looks at no trace; a slice alone looks at each, and the queries about the headers of
//! many traces at those that they are asked about.
//!
//! The bytes that were loaded may stay on disk. A look at a trace reads them there, and is refused
//! where the read fails (E14) or shows that the file is another than was loaded (E15); the edit or
//! query is refused then, and nothing is changed. What is claimed of contents is claimed where each
//! read since the load gave the bytes that the load read (`HaveAgreed`): always in memory. Lengths
//! and counts are claimed in any case, so that no call fails whatever a read gives.
//!
//! `load` takes memory for the file's bytes, the list of its traces, the six geometry names and the
//! records with what has counted them; `apply` for `Set`, `Map`, `MapAs`, `Patch`, `Blank`, `Copy`,
//! `Move`, `MoveBlock`, `Resize`, `Renumber`, `Compute`, `Sort` and `OfChosen` alone; `ask` for
//! `Survey` and for answers that are texts or lists alone: `Line`, `Lines`, `Stanzas`, `Fields`,
//! `Grid`, `Inlines`, `Crosslines`, `Histogram`, `Slice`, `Faults`, `Problems`, `Table`, `Find`,
//! `Header`, `Extremes` and `OfChosen`. Each gives up for want of memory only where a growth was
//! refused in that call.
#![tactic(auto)]

mod block_edit;
mod chosen_edits;
mod computed_edits;
mod declaring;
mod fill_edit;
mod kept_slices;
mod live_volume;
mod mappings;
mod number_edits;
mod on_disk;
mod report_queries;
mod sort_edit;
mod swap_edit;
mod trace_edits;
mod volume_edits;

pub use crate::live_volume::LiveVolume;
pub use bench_rules::{
    Answer, AskFault, Edit, Extremes, Field, Info, Items, Mapping, Operand, Operator, Query,
    Refusal, Table, Text,
};
