//! One volume under edits, and what is asked of it.
//!
//! Contracts see a [`Bench`] as its state, a count of its looks at traces and the numbers of the
//! slices that it keeps. The state is the parts of the file as they are now, the field map in
//! force, and the reading and the limits under which the file was loaded. Traces count from 1,
//! bytes in a header from 1, samples of a trace from 0. A refused edit or query leaves the state
//! and the kept slices as they are.
//!
//! A query for samples of many traces (`Samples`) is answered by which samples of which traces they
//! are; who tells them looks at one trace after another (`look`).
//!
//! A bench holds a volume whose reports follow each edit, which it lends (`live_volume`), and
//! beside it the last 8 slices that were asked. A slice stays kept as long as no edit can have
//! changed it, and is then answered without a look at any trace.
//!
//! `load` takes memory for the file's bytes, the list of its traces, the six geometry names, the
//! records with what has counted them, and room for kept slices; `apply` for `Set`, `Map`,
//! `MapAs`, `Patch`, `Blank`, `Copy`, `Move`, `MoveBlock`, `Resize`, `Renumber`, `Compute`, `Sort`
//! and `OfChosen` alone; `ask` for `Survey` and for answers that are texts or lists alone: `Line`,
//! `Lines`, `Stanzas`, `Fields`, `Grid`, `Inlines`, `Crosslines`, `Histogram`, `Slice`, `Faults`,
//! `Problems`, `Table`, `Find`, `Header`, `Extremes` and `OfChosen`.
#![tactic(auto)]

mod bench;
mod changes;

pub use crate::bench::Bench;
pub use bench_rules::{
    Answer, AskFault, Chosen, ChosenEdit, ChosenQuery, Comparison, Condition, Edit, Extremes,
    Field, FloatTraceStatistics, Info, Items, Mapping, Operand, Operator, Query, Refusal,
    SampleRange, Section, Side, Table, Text, TraceStatistics,
};
