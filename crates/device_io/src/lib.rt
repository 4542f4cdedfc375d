//! Readers and writers that count their failures, and two for tests that go by steps and then fail.
//!
//! `Source` and `Sink` pass on what the reader or writer inside tells. An `Err` of one read or
//! write has taken and added nothing. `Source::read_up_to` reads to the end, `Sink::write_all`
//! writes all bytes; an `Err` of `write_all` names how many bytes were taken, and the contract of
//! `read_up_to` bounds how many a refused one took. `read_up_to` alone takes memory.
#![tactic(auto)]

mod failed;
mod read_fault;
mod sink;
mod source;
mod step_reader;
mod step_writer;
mod write_fault;

pub use crate::failed::Failed;
pub use crate::read_fault::ReadFault;
pub use crate::sink::Sink;
pub use crate::source::Source;
pub use crate::step_reader::StepReader;
pub use crate::step_writer::StepWriter;
pub use crate::write_fault::WriteFault;
