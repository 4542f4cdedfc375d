// What a trace's header agrees with, one call for each fault.
ghost use Rattle.std.specs.Prelude.{◌≡◌, pos, not, ◌&&◌, ◌||◌, ◌==◌, ◌++◌, OnOk, IsErr};
ghost use Rattle.std.specs.Ordering.{int_eq};
ghost use Rattle.room.specs.Refusals.{Rises};
ghost use Rattle.fault_live.specs.Faults.{is_scalar, is_revision_2, unless};

use crate::{Fault, HeadFacts};
use room::{OutOfMemory, Room};
use trace_record::Record;

// The fault at the end of the report, unless the test holds.
pub(crate) fn push_unless(
    room: &mut Room,
    report: &mut Vec<Fault>,
    holds: bool,
    fault: Fault,
) -> Result<(), OutOfMemory>
    ensures items { OnOk result (report.new.items ≡ report.old.items ++ unless holds fault) }
    ensures memory { Rises (IsErr result) room.old room.new }
{
    if !holds {
        room.told_back(report.push(fault))?;
    }
    Ok(())
}

// Bytes 5-8 are the trace's position.
pub(crate) fn has_its_position(trace: &Record, position: u32) -> bool
    ensures { result ≡ int_eq trace.now.sequence (pos position) }
{
    i64::from(trace.sequence) == i64::from(position)
}

// Bytes 115-116 are 0 or the trace's number of samples.
pub(crate) fn has_its_samples(trace: &Record) -> bool
    ensures { result ≡ (trace.now.samples_field == 0 ||
        trace.now.samples_field == trace.now.number) }
{
    trace.samples_field == 0 || u32::from(trace.samples_field) == trace.number
}

// Bytes 117-118 are 0 or the binary header's interval.
pub(crate) fn has_the_interval(trace: &Record, head: &HeadFacts) -> bool
    ensures { result ≡ (trace.now.interval == 0 || trace.now.interval == head.now.interval) }
{
    trace.interval == 0 || trace.interval == head.interval
}

// The coordinate scalar is one of the standard's.
pub(crate) fn has_a_scalar(trace: &Record) -> bool
    ensures { result ≡ is_scalar trace.now.scalar }
{
    let scalar = trace.scalar;
    scalar == 0
        || scalar == 1
        || scalar == 10
        || scalar == 100
        || scalar == 1000
        || scalar == 10000
        || scalar == -1
        || scalar == -10
        || scalar == -100
        || scalar == -1000
        || scalar == -10000
}

// Bytes 89-90 are the first trace's.
pub(crate) fn has_the_units(trace: &Record, units: i16) -> bool
    ensures { result ≡ int_eq trace.now.units units }
{
    trace.units == units
}

// The file is of revision 2.0.
pub(crate) fn is_of_revision_2(head: &HeadFacts) -> bool
    ensures { result ≡ is_revision_2 head.now }
{
    head.major == 2 && head.minor == 0
}

// The trace has a known name, or the file is of another revision than 2.0.
pub(crate) fn has_a_name(trace: &Record, head: &HeadFacts) -> bool
    ensures { result ≡ (not (is_revision_2 head.now) || trace.now.has_known_name) }
{
    !is_of_revision_2(head) || trace.has_known_name
}

// Bytes 3513-3520 are 0 or the number of traces, or the file is of another revision than 2.0.
pub(crate) fn has_its_count(head: &HeadFacts, traces: u32) -> bool
    ensures { result ≡ (not (is_revision_2 head.now) || head.now.trace_count == 0 ||
        head.now.trace_count == traces) }
{
    !is_of_revision_2(head) || head.trace_count == 0 || head.trace_count == u64::from(traces)
}
