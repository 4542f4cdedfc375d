ghost use Rattle.std.specs.Prelude.{◌≡◌, ◌++◌, Some, map, OnOk, IsErr};
ghost use Rattle.room.specs.Refusals.{Rises};
ghost use Rattle.trace_record.specs.Facts.{facts_of};
ghost use Rattle.fault_live.specs.Faults.{head_faults, own_faults, among_faults, first_units, repeat_fault, unless, is_scalar};
ghost use Rattle.fault_live.specs.declared.fault.Fault.TheVariants.{Scalar};

use crate::checks::{
    has_a_name, has_a_scalar, has_its_count, has_its_position, has_its_samples, has_the_interval,
    has_the_units, push_unless,
};
use crate::{Fault, HeadFacts};
use record_table::Records;
use room::{OutOfMemory, Room};
use trace_record::Record;

// The coordinate units of the first trace.
pub(crate) fn units_of_first(records: &Records) -> i16
    ensures { result ≡ first_units (map facts_of records.now) }
{
    match records.get(0) {
        Some(trace) => trace.units,
        None => 0,
    }
}

// F7 and F8.
pub(crate) fn push_head(
    room: &mut Room,
    report: &mut Vec<Fault>,
    head: &HeadFacts,
    traces: u32,
) -> Result<(), OutOfMemory>
    ensures items { OnOk result (report.new.items ≡ report.old.items ++ head_faults head.now
        traces) }
    ensures memory { Rises (IsErr result) room.old room.new }
{
    push_unless(
        room,
        report,
        has_its_count(head, traces),
        Fault::TraceCount(head.trace_count, traces),
    )?;
    push_unless(room, report, head.lines == 0, Fault::TextLines(head.lines))?;
    Ok(())
}

// F6, where the first position is before the trace's.
fn push_repeated(
    room: &mut Room,
    report: &mut Vec<Fault>,
    position: u32,
    first: u32,
) -> Result<(), OutOfMemory>
    ensures items { OnOk result (report.new.items ≡ report.old.items ++ repeat_fault position
        (Some first)) }
    ensures memory { Rises (IsErr result) room.old room.new }
{
    if first < position {
        room.told_back(report.push(Fault::Repeated(position, first)))?;
    }
    Ok(())
}

// F1 to F3.
fn push_own(
    room: &mut Room,
    report: &mut Vec<Fault>,
    head: &HeadFacts,
    position: u32,
    trace: &Record,
) -> Result<(), OutOfMemory>
    ensures items { OnOk result (report.new.items ≡ report.old.items ++ own_faults head.now position
        (facts_of trace.now)) }
    ensures memory { Rises (IsErr result) room.old room.new }
{
    push_unless(
        room,
        report,
        has_its_position(trace, position),
        Fault::Sequence(position, trace.sequence),
    )?;
    push_unless(
        room,
        report,
        has_its_samples(trace),
        Fault::Samples(position, trace.samples_field, trace.number),
    )?;
    push_unless(
        room,
        report,
        has_the_interval(trace, head),
        Fault::Interval(position, trace.interval, head.interval),
    )?;
    Ok(())
}

// F5, F6 and F9.
fn push_among(
    room: &mut Room,
    report: &mut Vec<Fault>,
    head: &HeadFacts,
    units: i16,
    first: u32,
    position: u32,
    trace: &Record,
) -> Result<(), OutOfMemory>
    ensures items { OnOk result (report.new.items ≡ report.old.items ++ among_faults head.now units
        (Some first) position (facts_of trace.now)) }
    ensures memory { Rises (IsErr result) room.old room.new }
{
    push_unless(
        room,
        report,
        has_the_units(trace, units),
        Fault::Units(position, trace.units, units),
    )?;
    push_repeated(room, report, position, first)?;
    push_unless(room, report, has_a_name(trace, head), Fault::Name(position))?;
    Ok(())
}

// F1 to F6 and F9 of a trace whose inline, crossline and offset stand first at this position.
pub(crate) fn push_trace(
    room: &mut Room,
    report: &mut Vec<Fault>,
    head: &HeadFacts,
    units: i16,
    first: u32,
    position: u32,
    trace: &Record,
) -> Result<(), OutOfMemory>
    ensures items { OnOk result (report.new.items ≡ report.old.items ++ own_faults head.now position
        (facts_of trace.now) ++ unless (is_scalar trace.now.scalar)
        (Scalar position trace.now.scalar) ++ among_faults head.now units (Some first) position
        (facts_of trace.now)) }
    ensures memory { Rises (IsErr result) room.old room.new }
{
    push_own(room, report, head, position, trace)?;
    push_unless(
        room,
        report,
        has_a_scalar(trace),
        Fault::Scalar(position, trace.scalar),
    )?;
    push_among(room, report, head, units, first, position, trace)?;
    Ok(())
}
