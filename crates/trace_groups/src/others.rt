// Traces whose number in a field is not the one that most traces have there.
ghost use Rattle.std.specs.Prelude.{◌≡◌, ◌<◌, ◌^◌, IfOk, length, map, option_map, IsErr};
ghost use Rattle.room.specs.Refusals.{Rises};
ghost use Rattle.trace_record.specs.Facts.{facts_of};
ghost use Rattle.trace_groups.specs.Groups.{group_of, group_in, marks_of};
ghost use Rattle.trace_groups.specs.Others.{other_facts, other_marks, other_scalars};
ghost use Rattle.trace_groups.specs.declared.problem.TraceProblem.TheVariants.{OtherDelay, OtherScalar};

use crate::run_tally::RunTally;
use crate::{TraceGroup, TraceProblem};
use common_numbers::commonest;
use record_table::Records;
use room::{OutOfMemory, Room};

/// S4: the traces whose delay, bytes 109-110, is not the commonest one; of several commonest the
/// least counts. The delays in milliseconds, one for each trace in order. Takes 8 bytes a trace,
/// and memory for the group; refused for want of it alone.
pub fn delay_group(room: &mut Room, delays: &[i64]) -> Result<Option<TraceGroup>, OutOfMemory>
    requires { length delays.now < 2 ^ 32 }
    ensures group { IfOk result (λ group.
        option_map group_in group ≡ group_of OtherDelay (other_marks delays.now)) }
    ensures memory { Rises (IsErr result) room.old room.new }
{
    other_group(room, TraceProblem::OtherDelay, delays)
}

/// S3: the traces whose coordinate scalar, bytes 71-72, is not the commonest one; of several
/// commonest the least counts. Takes 16 bytes a trace, and memory for the group; refused for want
/// of it alone.
pub fn scalar_group(room: &mut Room, records: &Records) -> Result<Option<TraceGroup>, OutOfMemory>
    requires { length records.now < 2 ^ 32 }
    ensures group { IfOk result (λ group. option_map group_in group ≡
        group_of OtherScalar (other_scalars (map facts_of records.now))) }
    ensures memory { Rises (IsErr result) room.old room.new }
{
    let scalars = scalars_of(room, records)?;
    other_group(room, TraceProblem::OtherScalar, scalars.as_slice())
}

// The traces' coordinate scalars, in order.
fn scalars_of(room: &mut Room, records: &Records) -> Result<Vec<i64>, OutOfMemory>
    ensures scalars { IfOk result (λ scalars. scalars.items ≡ map (λ r. r.scalar) records.now) }
    ensures memory { Rises (IsErr result) room.old room.new }
{
    let made = records
        .iter()
        .map(|r| i64::from(r.scalar))
        .collect(room.alloc());
    room.told(made)
}

// The traces whose number is not the commonest one.
fn other_group(
    room: &mut Room,
    problem: TraceProblem,
    numbers: &[i64],
) -> Result<Option<TraceGroup>, OutOfMemory>
    requires { length numbers.now < 2 ^ 32 }
    ensures group { IfOk result (λ group.
        option_map group_in group ≡ group_of problem (other_marks numbers.now)) }
    ensures memory { Rises (IsErr result) room.old room.new }
{
    match commonest(room, numbers)? {
        Some(usual) => group_beside(room, problem, numbers, usual),
        None => Ok(None),
    }
}

// The traces whose number is not this one.
fn group_beside(
    room: &mut Room,
    problem: TraceProblem,
    numbers: &[i64],
    usual: i64,
) -> Result<Option<TraceGroup>, OutOfMemory>
    requires { length numbers.now < 2 ^ 32 }
    ensures group { IfOk result (λ group. option_map group_in group ≡
        group_of problem (marks_of (other_facts usual) numbers.now)) }
    ensures memory { Rises (IsErr result) room.old room.new }
{
    let mut tally = RunTally::new(room.alloc());
    let mut position = 0;
    for number in numbers {
        position += 1;
        tally.push_any(room, position, facts_beside(*number, usual))?;
    }
    tally.finish(room, problem)
}

// The number and the usual one, unless it is that.
fn facts_beside(number: i64, usual: i64) -> Option<(i128, i128)>
    ensures { result ≡ other_facts usual number }
{
    if number == usual {
        return None;
    }
    Some((i128::from(number), i128::from(usual)))
}
