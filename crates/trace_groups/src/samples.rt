// Traces whose samples are suspect, dead and loud ones, by one pass over the records.
ghost use Rattle.std.specs.Prelude.{◌≡◌, ◌++◌, ◌<◌, ◌^◌, IfOk, OnOk, length, map, filter_map, option_map, option_to_list, IsErr};
ghost use Rattle.room.specs.Refusals.{Rises};
ghost use Rattle.trace_record.specs.Facts.{facts_of};
ghost use Rattle.trace_groups.specs.Groups.{group_of, group_in};
ghost use Rattle.trace_groups.specs.Loud.{amount_of as amount_in, loud_marks};
ghost use Rattle.trace_groups.specs.Suspects.{dead_marks};
ghost use Rattle.trace_groups.specs.declared.problem.TraceProblem.TheVariants.{Dead as dead, Loud as loud};

use crate::dead::Dead;
use crate::loud::{amount_of, loud_group};
use crate::run_tally::RunTally;
use crate::suspects::Suspicion;
use crate::{TraceGroup, TraceProblem};
use record_table::Records;
use room::{OutOfMemory, Room};

/// S12 and S13. The first group has the dead traces: those with two samples or more that all have
/// one value. The second one has the loud traces: those of which a sample is more than 100 times as
/// far from 0 as the lower median of such greatest amounts, over the traces that have samples with
/// values; none where this median is 0. None of either where samples have no values.
///
/// Where samples are floats those that are no number do not count, infinities are numbers, and -0
/// has the value of 0; for S13 traces count of which two samples or more are numbers, amounts are
/// compared exactly, and none is loud where the median is infinite.
///
/// One pass, and a second one only where a trace is loud. Takes 8 bytes a trace, and memory for the
/// groups; refused for want of it alone.
pub fn sample_groups(
    room: &mut Room,
    records: &Records,
    floats: bool,
) -> Result<(Option<TraceGroup>, Option<TraceGroup>), OutOfMemory>
    requires { length records.now < 2 ^ 32 }
    ensures dead { IfOk result (λ groups. option_map group_in groups.0 ≡
        group_of dead (dead_marks floats (map facts_of records.now))) }
    ensures loud { IfOk result (λ groups. option_map group_in groups.1 ≡
        group_of loud (loud_marks floats (map facts_of records.now))) }
    ensures memory { Rises (IsErr result) room.old room.new }
{
    let (dead, mut amounts) = dead_and_amounts(room, records, floats)?;
    let loud = loud_group(room, records, floats, amounts.as_mut_slice())?;
    Ok((dead, loud))
}

// S12, and the greatest amounts of the traces that have one, in order.
fn dead_and_amounts(
    room: &mut Room,
    records: &Records,
    floats: bool,
) -> Result<(Option<TraceGroup>, Vec<u64>), OutOfMemory>
    requires { length records.now < 2 ^ 32 }
    ensures dead { IfOk result (λ made. option_map group_in made.0 ≡
        group_of dead (dead_marks floats (map facts_of records.now))) }
    ensures amounts { IfOk result (λ made. made.1.items ≡
        filter_map (amount_in floats) (map facts_of records.now)) }
    ensures memory { Rises (IsErr result) room.old room.new }
{
    let dead = Dead { floats };
    let mut tally = RunTally::new(room.alloc());
    let mut amounts = room.told(Vec::with_capacity(room.alloc(), records.len()))?;
    let mut position = 0;
    for trace in records.iter() {
        position += 1;
        tally.push_any(room, position, dead.facts_in(&trace))?;
        push_amount(room, &mut amounts, amount_of(floats, &trace))?;
    }
    let group = tally.finish(room, TraceProblem::Dead)?;
    Ok((group, amounts))
}

// Puts the amount behind the others, where there is one.
fn push_amount(
    room: &mut Room,
    amounts: &mut Vec<u64>,
    amount: Option<u64>,
) -> Result<(), OutOfMemory>
    ensures items { OnOk result (amounts.new.items ≡ amounts.old.items ++ option_to_list amount) }
    ensures memory { Rises (IsErr result) room.old room.new }
{
    if let Some(amount) = amount {
        room.told_back(amounts.push(amount))?;
    }
    Ok(())
}
