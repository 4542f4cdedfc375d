// Groups of suspect traces.
ghost use Rattle.std.specs.Prelude.{◌≡◌, ◌<◌, ◌^◌, IfOk, length, map, option_map, IsErr};
ghost use Rattle.room.specs.Refusals.{Rises};
ghost use Rattle.trace_record.specs.Facts.{facts_of};
ghost use Rattle.trace_groups.specs.Groups.{group_of, group_in, marks_of};
ghost use Rattle.trace_groups.specs.Suspects.{far_inlines, far_crosslines};
ghost use Rattle.trace_groups.specs.declared.problem.TraceProblem.TheVariants.{FarInline as far_inline, FarCrossline as far_crossline};

use crate::run_tally::RunTally;
use crate::suspects::{FarCrossline, FarInline, Suspicion};
use crate::{TraceGroup, TraceProblem};
use record_table::Records;
use room::{OutOfMemory, Room};

/// S5: the traces whose inline lies outside of the range from `near.0` to `near.1`; none where no
/// range is given. One pass. Takes memory for the group; refused for want of it alone.
pub fn far_inline_group(
    room: &mut Room,
    records: &Records,
    near: Option<(i32, i32)>,
) -> Result<Option<TraceGroup>, OutOfMemory>
    requires { length records.now < 2 ^ 32 }
    ensures group { IfOk result (λ group. option_map group_in group ≡
        group_of far_inline (far_inlines near (map facts_of records.now))) }
    ensures memory { Rises (IsErr result) room.old room.new }
{
    match near {
        Some(near) => group_by(room, TraceProblem::FarInline, records, &FarInline { near }),
        None => Ok(None),
    }
}

/// S6: the same of crosslines.
pub fn far_crossline_group(
    room: &mut Room,
    records: &Records,
    near: Option<(i32, i32)>,
) -> Result<Option<TraceGroup>, OutOfMemory>
    requires { length records.now < 2 ^ 32 }
    ensures group { IfOk result (λ group. option_map group_in group ≡
        group_of far_crossline (far_crosslines near (map facts_of records.now))) }
    ensures memory { Rises (IsErr result) room.old room.new }
{
    match near {
        Some(near) => group_by(
            room,
            TraceProblem::FarCrossline,
            records,
            &FarCrossline { near },
        ),
        None => Ok(None),
    }
}

// The traces of which there is something to say.
pub(crate) fn group_by<S: Suspicion>(
    room: &mut Room,
    problem: TraceProblem,
    records: &Records,
    suspicion: &S,
) -> Result<Option<TraceGroup>, OutOfMemory>
    requires { length records.now < 2 ^ 32 }
    ensures group { IfOk result (λ group. option_map group_in group ≡
        group_of problem (marks_of (S.facts suspicion.now) (map facts_of records.now))) }
    ensures memory { Rises (IsErr result) room.old room.new }
{
    let mut tally = RunTally::new(room.alloc());
    let mut position = 0;
    for trace in records.iter() {
        position += 1;
        tally.push_any(room, position, suspicion.facts_in(&trace))?;
    }
    tally.finish(room, problem)
}
