ghost use Rattle.std.specs.Prelude.{◌≡◌, IfOk, map, IsErr};
ghost use Rattle.room.specs.Refusals.{Rises};
ghost use Rattle.trace_groups.specs.Groups.{group_in};
ghost use Rattle.trace_groups.specs.FaultGroups.{groups_of};

use crate::TraceGroup;
use crate::fault_tallies::FaultTallies;
use fault_live::Fault;
use room::{OutOfMemory, Room};

/// The groups of the traces that faults are of, F1 to F6 and F9 in the order of their codes, those
/// that occur; F6 where it is not left out. The faults stand by the positions of their traces, as a
/// report has them. One pass. Takes memory for the groups; refused for want of it alone.
pub fn fault_groups(
    room: &mut Room,
    faults: &[Fault],
    leaves_out_repeats: bool,
) -> Result<Vec<TraceGroup>, OutOfMemory>
    ensures groups { IfOk result (λ groups.
        map group_in groups.items ≡ groups_of leaves_out_repeats faults.now) }
    ensures memory { Rises (IsErr result) room.old room.new }
{
    let mut tallies = FaultTallies::new(room.alloc());
    for fault in faults {
        tallies.add(room, fault)?;
    }
    tallies.finish(room, leaves_out_repeats)
}
