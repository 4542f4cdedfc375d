// One tally of runs for each problem that faults tell of.
ghost use Rattle.std.specs.Prelude.{◌≡◌, ℕ, ◌+◌, ◌<◌, ◌^◌, [], ◌∷◌, ◌++◌, List, OnOk, IfOk, map, option_to_list, IsErr};
ghost use Rattle.room.specs.Refusals.{Rises};
ghost use Rattle.fault_live.specs.declared.fault.Fault.{Fault};
ghost use Rattle.trace_groups.specs.declared.mark.Mark.{Mark};
ghost use Rattle.trace_groups.specs.Groups.{group_of, group_in};
ghost use Rattle.trace_groups.specs.OfTally.{IsTallyOf};
ghost use Rattle.trace_groups.specs.FaultGroups.{groups_of};
ghost use Rattle.trace_groups.specs.OfFaultTallies.{AreTalliesOf, AreWithin};

use crate::fault_facts::{
    interval_facts, name_facts, position_of, repeated_facts, samples_facts, scalar_facts,
    sequence_facts, units_facts,
};
use crate::run_tally::RunTally;
use crate::{TraceGroup, TraceProblem};
use fault_live::Fault;
use room::{OutOfMemory, Room};
use std::alloc::Global;

#[derive(Drop)]
pub(crate) struct FaultTallies {
    pub(crate) sequence: RunTally,
    pub(crate) samples: RunTally,
    pub(crate) interval: RunTally,
    pub(crate) scalar: RunTally,
    pub(crate) units: RunTally,
    pub(crate) repeated: RunTally,
    pub(crate) name: RunTally,
}

impl FaultTallies {
    // Of no faults. Takes no memory.
    pub(crate) fn new(alloc: Global) -> FaultTallies
        ensures tallies { AreTalliesOf [] result }
        ensures within { AreWithin 0 result }
    {
        FaultTallies {
            sequence: RunTally::new(alloc),
            samples: RunTally::new(alloc),
            interval: RunTally::new(alloc),
            scalar: RunTally::new(alloc),
            units: RunTally::new(alloc),
            repeated: RunTally::new(alloc),
            name: RunTally::new(alloc),
        }
    }

    // One fault more. Takes memory where a run ends that a group shows.
    pub(crate) fn add(&mut self, room: &mut Room, fault: &Fault) -> Result<(), OutOfMemory>
        requires { (n : ℕ) × (n + 1 < 2 ^ 64) × AreWithin n self.old }
        ensures tallies { OnOk result ((faults : List Fault) → AreTalliesOf faults self.old →
            AreTalliesOf (faults ++ fault.now ∷ []) self.new) }
        ensures within { OnOk result
            ((n : ℕ) → AreWithin n self.old → AreWithin (n + 1) self.new) }
        ensures memory { Rises (IsErr result) room.old room.new }
    {
        let position = position_of(fault);
        self.sequence
            .push_any(room, position, sequence_facts(fault))?;
        self.samples.push_any(room, position, samples_facts(fault))?;
        self.interval
            .push_any(room, position, interval_facts(fault))?;
        self.scalar.push_any(room, position, scalar_facts(fault))?;
        self.units.push_any(room, position, units_facts(fault))?;
        self.repeated
            .push_any(room, position, repeated_facts(fault))?;
        self.name.push_any(room, position, name_facts(fault))?;
        Ok(())
    }

    // The groups of those problems that occur, in the order of their codes; that of repeated traces
    // may be left out. Takes memory for them.
    pub(crate) fn finish(
        self,
        room: &mut Room,
        leaves_out_repeats: bool,
    ) -> Result<Vec<TraceGroup>, OutOfMemory>
        requires { (n : ℕ) × (n + 1 < 2 ^ 64) × AreWithin n self }
        ensures groups { IfOk result (λ groups. (faults : List Fault) → AreTalliesOf faults self →
            map group_in groups.items ≡ groups_of leaves_out_repeats faults) }
        ensures memory { Rises (IsErr result) room.old room.new }
    {
        let FaultTallies {
            sequence,
            samples,
            interval,
            scalar,
            units,
            repeated,
            name,
        } = self;
        let mut groups = Vec::new(room.alloc());
        push_group(room, &mut groups, TraceProblem::Sequence, sequence)?;
        push_group(room, &mut groups, TraceProblem::Samples, samples)?;
        push_group(room, &mut groups, TraceProblem::Interval, interval)?;
        push_group(room, &mut groups, TraceProblem::Scalar, scalar)?;
        push_group(room, &mut groups, TraceProblem::Units, units)?;
        if !leaves_out_repeats {
            push_group(room, &mut groups, TraceProblem::Repeated, repeated)?;
        }
        push_group(room, &mut groups, TraceProblem::Name, name)?;
        Ok(groups)
    }
}

// The group of the problem behind the others, where there are traces that have it.
fn push_group(
    room: &mut Room,
    groups: &mut Vec<TraceGroup>,
    problem: TraceProblem,
    tally: RunTally,
) -> Result<(), OutOfMemory>
    requires { tally.closed + 1 < 2 ^ 64 }
    ensures items { OnOk result ((marks : List Mark) → IsTallyOf marks tally →
        map group_in groups.new.items ≡
        map group_in groups.old.items ++ option_to_list (group_of problem marks)) }
    ensures memory { Rises (IsErr result) room.old room.new }
{
    if let Some(group) = tally.finish(room, problem)? {
        room.told_back(groups.push(group))?;
    }
    Ok(())
}
