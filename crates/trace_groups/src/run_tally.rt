// Runs of traces with one problem, counted trace by trace.
ghost use Rattle.std.specs.Prelude.{◌≡◌, ℕ, ◌+◌, ◌<◌, ◌^◌, [], ◌∷◌, ◌++◌, List, OnOk, IfOk, length, option_map, option_to_list, IsErr};
ghost use Rattle.room.specs.Refusals.{Rises};
ghost use Rattle.trace_groups.specs.declared.mark.Mark.{Mark};
ghost use Rattle.trace_groups.specs.Groups.{same_pair, group_of, group_in, marks_at};
ghost use Rattle.trace_groups.specs.OfTally.{IsTallyOf, IsWithin, grown as run_with, kept, trails as trails_run};

use crate::mark::Mark;
use crate::{Run, TraceGroup, TraceProblem};
use room::{OutOfMemory, Room};
use std::alloc::Global;

// How many runs a group shows.
const SHOWN_RUNS: usize = 10;

// The runs of the marks so far: the last one may grow, and of those before it the first are kept.
#[derive(Drop)]
pub(crate) struct RunTally {
    traces: u64,
    closed: u64,
    first_closed: Vec<Run>,
    current: Option<Run>,
}

impl RunTally {
    // Of no marks. Takes no memory.
    pub(crate) fn new(alloc: Global) -> RunTally
        ensures tally { IsTallyOf [] result }
        ensures within { IsWithin 0 result }
    {
        RunTally {
            traces: 0,
            closed: 0,
            first_closed: Vec::new(alloc),
            current: None,
        }
    }

    // One mark more, behind the others. Takes memory where a run ends that a group shows.
    pub(crate) fn push(&mut self, room: &mut Room, mark: Mark) -> Result<(), OutOfMemory>
        requires traces { self.old.traces + 1 < 2 ^ 64 }
        requires runs { self.old.closed + 1 < 2 ^ 64 }
        ensures tally { OnOk result ((marks : List Mark) →
            IsTallyOf marks self.old → IsTallyOf (marks ++ mark ∷ []) self.new) }
        ensures within { OnOk result ((n : ℕ) → IsWithin n self.old → IsWithin (n + 1) self.new) }
        ensures memory { Rises (IsErr result) room.old room.new }
    {
        let run = match grown(self.current, mark) {
            Some(run) => run,
            None => {
                self.close(room)?;
                Run {
                    first: mark.position,
                    last: mark.position,
                    facts: mark.facts,
                }
            }
        };
        self.current = Some(run);
        self.traces += 1;
        Ok(())
    }

    // The trace's mark, where there are facts of it.
    pub(crate) fn push_any(
        &mut self,
        room: &mut Room,
        position: u32,
        facts: Option<(i128, i128)>,
    ) -> Result<(), OutOfMemory>
        requires traces { self.old.traces + 1 < 2 ^ 64 }
        requires runs { self.old.closed + 1 < 2 ^ 64 }
        ensures tally { OnOk result ((marks : List Mark) → IsTallyOf marks self.old →
            IsTallyOf (marks ++ marks_at position facts) self.new) }
        ensures within { OnOk result ((n : ℕ) → IsWithin n self.old → IsWithin (n + 1) self.new) }
        ensures memory { Rises (IsErr result) room.old room.new }
    {
        match facts {
            Some(facts) => self.push(room, Mark { position, facts }),
            None => Ok(()),
        }
    }

    // The run that may grow is closed.
    fn close(&mut self, room: &mut Room) -> Result<(), OutOfMemory>
        requires { self.old.closed + 1 < 2 ^ 64 }
        ensures traces { self.new.traces ≡ self.old.traces }
        ensures closed { OnOk result
            (self.new.closed ≡ self.old.closed + length (option_to_list self.old.current)) }
        ensures kept { OnOk result (self.new.first_closed.items ≡
            kept self.old.first_closed.items (option_to_list self.old.current)) }
        ensures memory { Rises (IsErr result) room.old room.new }
    {
        let Some(run) = self.current else {
            return Ok(());
        };
        if self.first_closed.len() < SHOWN_RUNS {
            room.told_back(self.first_closed.push(run))?;
        }
        self.closed += 1;
        Ok(())
    }

    // The group of the problem, where the marks are of traces that have it; `None` without any.
    // Takes memory where the last run is one that a group shows.
    pub(crate) fn finish(
        mut self,
        room: &mut Room,
        problem: TraceProblem,
    ) -> Result<Option<TraceGroup>, OutOfMemory>
        requires { self.closed + 1 < 2 ^ 64 }
        ensures group { IfOk result (λ group. (marks : List Mark) → IsTallyOf marks self →
            option_map group_in group ≡ group_of problem marks) }
        ensures memory { Rises (IsErr result) room.old room.new }
    {
        if self.traces == 0 {
            return Ok(None);
        }
        self.close(room)?;
        Ok(Some(TraceGroup {
            problem,
            traces: self.traces,
            runs: self.closed,
            first_runs: self.first_closed,
        }))
    }
}

// The run with the trace at its end, where it stands right behind it.
fn grown(current: Option<Run>, mark: Mark) -> Option<Run>
    ensures { result ≡ run_with current mark }
{
    let run = current?;
    if !trails(&run, mark) {
        return None;
    }
    Some(Run {
        last: mark.position,
        ..run
    })
}

// Whether the trace stands right behind the run, with the same facts.
fn trails(run: &Run, mark: Mark) -> bool
    ensures { result ≡ trails_run run.now mark }
{
    u64::from(run.last) + 1 == u64::from(mark.position) && same_facts(run.facts, mark.facts)
}

fn same_facts(one: (i128, i128), other: (i128, i128)) -> bool
    ensures { result ≡ same_pair one other }
{
    one.0 == other.0 && one.1 == other.1
}
