// Traces without a position.
ghost use Rattle.std.specs.Prelude.{◌≡◌, ℤ, ◌+◌, ◌<◌, ◌≤◌, ◌^◌, List, [], ◌∷◌, ◌++◌, IfOk, length, map, option_map, IsErr};
ghost use Rattle.room.specs.Refusals.{Rises};
ghost use Rattle.trace_record.specs.Facts.{facts_of};
ghost use Rattle.trace_groups.specs.Groups.{same_pair, group_of, group_in};
ghost use Rattle.trace_groups.specs.Suspects.{origins, cell_of as cell_of_facts, lack_positions as positions_lack, origin_marks};
ghost use Rattle.trace_groups.specs.OfOrigins.{AreOf};
ghost use Rattle.trace_groups.specs.declared.problem.TraceProblem.TheVariants.{NoPosition as no_position};

use crate::suspect_groups::group_by;
use crate::suspects::{AtOrigin, is_at_origin};
use crate::{TraceGroup, TraceProblem};
use record_table::Records;
use room::{OutOfMemory, Room};
use trace_record::Record;

/// S2: the traces whose x and y are both 0, where more than half of all traces stand elsewhere, and
/// where those at 0 are of two cells or more: traces at 0 of one cell stand at a local origin. With
/// `no_survey` the cells do not count. Two passes at most. Takes memory for the group; refused for
/// want of it alone.
pub fn position_group(
    room: &mut Room,
    records: &Records,
    no_survey: bool,
) -> Result<Option<TraceGroup>, OutOfMemory>
    requires { length records.now < 2 ^ 32 }
    ensures group { IfOk result (λ group. option_map group_in group ≡
        group_of no_position (origin_marks no_survey (map facts_of records.now))) }
    ensures memory { Rises (IsErr result) room.old room.new }
{
    if !lack_positions(records, no_survey) {
        return Ok(None);
    }
    group_by(room, TraceProblem::NoPosition, records, &AtOrigin)
}

// Whether traces at 0 lack a position.
fn lack_positions(records: &Records, no_survey: bool) -> bool
    requires { length records.now < 2 ^ 32 }
    ensures { result ≡ positions_lack no_survey (map facts_of records.now) }
{
    let origins = origins_of(records);
    2 * origins.traces < records.len() as u64 && (no_survey || origins.two_cells)
}

// The traces at 0.
#[derive(Clone, Copy)]
struct Origins {
    // How many.
    traces: u64,
    // Inline and crossline of the first.
    first: Option<(i32, i32)>,
    // Whether some have another inline or crossline.
    two_cells: bool,
}

fn origins_of(records: &Records) -> Origins
    requires { length records.now < 2 ^ 32 }
    ensures cells { AreOf (map cell_of_facts (origins (map facts_of records.now))) result }
    ensures few { result.traces ≤ length records.now }
{
    let mut found = Origins {
        traces: 0,
        first: None,
        two_cells: false,
    };
    for trace in records.iter() {
        if is_at_origin(&trace) {
            found.add(cell_of(&trace));
        }
    }
    found
}

// Inline and crossline.
fn cell_of(trace: &Record) -> (i32, i32)
    ensures { result ≡ cell_of_facts (facts_of trace.now) }
{
    (trace.inline, trace.crossline)
}

impl Origins {
    // One trace more.
    fn add(&mut self, cell: (i32, i32))
        requires { self.old.traces + 1 < 2 ^ 64 }
        ensures cells { (cells : List (ℤ × ℤ)) → AreOf cells self.old →
            AreOf (cells ++ cell ∷ []) self.new }
        ensures count { self.new.traces ≡ self.old.traces + 1 }
    {
        match self.first {
            Some(first) => self.two_cells = self.two_cells || !is_same(first, cell),
            None => self.first = Some(cell),
        }
        self.traces += 1;
    }
}

fn is_same(one: (i32, i32), other: (i32, i32)) -> bool
    ensures { result ≡ same_pair one other }
{
    one.0 == other.0 && one.1 == other.1
}
