ghost use Rattle.std.specs.Prelude.{◌≡◌, ◌<◌, ◌≤◌, ◌^◌, ◌++◌, List, Option, None, IfOk, OnOk, length, option_map, option_and_then, if◌then◌else◌, IsErr};
ghost use Rattle.std.specs.List.{list_any};
ghost use Rattle.room.specs.Refusals.{Rises};
ghost use Rattle.grid_live.specs.Cells.{inlines as inlines_of, crosslines as crosslines_of};
ghost use Rattle.line_problems.specs.LineSpans.{span_of};
ghost use Rattle.position_differences.specs.Differences.{is_far as lies_far};
ghost use Rattle.position_differences.specs.Commonest.{AreCounted};
ghost use Rattle.cell_positions.specs.Jumps.{traces_of as traces_of_pair, jumps_of, told, told_of, told_of_both};
ghost use Rattle.cell_positions.specs.Steps.{inlines_apart as inlines_apart_of, crosslines_apart as crosslines_apart_of};
ghost use Rattle.survey_cells.specs.Held.{HeldRise, AreCellsOf};
ghost use Rattle.survey_cells.specs.Neighbours.{differences, pair_in};
ghost use Rattle.survey_cells.specs.Along.{jumps_among as jumps_among_of, jump_traces, held_along};

use crate::cells::SurveyCell;
use crate::lines::{crosslines_apart, inlines_apart};
use crate::pairs::{
    Neighbours, Walk, count_differences, difference_ahead, difference_behind, neighbours_from,
};
use crate::times::Times;
use cell_positions::{Jumps, MOST_PAIRS, TracePair};
use grid_live::Line;
use line_problems::line_span;
use position_differences::{Difference, is_far, is_jump};
use room::{OutOfMemory, Room};
use std::collections::btree_map::Iter;

/// The pairs of cells one commonest step of the inlines apart, or of the crosslines, whose
/// positions differ otherwise than those of most such pairs and than those beside them on their
/// line; nothing where none does. In a file of shots the pairs of neighbouring inlines alone count.
/// Takes 16 bytes a line, and memory for the differences that occur and for the pairs that jump;
/// refused for want of it alone.
pub fn position_jumps(
    room: &mut Room,
    cells: &[SurveyCell],
    inlines: &[Line],
    crosslines: &[Line],
    shots: bool,
) -> Result<Option<Jumps>, OutOfMemory>
    requires rise { HeldRise cells.now }
    requires few { length cells.now < 2 ^ 63 }
    ensures jumps { (fs : List _) → AreCellsOf fs cells.now →
        inlines.now ≡ inlines_of fs → crosslines.now ≡ crosslines_of fs →
        IfOk result (λ jumps. option_map told jumps ≡ jumps_of shots fs) }
    ensures memory { Rises (IsErr result) room.old room.new }
{
    let inlines = inline_step(room, inlines)?;
    let crosslines = crossline_step(room, crosslines, shots)?;
    find_jumps(room, cells, inlines, crosslines)
}

// The jumps at a step along the inlines and at one along the crosslines.
fn find_jumps(
    room: &mut Room,
    cells: &[SurveyCell],
    inlines: Option<(i64, i64)>,
    crosslines: Option<(i64, i64)>,
) -> Result<Option<Jumps>, OutOfMemory>
    requires rise { HeldRise cells.now }
    requires few { length cells.now < 2 ^ 63 }
    ensures jumps { IfOk result (λ jumps. option_map told jumps ≡
        told_of_both (held_along cells.now inlines) (held_along cells.now crosslines)) }
    ensures memory { Rises (IsErr result) room.old room.new }
{
    let mut traces = Vec::new(room.alloc());
    let pairs = add_along(room, cells, inlines, &mut traces)?;
    let others = add_along(room, cells, crosslines, &mut traces)?;
    traces.sort_unstable();
    Ok(tell(pairs + others, traces))
}

// What is told of so many pairs of which these jump.
fn tell(pairs: u64, mut traces: Vec<TracePair>) -> Option<Jumps>
    ensures { option_map told result ≡ told_of pairs traces.items }
{
    let jumps = traces.len() as u64;
    if jumps == 0 {
        return None;
    }
    traces.truncate(MOST_PAIRS);
    Some(Jumps {
        pairs,
        jumps,
        first_jumps: traces,
    })
}

// The step from an inline to the next.
fn inline_step(room: &mut Room, inlines: &[Line]) -> Result<Option<(i64, i64)>, OutOfMemory>
    ensures step { IfOk result (λ step. step ≡
        option_and_then inlines_apart_of (span_of inlines.now)) }
    ensures memory { Rises (IsErr result) room.old room.new }
{
    match line_span(room, inlines)? {
        Some(span) => Ok(inlines_apart(&span)),
        None => Ok(None),
    }
}

// The step from a crossline to the next, but in a file of shots.
fn crossline_step(
    room: &mut Room,
    crosslines: &[Line],
    shots: bool,
) -> Result<Option<(i64, i64)>, OutOfMemory>
    ensures step { IfOk result (λ step. step ≡ (if shots then None
        else option_and_then crosslines_apart_of (span_of crosslines.now))) }
    ensures memory { Rises (IsErr result) room.old room.new }
{
    if shots {
        return Ok(None);
    }
    match line_span(room, crosslines)? {
        Some(span) => Ok(crosslines_apart(&span)),
        None => Ok(None),
    }
}

// Puts the pairs at this step that jump behind the others, and tells how many pairs there are.
fn add_along(
    room: &mut Room,
    cells: &[SurveyCell],
    step: Option<(i64, i64)>,
    traces: &mut Vec<TracePair>,
) -> Result<u64, OutOfMemory>
    requires { HeldRise cells.now }
    ensures pairs { IfOk result (λ n. n ≡ (held_along cells.now step).0) }
    ensures jumps { OnOk result (traces.new.items ≡
        traces.old.items ++ (held_along cells.now step).1) }
    ensures few { IfOk result (λ n. n ≤ length cells.now) }
    ensures memory { Rises (IsErr result) room.old room.new }
{
    let Some(apart) = step else {
        return Ok(0);
    };
    let walked = count_differences(room, cells, apart)?;
    let Some(usual) = walked.counts.commonest() else {
        return Ok(0);
    };
    add_jumps(room, cells, apart, &walked.counts, &usual, traces)?;
    Ok(walked.pairs)
}

// Puts the pairs that jump behind the others. Where none of the differences that were counted is
// far from the usual one, no pair jumps, and they are not walked over again.
fn add_jumps(
    room: &mut Room,
    cells: &[SurveyCell],
    apart: (i64, i64),
    counts: &Times,
    usual: &Difference,
    traces: &mut Vec<TracePair>,
) -> Result<(), OutOfMemory>
    requires rise { HeldRise cells.now }
    requires counted { AreCounted counts.now (differences cells.now apart) }
    ensures jumps { OnOk result (traces.new.items ≡
        traces.old.items ++ jump_traces cells.now apart usual.now) }
    ensures memory { Rises (IsErr result) room.old room.new }
{
    if !any_far(counts.pairs(), usual) {
        return Ok(());
    }
    add_each_jump(room, cells, apart, usual, traces)
}

// Whether one of these differences is far from another.
fn any_far(pairs: Iter<'_, Difference, u64>, other: &Difference) -> bool
    ensures { result ≡ list_any (λ e. lies_far e.0 other.now) pairs.entry }
{
    for (difference, _) in pairs {
        if is_far(difference, other) {
            return true;
        }
    }
    false
}

// The same, by a walk over all pairs.
fn add_each_jump(
    room: &mut Room,
    cells: &[SurveyCell],
    apart: (i64, i64),
    usual: &Difference,
    traces: &mut Vec<TracePair>,
) -> Result<(), OutOfMemory>
    requires { HeldRise cells.now }
    ensures jumps { OnOk result (traces.new.items ≡
        traces.old.items ++ jump_traces cells.now apart usual.now) }
    ensures memory { Rises (IsErr result) room.old room.new }
{
    let mut walk = Walk::from(0);
    for cell in cells {
        if let Some(pair) = neighbours_from(cells, apart, cell, &mut walk) {
            if jumps_among(cells, apart, usual, &pair) {
                room.told_back(traces.push(traces_of(&pair)))?;
            }
        }
    }
    Ok(())
}

// Whether the pair jumps.
fn jumps_among(
    cells: &[SurveyCell],
    apart: (i64, i64),
    usual: &Difference,
    pair: &Neighbours,
) -> bool
    requires { HeldRise cells.now }
    ensures { result ≡ jumps_among_of cells.now apart usual.now pair.now }
{
    if !is_jump(usual, &None, &pair.difference, &None) {
        return false;
    }
    let before = difference_ahead(cells, apart, pair);
    let behind = difference_behind(cells, apart, &pair.second);
    is_jump(usual, &before, &pair.difference, &behind)
}

// The first traces of its cells.
fn traces_of(pair: &Neighbours) -> TracePair
    ensures { result ≡ traces_of_pair (pair_in pair.now) }
{
    let first = pair.first.trace;
    let second = pair.second.trace;
    TracePair {
        later: first.max(second),
        earlier: first.min(second),
    }
}
