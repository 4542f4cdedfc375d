// Lines that are missing between others.
ghost use Rattle.std.specs.Prelude.{◌≡◌, ◌+◌, ◌<◌, ◌≤◌, ◌<ℤ◌, ◌^◌, ◌++◌, ◌∷◌, [], List, pos, unsigned_abs, FitsSigned, IfOk, OnOk, option_map, IsErr};
ghost use Rattle.std.specs.Int.{w32};
ghost use Rattle.room.specs.Refusals.{Rises};
ghost use Rattle.line_problems.specs.LineProblems.{LinesRise, distance as distance_of};
ghost use Rattle.line_problems.specs.MissingLines.{is_near as is_near_of, is_whole as is_whole_of, is_gap as is_gap_of, gaps_of, missing_between as missing_between_of, missing_in, missing_of, told};

use crate::distances::{distance, find_step};
use crate::near::find_near;
use grid_live::Line;
use room::{OutOfMemory, Room};
use std::alloc::Global;

// So many runs of missing lines are told.
const MOST_RUNS: usize = 10;

/// Lines that are missing: the first, the last, and the step from each to the next.
#[derive(Debug, Clone, Copy, PartialEq, Eq)]
pub struct MissingRun {
    pub first: i32,
    pub last: i32,
    pub step: u32,
}

impl MissingRun {
    ghost use Rattle.std.specs.Prelude.{◌≡◌, ◌<ℤ◌, pos};
    ghost use Rattle.line_problems.specs.LineProblems.{distance as distance_of};
    ghost use Rattle.line_problems.specs.MissingLines.{run_between};

    // Those between two lines, where the step fits several times and leaves nothing.
    fn between(line: &Line, next: &Line, step: i64) -> MissingRun
        requires above { pos 0 <ℤ step }
        requires fits { step <ℤ distance_of (line.now, next.now) }
        ensures { result ≡ run_between step (line.now, next.now) }
    {
        let in_front = i64::from(line.number);
        let behind = i64::from(next.number);
        MissingRun {
            first: (in_front + step) as i32,
            last: (behind - step) as i32,
            step: step.unsigned_abs() as u32,
        }
    }
}

/// How many lines are missing between others, in how many runs, and the first ten runs.
#[derive(Debug, Drop, PartialEq, Eq)]
pub struct MissingLines {
    pub missing: u64,
    pub runs: u32,
    pub first_runs: Vec<MissingRun>,
}

impl MissingLines {
    ghost use Rattle.std.specs.Prelude.{◌≡◌, ◌+◌, ◌<◌, ◌≤◌, ◌<ℤ◌, ◌^◌, ◌++◌, ◌∷◌, [], ℤ, List, pos, unsigned_abs, OnOk};
    ghost use Rattle.grid_live.specs.declared.line.Line.{Line as LineOf};
    ghost use Rattle.line_problems.specs.LineProblems.{distance as distance_of};
    ghost use Rattle.line_problems.specs.MissingLines.{missing_in, told};

    // None so far. Takes no memory.
    fn none(alloc: Global) -> MissingLines
        ensures { (s : ℤ) → told result ≡ missing_in s [] }
    {
        MissingLines {
            missing: 0,
            runs: 0,
            first_runs: Vec::new(alloc),
        }
    }

    // Those between two lines too.
    fn add(
        &mut self,
        room: &mut Room,
        line: &Line,
        next: &Line,
        step: i64,
    ) -> Result<(), OutOfMemory>
        requires above { pos 0 <ℤ step }
        requires fits { step <ℤ distance_of (line.now, next.now) }
        requires room { self.old.missing + self.old.runs +
            unsigned_abs (distance_of (line.now, next.now)) < 2 ^ 32 }
        ensures told { OnOk result ((gs : List (LineOf × LineOf)) →
            told self.old ≡ missing_in step gs →
            told self.new ≡ missing_in step (gs ++ (line.now, next.now) ∷ [])) }
        ensures few { OnOk result (self.new.missing + self.new.runs ≤
            self.old.missing + self.old.runs +
            unsigned_abs (distance_of (line.now, next.now))) }
        ensures memory { Rises (IsErr result) room.old room.new }
    {
        if self.first_runs.len() < MOST_RUNS {
            room.told_back(self.first_runs.push(MissingRun::between(line, next, step)))?;
        }
        self.missing += count_missing(line, next, step);
        self.runs += 1;
        Ok(())
    }
}

/// The lines that are missing in a rising list: between neighbours that are not far from the other
/// lines, where the distance is several times the commonest one and a multiple of it. Nothing where
/// no line is missing. Takes 16 bytes a line, and memory for the first ten runs.
pub fn missing_lines(room: &mut Room, lines: &[Line]) -> Result<Option<MissingLines>, OutOfMemory>
    requires { LinesRise lines.now }
    ensures missing { IfOk result (λ missing. option_map told missing ≡ missing_of lines.now) }
    ensures memory { Rises (IsErr result) room.old room.new }
{
    let Some(step) = find_step(room, lines)? else {
        return Ok(None);
    };
    let near = find_near(lines, step);
    let missing = find_missing(room, lines, step, &near)?;
    if missing.runs == 0 {
        return Ok(None);
    }
    Ok(Some(missing))
}

// What is missing between neighbours of which neither is far.
fn find_missing(
    room: &mut Room,
    lines: &[Line],
    step: i64,
    near: &Option<(i32, i32)>,
) -> Result<MissingLines, OutOfMemory>
    requires { LinesRise lines.now }
    ensures told { IfOk result (λ m. told m ≡ missing_in step (gaps_of step near.now lines.now)) }
    ensures memory { Rises (IsErr result) room.old room.new }
{
    let mut missing = MissingLines::none(room.alloc());
    let Some((first, others)) = lines.split_first() else {
        return Ok(missing);
    };
    let mut last = *first;
    for line in others {
        let next = *line;
        if is_gap(&last, &next, step, near) {
            missing.add(room, &last, &next, step)?;
        }
        last = next;
    }
    Ok(missing)
}

// Whether lines are missing between two neighbours, and neither is far.
fn is_gap(line: &Line, next: &Line, step: i64, near: &Option<(i32, i32)>) -> bool
    ensures gap { result ≡ is_gap_of step near.now (line.now, next.now) }
    ensures fits { FitsSigned w32 line.now.number × FitsSigned w32 next.now.number }
{
    let distance = distance(line, next);
    is_near(line, near) && is_near(next, near) && is_whole(step, distance)
}

// Whether a line is among those that are near one another.
fn is_near(line: &Line, near: &Option<(i32, i32)>) -> bool
    ensures { result ≡ is_near_of near.now line.now }
{
    match near {
        Some((least, greatest)) => *least <= line.number && line.number <= *greatest,
        None => true,
    }
}

// Whether a step above 0 fits several times into a distance, and leaves nothing.
fn is_whole(step: i64, distance: i64) -> bool
    ensures { result ≡ is_whole_of step distance }
{
    0 < step && step < distance && distance.unsigned_abs() % step.unsigned_abs() == 0
}

// How many lines are missing between two.
fn count_missing(line: &Line, next: &Line, step: i64) -> u64
    requires above { pos 0 <ℤ step }
    requires fits { step <ℤ distance_of (line.now, next.now) }
    ensures count { result ≡ missing_between_of step (line.now, next.now) }
    ensures few { result < unsigned_abs (distance_of (line.now, next.now)) }
{
    distance(line, next).unsigned_abs() / step.unsigned_abs() - 1
}
