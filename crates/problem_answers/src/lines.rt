// The lines of problems, put behind others.
ghost use Rattle.std.specs.Prelude.{◌≡◌, ◌∷◌, ◌++◌, flat_map, map, option_map, OnOk, Some, IsErr};
ghost use Rattle.room.specs.Refusals.{Rises};
ghost use Rattle.line_problems.specs.MissingLines.{told};
ghost use Rattle.cell_positions.specs.Jumps.{told as told_jumps};
ghost use Rattle.cell_positions.specs.Shared.{told_shared};
ghost use Rattle.trace_groups.specs.Groups.{group_in};
ghost use Rattle.bench_rules.specs.Problems.{file_lines, fold_lines, group_lines, is_behind as is_behind_of, jump_lines, lines_of_groups, missing_lines, no_survey_lines, shared_lines};
ghost use Rattle.bench_rules.specs.declared.problem_line.ProblemLine.TheVariants as problem_lines;

use bench_rules::ProblemLine;
use cell_positions::{Jumps, SharedPositions};
use fault_live::Fault;
use line_problems::{MissingLines, NoSurvey, UnevenFold};
use room::{OutOfMemory, Room};
use trace_groups::{TraceGroup, TraceProblem};

/// Puts lines behind others. Takes memory.
pub(crate) fn push_lines(
    room: &mut Room,
    lines: &mut Vec<ProblemLine>,
    others: &[ProblemLine],
) -> Result<(), OutOfMemory>
    ensures items { OnOk result (lines.new.items ≡ lines.old.items ++ others.now) }
    ensures memory { Rises (IsErr result) room.old room.new }
{
    for line in others {
        room.told_back(lines.push(*line))?;
    }
    Ok(())
}

/// Puts a group of traces with its first runs behind others, where there is one. Takes memory.
pub(crate) fn push_group(
    room: &mut Room,
    lines: &mut Vec<ProblemLine>,
    group: Option<TraceGroup>,
) -> Result<(), OutOfMemory>
    ensures items { OnOk result (lines.new.items ≡ lines.old.items
        ++ group_lines (option_map group_in group)) }
    ensures memory { Rises (IsErr result) room.old room.new }
{
    match group {
        Some(group) => push_runs(room, lines, &group),
        None => Ok(()),
    }
}

/// Puts those groups of traces behind others, with their first runs, that stand behind the problems
/// of the file's own headers; or those that stand in front of them. Takes memory.
pub(crate) fn push_groups(
    room: &mut Room,
    lines: &mut Vec<ProblemLine>,
    groups: &[TraceGroup],
    behind: bool,
) -> Result<(), OutOfMemory>
    ensures items { OnOk result (lines.new.items ≡ lines.old.items
        ++ lines_of_groups behind (map group_in groups.now)) }
    ensures memory { Rises (IsErr result) room.old room.new }
{
    for group in groups {
        if is_behind(group.problem) == behind {
            push_runs(room, lines, group)?;
        }
    }
    Ok(())
}

// Whether the problem stands behind those of the file's own headers: F9.
fn is_behind(problem: TraceProblem) -> bool
    ensures { result ≡ is_behind_of problem }
{
    matches!(problem, TraceProblem::Name)
}

// Puts a group of traces with its first runs behind others.
fn push_runs(
    room: &mut Room,
    lines: &mut Vec<ProblemLine>,
    group: &TraceGroup,
) -> Result<(), OutOfMemory>
    ensures items { OnOk result (lines.new.items ≡ lines.old.items
        ++ group_lines (Some (group_in group.now))) }
    ensures memory { Rises (IsErr result) room.old room.new }
{
    room.told_back(lines.push(ProblemLine::Traces(group.problem, group.traces, group.runs)))?;
    let runs = group.first_runs.as_slice();
    for run in runs {
        room.told_back(lines.push(ProblemLine::Run(group.problem, *run)))?;
    }
    Ok(())
}

/// Puts the faults of the file's own headers behind others: F7 and F8. Takes memory.
pub(crate) fn push_of_file(
    room: &mut Room,
    lines: &mut Vec<ProblemLine>,
    faults: &[Fault],
) -> Result<(), OutOfMemory>
    ensures items { OnOk result (lines.new.items ≡ lines.old.items ++ flat_map file_lines
        faults.now) }
    ensures memory { Rises (IsErr result) room.old room.new }
{
    for fault in faults {
        match *fault {
            Fault::TraceCount(count, traces) => {
                room.told_back(lines.push(ProblemLine::TraceCount(count, traces)))?;
            }
            Fault::TextLines(count) => room.told_back(lines.push(ProblemLine::TextLines(count)))?,
            _ => (),
        }
    }
    Ok(())
}

/// Puts the inlines that are missing behind others, with the first runs of them, where there are
/// any. Takes memory.
pub(crate) fn push_missing_inlines(
    room: &mut Room,
    lines: &mut Vec<ProblemLine>,
    found: Option<MissingLines>,
) -> Result<(), OutOfMemory>
    ensures items { OnOk result (lines.new.items ≡ lines.old.items
        ++ missing_lines problem_lines.MissingInlines (option_map told found)) }
    ensures memory { Rises (IsErr result) room.old room.new }
{
    match found {
        Some(found) => {
            let head = ProblemLine::MissingInlines(found.missing, found.runs);
            push_missing(room, lines, head, &found)
        }
        None => Ok(()),
    }
}

/// The same of crosslines.
pub(crate) fn push_missing_crosslines(
    room: &mut Room,
    lines: &mut Vec<ProblemLine>,
    found: Option<MissingLines>,
) -> Result<(), OutOfMemory>
    ensures items { OnOk result (lines.new.items ≡ lines.old.items
        ++ missing_lines problem_lines.MissingCrosslines (option_map told found)) }
    ensures memory { Rises (IsErr result) room.old room.new }
{
    match found {
        Some(found) => {
            let head = ProblemLine::MissingCrosslines(found.missing, found.runs);
            push_missing(room, lines, head, &found)
        }
        None => Ok(()),
    }
}

// A line, and behind it the first runs of what is missing.
fn push_missing(
    room: &mut Room,
    lines: &mut Vec<ProblemLine>,
    head: ProblemLine,
    found: &MissingLines,
) -> Result<(), OutOfMemory>
    ensures items { OnOk result (lines.new.items ≡ lines.old.items
        ++ head ∷ map problem_lines.Missing (told found.now).first_runs) }
    ensures memory { Rises (IsErr result) room.old room.new }
{
    room.told_back(lines.push(head))?;
    let runs = found.first_runs.as_slice();
    for run in runs {
        room.told_back(lines.push(ProblemLine::Missing(*run)))?;
    }
    Ok(())
}

/// S1, where the traces have no survey numbers. Takes memory.
pub(crate) fn push_no_survey(
    room: &mut Room,
    lines: &mut Vec<ProblemLine>,
    found: Option<NoSurvey>,
) -> Result<(), OutOfMemory>
    ensures items { OnOk result (lines.new.items ≡ lines.old.items ++ no_survey_lines found) }
    ensures memory { Rises (IsErr result) room.old room.new }
{
    if let Some(found) = found {
        room.told_back(lines.push(ProblemLine::NoSurvey(found)))?;
    }
    Ok(())
}

/// S9, where a few cells have another fold. Takes memory.
pub(crate) fn push_fold(
    room: &mut Room,
    lines: &mut Vec<ProblemLine>,
    found: Option<UnevenFold>,
) -> Result<(), OutOfMemory>
    ensures items { OnOk result (lines.new.items ≡ lines.old.items ++ fold_lines found) }
    ensures memory { Rises (IsErr result) room.old room.new }
{
    if let Some(found) = found {
        room.told_back(lines.push(ProblemLine::Fold(found)))?;
    }
    Ok(())
}

/// S10 and the first traces of the first cells whose positions jump, where any do. Takes memory.
pub(crate) fn push_jumps(
    room: &mut Room,
    lines: &mut Vec<ProblemLine>,
    found: Option<Jumps>,
) -> Result<(), OutOfMemory>
    ensures items { OnOk result (lines.new.items ≡ lines.old.items
        ++ jump_lines (option_map told_jumps found)) }
    ensures memory { Rises (IsErr result) room.old room.new }
{
    match found {
        Some(found) => push_each_jump(room, lines, &found),
        None => Ok(()),
    }
}

fn push_each_jump(
    room: &mut Room,
    lines: &mut Vec<ProblemLine>,
    found: &Jumps,
) -> Result<(), OutOfMemory>
    ensures items { OnOk result (lines.new.items ≡ lines.old.items
        ++ jump_lines (Some (told_jumps found.now))) }
    ensures memory { Rises (IsErr result) room.old room.new }
{
    room.told_back(lines.push(ProblemLine::Jumps(found.pairs, found.jumps)))?;
    let pairs = found.first_jumps.as_slice();
    for pair in pairs {
        room.told_back(lines.push(ProblemLine::Jump(*pair)))?;
    }
    Ok(())
}

/// S11 and the first traces of the first cells that stand where one before them does, where any do.
/// Takes memory.
pub(crate) fn push_shared(
    room: &mut Room,
    lines: &mut Vec<ProblemLine>,
    found: Option<SharedPositions>,
) -> Result<(), OutOfMemory>
    ensures items { OnOk result (lines.new.items ≡ lines.old.items
        ++ shared_lines (option_map told_shared found)) }
    ensures memory { Rises (IsErr result) room.old room.new }
{
    match found {
        Some(found) => push_each_shared(room, lines, &found),
        None => Ok(()),
    }
}

fn push_each_shared(
    room: &mut Room,
    lines: &mut Vec<ProblemLine>,
    found: &SharedPositions,
) -> Result<(), OutOfMemory>
    ensures items { OnOk result (lines.new.items ≡ lines.old.items
        ++ shared_lines (Some (told_shared found.now))) }
    ensures memory { Rises (IsErr result) room.old room.new }
{
    room.told_back(lines.push(ProblemLine::SharedPositions(found.cells)))?;
    let pairs = found.first_cells.as_slice();
    for pair in pairs {
        room.told_back(lines.push(ProblemLine::SharedPosition(*pair)))?;
    }
    Ok(())
}
