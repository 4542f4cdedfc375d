ghost use Rattle.std.specs.Prelude.{◌≡◌, ◌<◌, ◌≤◌, ◌^◌, ◌/◌, ◌-ℤ◌, List, IfOk, unsigned_abs, IsErr};
ghost use Rattle.room.specs.Refusals.{Rises};
ghost use Rattle.grid_live.specs.Cells.{inlines as inlines_of, crosslines as crosslines_of};
ghost use Rattle.cell_positions.specs.Survey.{is_within as is_within_of, lines_in as lines_in_of, survey_of};
ghost use Rattle.survey_cells.specs.Held.{HeldRise, AreCellsOf};
ghost use Rattle.survey_cells.specs.Grid.{usual_held, held_within, grid_in};

use crate::cells::SurveyCell;
use crate::lines::{crosslines_apart, inlines_apart};
use crate::pairs::count_differences;
use cell_positions::SurveyGrid;
use grid_live::Line;
use line_problems::{LineSpan, line_span};
use position_differences::Difference;
use room::{OutOfMemory, Room};

/// The grid of the survey that has these cells, inlines and crosslines; nothing where there is no
/// trace. Takes 16 bytes a line, and memory for the differences that occur; refused for want of it
/// alone.
pub fn survey_grid(
    room: &mut Room,
    cells: &[SurveyCell],
    inlines: &[Line],
    crosslines: &[Line],
) -> Result<Option<SurveyGrid>, OutOfMemory>
    requires { HeldRise cells.now }
    ensures grid { (fs : List _) → AreCellsOf fs cells.now →
        inlines.now ≡ inlines_of fs → crosslines.now ≡ crosslines_of fs →
        IfOk result (λ grid. grid ≡ survey_of fs) }
    ensures memory { Rises (IsErr result) room.old room.new }
{
    let Some(inline) = line_span(room, inlines)? else {
        return Ok(None);
    };
    let Some(crossline) = line_span(room, crosslines)? else {
        return Ok(None);
    };
    let grid = grid_of(room, cells, &inline, &crossline)?;
    Ok(Some(grid))
}

// The grid of the cells, where the lines are these.
fn grid_of(
    room: &mut Room,
    cells: &[SurveyCell],
    inline: &LineSpan,
    crossline: &LineSpan,
) -> Result<SurveyGrid, OutOfMemory>
    requires { HeldRise cells.now }
    ensures grid { IfOk result (λ grid. grid ≡ grid_in cells.now inline.now crossline.now) }
    ensures memory { Rises (IsErr result) room.old room.new }
{
    let along_inline = usual_along(room, cells, inlines_apart(inline))?;
    let along_crossline = usual_along(room, cells, crosslines_apart(crossline))?;
    Ok(SurveyGrid {
        inline: *inline,
        crossline: *crossline,
        along_inline,
        along_crossline,
        cells: cells_within(inline, crossline, cells),
        full: lines_in(inline) * lines_in(crossline),
    })
}

// The commonest difference of cells that are one step apart.
fn usual_along(
    room: &mut Room,
    cells: &[SurveyCell],
    step: Option<(i64, i64)>,
) -> Result<Option<Difference>, OutOfMemory>
    requires { HeldRise cells.now }
    ensures usual { IfOk result (λ usual. usual ≡ usual_held cells.now step) }
    ensures memory { Rises (IsErr result) room.old room.new }
{
    let Some(apart) = step else {
        return Ok(None);
    };
    let walked = count_differences(room, cells, apart)?;
    Ok(walked.counts.commonest())
}

// How many cells have an inline, and a crossline, between the first and the last of these.
fn cells_within(inline: &LineSpan, crossline: &LineSpan, cells: &[SurveyCell]) -> u64
    ensures { result ≡ held_within inline.now crossline.now cells.now }
{
    let count = cells
        .iter()
        .filter(|c| is_within(inline, c.inline) && is_within(crossline, c.crossline))
        .count();
    count as u64
}

// Whether the number lies between the first and the last of some lines.
fn is_within(span: &LineSpan, number: i32) -> bool
    ensures { result ≡ is_within_of span.now number }
{
    span.first <= number && number <= span.last
}

// How many lines there are from the first to the last, one step from the other.
fn lines_in(span: &LineSpan) -> u128
    ensures value { result ≡ lines_in_of span.now }
    ensures few { result ≤ 2 ^ 33 }
{
    let distance = distance(span);
    match span.step {
        Some(step) => whole_steps(distance.unsigned_abs(), step.unsigned_abs()) + 1,
        None => 1,
    }
}

// How far the last line is above the first.
fn distance(span: &LineSpan) -> i64
    ensures value { result ≡ span.now.last -ℤ span.now.first }
    ensures few { unsigned_abs result < 2 ^ 32 }
{
    i64::from(span.last) - i64::from(span.first)
}

// How many steps fit.
fn whole_steps(reach: u64, step: u64) -> u128
    ensures value { result ≡ reach / step }
    ensures few { result ≤ reach }
{
    match reach.checked_div(step) {
        Some(steps) => u128::from(steps),
        None => 0,
    }
}
