// Lines in one line: from the first to the last, and the step.
ghost use Rattle.std.specs.Prelude.{◌≡◌, IfOk, IsErr};
ghost use Rattle.room.specs.Refusals.{Rises};
ghost use Rattle.line_problems.specs.LineSpans.{ends_of, span_of};

use crate::distances::find_step;
use crate::near::find_near;
use grid_live::Line;
use room::{OutOfMemory, Room};

/// The first and the last of the lines that are not far from the others, and the commonest distance
/// of neighbours, which one line alone has not.
#[derive(Debug, Clone, Copy, PartialEq, Eq)]
pub struct LineSpan {
    pub first: i32,
    pub last: i32,
    pub step: Option<i64>,
}

/// The lines in one line; nothing where there is none. Takes 16 bytes a line.
pub fn line_span(room: &mut Room, lines: &[Line]) -> Result<Option<LineSpan>, OutOfMemory>
    ensures span { IfOk result (λ span. span ≡ span_of lines.now) }
    ensures memory { Rises (IsErr result) room.old room.new }
{
    let Some(ends) = find_ends(lines) else {
        return Ok(None);
    };
    let Some(step) = find_step(room, lines)? else {
        return Ok(Some(LineSpan {
            first: ends.0,
            last: ends.1,
            step: None,
        }));
    };
    let (first, last) = find_near(lines, step).unwrap_or(ends);
    Ok(Some(LineSpan {
        first,
        last,
        step: Some(step),
    }))
}

// The numbers of the first and of the last line.
fn find_ends(lines: &[Line]) -> Option<(i32, i32)>
    ensures { result ≡ ends_of lines.now }
{
    let first = lines.first()?;
    let last = lines.last()?;
    Some((first.number, last.number))
}
