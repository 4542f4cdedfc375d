// Lines that are near one another, and others that are far from them.
ghost use Rattle.std.specs.Prelude.{◌≡◌, IfOk, IsErr};
ghost use Rattle.room.specs.Refusals.{Rises};
ghost use Rattle.line_problems.specs.NearLines.{near_at, near_of};

use crate::distances::find_step;
use crate::parts::{Parts, largest};
use grid_live::Line;
use room::{OutOfMemory, Room};

/// The least and the greatest number of the lines that are near one another, where others are far
/// from them; nothing where no line is far. Takes 16 bytes a line.
pub fn near_lines(room: &mut Room, lines: &[Line]) -> Result<Option<(i32, i32)>, OutOfMemory>
    ensures near { IfOk result (λ near. near ≡ near_of lines.now) }
    ensures memory { Rises (IsErr result) room.old room.new }
{
    match find_step(room, lines)? {
        Some(step) => Ok(find_near(lines, step)),
        None => Ok(None),
    }
}

// The least and the greatest number of the lines that are near one another at this step, where
// others are far from them.
pub(crate) fn find_near(lines: &[Line], step: i64) -> Option<(i32, i32)>
    ensures { result ≡ near_at step lines.now }
{
    if lines.len() < 3 {
        return None;
    }
    let parts = Parts::of(lines, step)?;
    let behind = parts.largest_behind?;
    let kept = largest(parts.first, Some(behind));
    let traces = parts.first.traces + parts.traces_behind;
    if traces / 2 < kept.traces {
        Some((kept.first, kept.last))
    } else {
        None
    }
}
