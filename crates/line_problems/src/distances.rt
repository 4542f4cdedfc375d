// How far lines are from their neighbours.
ghost use Rattle.std.specs.Prelude.{◌≡◌, IfOk, FitsSigned, map, IsErr};
ghost use Rattle.std.specs.Int.{w32};
ghost use Rattle.room.specs.Refusals.{Rises};
ghost use Rattle.line_problems.specs.LineProblems.{neighbours, distance as distance_of, step_of};

use common_numbers::commonest;
use grid_live::Line;
use room::{OutOfMemory, Room};

// How far the second line is above the first.
pub(crate) fn distance(line: &Line, next: &Line) -> i64
    ensures value { result ≡ distance_of (line.now, next.now) }
    ensures fits { FitsSigned w32 line.now.number × FitsSigned w32 next.now.number }
{
    i64::from(next.number) - i64::from(line.number)
}

// The commonest distance of neighbours. It takes 16 bytes a line.
pub(crate) fn find_step(room: &mut Room, lines: &[Line]) -> Result<Option<i64>, OutOfMemory>
    ensures step { IfOk result (λ s. s ≡ step_of lines.now) }
    ensures memory { Rises (IsErr result) room.old room.new }
{
    let distances = list_distances(room, lines)?;
    let step = commonest(room, &distances)?;
    Ok(step)
}

fn list_distances(room: &mut Room, lines: &[Line]) -> Result<Vec<i64>, OutOfMemory>
    ensures items { IfOk result (λ list. list.items ≡ map distance_of (neighbours lines.now)) }
    ensures memory { Rises (IsErr result) room.old room.new }
{
    let mut list = room.told(Vec::with_capacity(room.alloc(), lines.len()))?;
    let Some((first, others)) = lines.split_first() else {
        return Ok(list);
    };
    let mut last = first;
    for line in others {
        room.told_back(list.push(distance(last, line)))?;
        last = line;
    }
    Ok(list)
}
