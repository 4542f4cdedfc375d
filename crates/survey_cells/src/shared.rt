ghost use Rattle.std.specs.Prelude.{◌≡◌, List, IfOk, map, filter, option_map, IsErr};
ghost use Rattle.room.specs.Refusals.{Rises};
ghost use Rattle.cell_positions.specs.InOrder.{in_order};
ghost use Rattle.cell_positions.specs.Jumps.{trace_pair_cmp};
ghost use Rattle.cell_positions.specs.Shared.{placed_cmp, at_one_position as at_one_position_of, sharing as sharing_of, shared_told, shared_of, told_shared};
ghost use Rattle.survey_cells.specs.Held.{AreCellsOf};
ghost use Rattle.survey_cells.specs.Standing.{is_standing as is_standing_of, standing_in};

use crate::cells::SurveyCell;
use crate::groups::keep_crowded;
use cell_positions::{MOST_PAIRS, SharedPositions, TracePair};
use room::{OutOfMemory, Room};

/// The cells whose position a cell before them has, too; nothing where none has, and in a file of
/// shots. Takes 4 bytes a cell while it looks, and memory for those that it finds; refused for want
/// of it alone.
pub fn shared_positions(
    room: &mut Room,
    cells: Vec<SurveyCell>,
    shots: bool,
) -> Result<Option<SharedPositions>, OutOfMemory>
    ensures shared { (fs : List _) → AreCellsOf fs cells.items →
        IfOk result (λ shared. option_map told_shared shared ≡ shared_of shots fs) }
    ensures memory { Rises (IsErr result) room.old room.new }
{
    if shots {
        return Ok(None);
    }
    let pairs = find_shared(room, cells)?;
    Ok(tell(pairs))
}

// What is told of these.
fn tell(mut pairs: Vec<TracePair>) -> Option<SharedPositions>
    ensures { option_map told_shared result ≡ shared_told pairs.items }
{
    let cells = pairs.len() as u64;
    if cells == 0 {
        return None;
    }
    pairs.truncate(MOST_PAIRS);
    Some(SharedPositions {
        cells,
        first_cells: pairs,
    })
}

// Those that stand where a cell before them does, in order.
fn find_shared(room: &mut Room, mut cells: Vec<SurveyCell>) -> Result<Vec<TracePair>, OutOfMemory>
    ensures pairs { IfOk result (λ pairs. pairs.items ≡ in_order trace_pair_cmp (sharing_of
        (in_order placed_cmp (map standing_in (filter is_standing_of cells.items))))) }
    ensures memory { Rises (IsErr result) room.old room.new }
{
    cells.retain(|c| is_standing(c));
    keep_crowded(room, &mut cells)?;
    cells.sort_unstable_by_key(|c| (c.x, (c.y, c.trace)));
    let mut pairs = sharing(room, &cells)?;
    pairs.sort_unstable();
    Ok(pairs)
}

// Whether the cell has a position.
#[inline]
fn is_standing(cell: &SurveyCell) -> bool
    ensures { result ≡ is_standing_of cell.now }
{
    cell.x.ratio().num != 0 || cell.y.ratio().num != 0
}

// Of cells in order each that stands where an earlier one does, with the first one there.
fn sharing(room: &mut Room, cells: &[SurveyCell]) -> Result<Vec<TracePair>, OutOfMemory>
    ensures pairs { IfOk result (λ pairs. pairs.items ≡ sharing_of (map standing_in cells.now)) }
    ensures memory { Rises (IsErr result) room.old room.new }
{
    let mut pairs = Vec::new(room.alloc());
    let Some((first, others)) = cells.split_first() else {
        return Ok(pairs);
    };
    let mut last = *first;
    for cell in others {
        if at_one_position(&last, cell) {
            room.told_back(pairs.push(TracePair {
                later: cell.trace,
                earlier: last.trace,
            }))?;
        } else {
            last = *cell;
        }
    }
    Ok(pairs)
}

// Whether both stand at one position.
#[inline]
fn at_one_position(one: &SurveyCell, other: &SurveyCell) -> bool
    ensures { result ≡ at_one_position_of (standing_in one.now) (standing_in other.now) }
{
    one.x.cmp(&other.x).is_eq() && one.y.cmp(&other.y).is_eq()
}
