// The folds of cells.
ghost use Rattle.std.specs.Prelude.{◌≡◌, IfOk, map, IsErr};
ghost use Rattle.std.specs.Ordering.{nat_cmp};
ghost use Rattle.room.specs.Refusals.{Rises};
ghost use Rattle.key_counts.specs.Counts.{count_of};
ghost use Rattle.key_counts.specs.Rising.{times_in};
ghost use Rattle.grid_live.specs.Cells.{histogram_of};

use crate::{Cell, FoldCount};
use key_counts::Counts;
use room::{OutOfMemory, Room};

// The folds of these cells with their numbers of cells.
pub fn histogram_of_cells(room: &mut Room, cells: &[Cell]) -> Result<Vec<FoldCount>, OutOfMemory>
    ensures histogram { IfOk result (λ list. list.items ≡ histogram_of cells.now) }
    ensures memory { Rises (IsErr result) room.old room.new }
{
    let folds = count_folds(room, cells)?;
    let list = folds.list(room)?;
    Ok(list)
}

fn count_folds(room: &mut Room, cells: &[Cell]) -> Result<Counts<u64>, OutOfMemory>
    ensures counts { IfOk result (λ folds. (q : _) →
        count_of nat_cmp folds q ≡ times_in nat_cmp (map (λ c. c.fold) cells.now) q) }
    ensures memory { Rises (IsErr result) room.old room.new }
{
    let mut folds = Counts::new(room.alloc());
    for cell in cells {
        folds.raise(room, cell.fold)?;
    }
    Ok(folds)
}
