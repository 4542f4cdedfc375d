ghost use Rattle.std.specs.Prelude.{IsErr};
ghost use Rattle.room.specs.Refusals.{Rises};
ghost use Rattle.grid_live.specs.Fitting.{CellsFit};

use crate::key_lists::{cell_keys, crossline_keys, inline_keys};
use crate::keys::Keys;
use crate::lists::histogram_of_cells;
use crate::{Cell, FoldCount, Line};
use key_counts::{lower_any, lower_both, raise_any, raise_both};
use record_table::{Reach, Records, Running};
use room::{OutOfMemory, Room};
use std::alloc::Global;
use trace_record::Record;
use window_counts::{CellCounts, Interval, LineCounts, Rectangle, Window};

/// How many traces each cell, inline and crossline has, over traces that come and go. It keeps its
/// allocator.
#[derive(Drop)]
pub struct Grid {
    records: u64,
    cells: CellCounts,
    inlines: LineCounts,
    crosslines: LineCounts,
    ghost fitting: { CellsFit cells },
}

impl Grid {
    ghost use Rattle.std.specs.Prelude.{◌≡◌, ◌+◌, ◌≤◌, ◌^◌, length, map, IfOk, OnOk, OnErr, IsOk};
    ghost use Rattle.trace_record.specs.Facts.{facts_of};
    ghost use Rattle.trace_record.specs.Keys.{Key, cell};
    ghost use Rattle.trace_record.specs.Tally.{Same, empty_tally, tally_of};
    ghost use Rattle.grid_live.specs.GridKeys.{keys_of_grid};
    ghost use Rattle.grid_live.specs.OfGrid.{count_in, HasRoom, tally_of_grid};
    ghost use Rattle.grid_live.specs.OfKeys.{times_among};
    ghost use Rattle.grid_live.specs.OfTally.{ShowsCells, ShowsInlines, ShowsCrosslines, ShowsHistogram};

    /// The number of traces at an inline and crossline, 0 where they have none, so also where one
    /// does not fit 32 bits. Takes no memory, and time as the logarithm of the number of cells.
    pub fn fold(&self, inline: i128, crossline: i128) -> u64
        ensures { result ≡ (tally_of_grid self.now).count (cell inline crossline) }
    {
        let Ok(inline) = i32::try_from(inline) else {
            return 0;
        };
        let Ok(crossline) = i32::try_from(crossline) else {
            return 0;
        };
        self.cells.count((inline, crossline))
    }

    /// The cells that have traces, rising by inline and then by crossline. Takes memory for the
    /// list and, where cells lie outside those of the load, for one more; refused only where that
    /// is.
    pub fn cells(&self, room: &mut Room) -> Result<Vec<Cell>, OutOfMemory>
        ensures cells { IfOk result (λ list. ShowsCells (tally_of_grid self.now) list.items) }
        ensures memory { Rises (IsErr result) room.old room.new }
    {
        let list = self.cells.list(room)?;
        Ok(list)
    }

    /// The inlines that have traces, rising, each with its number of traces. Takes memory for the
    /// list and, where inlines lie outside those of the load, for one more; refused only where that
    /// is.
    pub fn inlines(&self, room: &mut Room) -> Result<Vec<Line>, OutOfMemory>
        ensures inlines { IfOk result (λ list. ShowsInlines (tally_of_grid self.now) list.items) }
        ensures memory { Rises (IsErr result) room.old room.new }
    {
        let list = self.inlines.list(room)?;
        Ok(list)
    }

    /// The crosslines that have traces, rising, each with its number of traces. Takes memory for
    /// the list and, where crosslines lie outside those of the load, for one more; refused only
    /// where that is.
    pub fn crosslines(&self, room: &mut Room) -> Result<Vec<Line>, OutOfMemory>
        ensures crosslines { IfOk result (λ list. ShowsCrosslines (tally_of_grid self.now)
            list.items) }
        ensures memory { Rises (IsErr result) room.old room.new }
    {
        let list = self.crosslines.list(room)?;
        Ok(list)
    }

    /// The folds of the cells that have traces, rising, each with its number of cells. Takes
    /// memory for the list and, while it is made, for the cells and the counts of their folds, and
    /// is refused only where one of these is.
    pub fn histogram(&self, room: &mut Room) -> Result<Vec<FoldCount>, OutOfMemory>
        ensures histogram { IfOk result (λ list. ShowsHistogram (tally_of_grid self.now)
            list.items) }
        ensures memory { Rises (IsErr result) room.old room.new }
    {
        let cells = self.cells(room)?;
        histogram_of_cells(room, &cells)
    }

    // The grid of these records, each kind of key counted all at once.
    fn from_key_lists(room: &mut Room, records: &Records) -> Result<Grid, OutOfMemory>
        ensures same { IfOk result (λ grid.
            Same (tally_of_grid grid) (tally_of keys_of_grid (map facts_of records.now))) }
        ensures memory { Rises (IsErr result) room.old room.new }
    {
        let keys = cell_keys(room, records)?;
        let cells = CellCounts::from_keys(room, keys)?;
        let keys = inline_keys(room, records)?;
        let inlines = LineCounts::from_keys(room, keys)?;
        let keys = crossline_keys(room, records)?;
        let crosslines = LineCounts::from_keys(room, keys)?;
        Ok(Grid {
            records: records.len() as u64,
            cells,
            inlines,
            crosslines,
        })
    }

    // Counts the traces where none is counted.
    fn count_each(&mut self, room: &mut Room, records: &Records) -> Result<(), OutOfMemory>
        requires empty { Same (tally_of_grid self.old) empty_tally }
        requires few { length records.now ≤ 2 ^ 33 }
        ensures same { OnOk result
            (Same (tally_of_grid self.new) (tally_of keys_of_grid (map facts_of records.now))) }
        ensures memory { Rises (IsErr result) room.old room.new }
    {
        for trace in records.iter() {
            self.raise(room, &Keys::of(&trace))?;
            self.records += 1;
        }
        Ok(())
    }

    // Counts the keys once more, or none of them where a growth is refused.
    fn raise(&mut self, room: &mut Room, keys: &Keys) -> Result<(), OutOfMemory>
        requires { HasRoom self.old keys.now }
        ensures ok { OnOk result ((k : Key) →
            count_in self.new k ≡ count_in self.old k + times_among keys.now k) }
        ensures err { OnErr result ((k : Key) → count_in self.new k ≡ count_in self.old k) }
        ensures held { ((k : Key) → times_among keys.now k ≤ count_in self.old k) → IsOk result }
        ensures records { self.new.records ≡ self.old.records }
        ensures memory { Rises (IsErr result) room.old room.new }
    {
        raise_both(
            room,
            &mut self.inlines,
            keys.inline,
            &mut self.crosslines,
            keys.crossline,
        )?;
        if let Err(error) = raise_any(room, &mut self.cells, keys.cell) {
            lower_both(
                &mut self.inlines,
                keys.inline,
                &mut self.crosslines,
                keys.crossline,
            );
            return Err(error);
        }
        Ok(())
    }

    // Counts the keys once less.
    fn lower(&mut self, keys: &Keys)
        requires { (k : Key) → times_among keys.now k ≤ count_in self.old k }
        ensures less { (k : Key) →
            count_in self.old k ≡ count_in self.new k + times_among keys.now k }
        ensures records { self.new.records ≡ self.old.records }
    {
        lower_any(&mut self.cells, keys.cell);
        lower_both(
            &mut self.inlines,
            keys.inline,
            &mut self.crosslines,
            keys.crossline,
        );
    }
}

impl Running for Grid {
    ghost use Rattle.grid_live.specs.GridKeys.{keys_of_grid};
    ghost use Rattle.grid_live.specs.OfGrid.{tally_of_grid};

    ghost counted = { keys_of_grid };

    ghost tally = { tally_of_grid };

    fn new(alloc: Global) -> Grid {
        Grid {
            records: 0,
            cells: CellCounts::new(alloc),
            inlines: LineCounts::new(alloc),
            crosslines: LineCounts::new(alloc),
        }
    }

    fn from_records(
        room: &mut Room,
        records: &Records,
        reach: &Reach,
    ) -> Result<Grid, OutOfMemory> {
        let count = records.len();
        let window = Rectangle::over(&reach.cells(), count);
        if window.len() == 0 {
            return Grid::from_key_lists(room, records);
        }
        let inlines = LineCounts::within(room, Interval::over(&reach.inlines(), count))?;
        let crosslines = LineCounts::within(room, Interval::over(&reach.crosslines(), count))?;
        let mut grid = Grid {
            records: 0,
            cells: CellCounts::within(room, window)?,
            inlines,
            crosslines,
        };
        grid.count_each(room, records)?;
        Ok(grid)
    }

    fn add(&mut self, room: &mut Room, trace: &Record) -> Result<(), OutOfMemory> {
        self.raise(room, &Keys::of(trace))?;
        self.records += 1;
        Ok(())
    }

    fn remove(&mut self, trace: &Record) {
        self.lower(&Keys::of(trace));
        self.records -= 1;
    }

    fn add_beside(
        &mut self,
        room: &mut Room,
        trace: &Record,
        other: &Record,
    ) -> Result<(), OutOfMemory> {
        self.raise(room, &Keys::beside(trace, other))?;
        self.records += 1;
        Ok(())
    }

    fn remove_beside(&mut self, trace: &Record, other: &Record) {
        self.lower(&Keys::beside(trace, other));
        self.records -= 1;
    }
}
