ghost use Rattle.std.specs.Prelude.{◌≡◌, ◌+◌, ◌*◌, ◌<◌, length, IsErr};
ghost use Rattle.room.specs.Refusals.{Rises};
ghost use Rattle.window_counts.specs.Places.{numbers_in, place_below, offset_at as offset_of};

use crate::rectangle::{Rectangle, RectangleExtent};
use crate::window::{Extent, Window};
use room::{OutOfMemory, Room};
use std::alloc::Global;

/// The cells of a rectangle, each at one offset and with a place, row by row. Either all are at the
/// same offset, or each is at its own, which takes 4 bytes a cell; a row that is added has the
/// offsets of the last one that there was at first.
#[derive(Drop)]
pub struct OffsetRectangle {
    cells: Rectangle,
    offset: i32,
    own: Option<Vec<i32>>,
}

impl OffsetRectangle {
    /// Cells as `over`'s for so many keys that reach so far, where these lie densely and there are
    /// at least half as many cells as keys; else none. Each cell has the offset that it `meet`s
    /// last, and before that the usual one. Takes memory for the offsets; refused for want of it
    /// alone. Which places there are costs time and memory, and changes no number.
    pub fn by_cell(
        room: &mut Room,
        extent: &OffsetExtent,
        keys: usize,
    ) -> Result<OffsetRectangle, OutOfMemory>
        ensures memory { Rises (IsErr result) room.old room.new }
    {
        let cells = Rectangle::over(&extent.cells, keys);
        if cells.len() < keys / 2 {
            return Ok(OffsetRectangle::none());
        }
        let own = room.told(vec![in room.alloc(); extent.offset; cells.len()])?;
        Ok(OffsetRectangle {
            cells,
            offset: extent.offset,
            own: Some(own),
        })
    }

    /// The cell of the triple is at its offset from now on, where each is at its own; a triple
    /// outside changes nothing. Takes no memory.
    pub fn meet(&mut self, key: (i32, i32, i32)) {
        if let Some(place) = self.cells.place_of((key.0, key.1))
            && let Some(own) = &mut self.own
            && let Some(offset) = own.get_mut(place)
        {
            *offset = key.2;
        }
    }

    // The offset of the cell at a place.
    fn offset_at(&self, place: usize) -> i32
        requires { place < (self.now.cells.rows.count + length (numbers_in
            self.now.cells.rows.added)) * self.now.cells.columns }
        ensures { result ≡ offset_of self.now.own self.now.offset
            (place_below self.now.cells.rows.count self.now.cells.columns place) }
    {
        self.first_offset(self.cells.place_below(place))
    }

    // The offset at a place of the rows that there were at first.
    fn first_offset(&self, place: usize) -> i32
        ensures { result ≡ offset_of self.now.own self.now.offset place }
    {
        match &self.own {
            Some(own) => own.get(place).copied().unwrap_or(self.offset),
            None => self.offset,
        }
    }
}

impl Window<(i32, i32, i32)> for OffsetRectangle {
    ghost use Rattle.std.specs.Prelude.{◌+◌, ◌*◌, ◌<◌, ◌^◌, length};
    ghost use Rattle.window_counts.specs.Places.{row_place, row_key, numbers_in, CanAdd, place_below, offset_at, triple_place, triple_key};
    ghost use Rattle.window_counts.specs.PlaceLaws.{rows_placed, triple_placed};

    type Extent = OffsetExtent;

    ghost size = { λ w.
        (w.cells.rows.count + length (numbers_in w.cells.rows.added)) * w.cells.columns };

    ghost place = { λ w. triple_place
        (row_place w.cells.rows.lowest w.cells.rows.count (numbers_in w.cells.rows.added))
        w.cells.crossline w.cells.columns
        (λ p. offset_at w.own w.offset (place_below w.cells.rows.count w.cells.columns p)) };

    ghost key_of = { λ w. triple_key
        (row_key w.cells.rows.lowest w.cells.rows.count (numbers_in w.cells.rows.added))
        w.cells.crossline w.cells.columns
        (λ p. offset_at w.own w.offset (place_below w.cells.rows.count w.cells.columns p)) };

    ghost row = { λ w. w.cells.columns };

    ghost CanGrow = { λ w k.
        CanAdd w.cells.rows.lowest w.cells.rows.count w.cells.rows.added k.0 ×
        ((w.cells.rows.count + length (numbers_in w.cells.rows.added) + 1) * w.cells.columns <
        2 ^ 64) };

    fn none() -> OffsetRectangle {
        OffsetRectangle {
            cells: Rectangle::none(),
            offset: 0,
            own: None,
        }
    }

    // None where few keys share an offset: then each cell may be at its own (`by_cell`).
    fn over(extent: &OffsetExtent, keys: usize) -> OffsetRectangle {
        if extent.votes < keys as u64 / 2 {
            return OffsetRectangle::none();
        }
        OffsetRectangle {
            cells: Rectangle::over(&extent.cells, keys),
            offset: extent.offset,
            own: None,
        }
    }

    fn len(&self) -> usize {
        self.cells.len()
    }

    fn place_of(&self, key: (i32, i32, i32)) -> Option<usize> {
        let place = self.cells.place_of((key.0, key.1))?;
        if key.2 == self.offset_at(place) {
            Some(place)
        } else {
            None
        }
    }

    fn prepare(&mut self, alloc: Global) {
        self.cells.prepare_rows(alloc);
    }

    fn can_grow(&self, key: (i32, i32, i32)) -> bool {
        self.cells.can_grow((key.0, key.1))
            && match self.cells.place_in_last_row(key.1) {
                Some(place) => self.first_offset(place) == key.2,
                None => false,
            }
    }

    fn row_len(&self) -> usize {
        self.cells.row_len()
    }

    fn added_len(&self) -> usize {
        self.cells.added_len()
    }

    fn grow(&mut self, key: (i32, i32, i32)) {
        self.cells.add_row(key.0);
    }

    fn key_at(&self, at: usize) -> (i32, i32, i32) {
        let cell = self.cells.key_at(at);
        (cell.0, cell.1, self.offset_at(at))
    }

    ghost placed = { λ w. triple_placed (w.cells.rows.count + length (numbers_in
        w.cells.rows.added))
        (row_place w.cells.rows.lowest w.cells.rows.count (numbers_in w.cells.rows.added))
        (row_key w.cells.rows.lowest w.cells.rows.count (numbers_in w.cells.rows.added))
        (rows_placed w.cells.rows.lowest w.cells.rows.count (numbers_in w.cells.rows.added)
        w.cells.rows.fit) w.cells.crossline w.cells.columns
        (λ p. offset_at w.own w.offset (place_below w.cells.rows.count w.cells.columns p)) };
}

/// The least and the greatest inline and crossline of triples, and their usual offset: that of more
/// than half of them, where there is one. Each triple with another offset takes one of its votes.
#[derive(Clone, Copy)]
pub struct OffsetExtent {
    cells: RectangleExtent,
    offset: i32,
    votes: u64,
}

impl OffsetExtent {
    /// The least and the greatest inline and crossline. Takes no memory.
    pub fn cells(&self) -> RectangleExtent {
        self.cells
    }
}

impl Extent<(i32, i32, i32)> for OffsetExtent {
    fn none() -> OffsetExtent {
        OffsetExtent {
            cells: RectangleExtent::none(),
            offset: 0,
            votes: 0,
        }
    }

    fn include(&mut self, key: (i32, i32, i32)) {
        self.cells.include((key.0, key.1));
        if key.2 == self.offset {
            self.votes = self.votes.saturating_add(1);
        } else if self.votes == 0 {
            self.offset = key.2;
            self.votes = 1;
        } else {
            self.votes -= 1;
        }
    }
}
