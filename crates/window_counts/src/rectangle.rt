ghost use Rattle.std.specs.Prelude.{◌≡◌, ◌+◌, ◌*◌, ◌^◌, ◌<◌, [], ◌∷◌, ◌++◌, length};
ghost use Rattle.window_counts.specs.Places.{IsRectangle, CanAdd, numbers_in, place_below};

use crate::interval::{IntervalExtent, is_dense, key_from, place_from};
use crate::rows::Rows;
use crate::window::{Extent, Window};
use std::alloc::Global;

/// The cells of so many inlines and crosslines from the lowest ones on, each with a place, row by
/// row, and of the inlines that were added behind them.
#[derive(Drop)]
pub struct Rectangle {
    rows: Rows,
    crossline: i32,
    columns: usize,
    ghost fits: { IsRectangle (rows.count + length (numbers_in rows.added)) crossline columns },
}

impl Rectangle {
    // A place itself, or, in a row that was added, the one in its column of the last row that there
    // was at first.
    pub(crate) fn place_below(&self, place: usize) -> usize
        requires { place < (self.now.rows.count + length (numbers_in self.now.rows.added)) *
            self.now.columns }
        ensures { result ≡ place_below self.now.rows.count self.now.columns place }
    {
        let rows = self.rows.first_count();
        if place < rows * self.columns {
            place
        } else {
            (rows - 1) * self.columns + place % self.columns
        }
    }

    // Makes room for the inlines of rows that are added.
    pub(crate) fn prepare_rows(&mut self, alloc: Global)
        ensures lowest { self.new.rows.lowest ≡ self.old.rows.lowest }
        ensures count { self.new.rows.count ≡ self.old.rows.count }
        ensures added { numbers_in self.new.rows.added ≡ numbers_in self.old.rows.added }
        ensures crossline { self.new.crossline ≡ self.old.crossline }
        ensures columns { self.new.columns ≡ self.old.columns }
    {
        self.rows.prepare(alloc);
    }

    // Adds a row behind the others.
    pub(crate) fn add_row(&mut self, inline: i32)
        requires can { CanAdd self.old.rows.lowest self.old.rows.count self.old.rows.added inline }
        requires area { (self.old.rows.count + length (numbers_in self.old.rows.added) + 1) *
            self.old.columns < 2 ^ 64 }
        ensures lowest { self.new.rows.lowest ≡ self.old.rows.lowest }
        ensures count { self.new.rows.count ≡ self.old.rows.count }
        ensures added { numbers_in self.new.rows.added ≡
            numbers_in self.old.rows.added ++ inline ∷ [] }
        ensures crossline { self.new.crossline ≡ self.old.crossline }
        ensures columns { self.new.columns ≡ self.old.columns }
    {
        self.rows.add(inline);
    }

    // The place of the crossline in the last row that there was at first.
    pub(crate) fn place_in_last_row(&self, crossline: i32) -> Option<usize> {
        let column = place_from(self.crossline, self.columns, crossline)?;
        let last = self.rows.first_count().checked_sub(1)?;
        Some(last * self.columns + column)
    }
}

impl Window<(i32, i32)> for Rectangle {
    ghost use Rattle.std.specs.Prelude.{◌+◌, ◌*◌, ◌<◌, ◌^◌, length};
    ghost use Rattle.window_counts.specs.Places.{row_place, row_key, numbers_in, CanAdd, cell_place, cell_key};
    ghost use Rattle.window_counts.specs.PlaceLaws.{rows_placed, cell_placed};

    type Extent = RectangleExtent;

    ghost size = { λ w. (w.rows.count + length (numbers_in w.rows.added)) * w.columns };

    ghost place = { λ w. cell_place
        (row_place w.rows.lowest w.rows.count (numbers_in w.rows.added)) w.crossline w.columns };

    ghost key_of = { λ w. cell_key
        (row_key w.rows.lowest w.rows.count (numbers_in w.rows.added)) w.crossline w.columns };

    ghost row = { λ w. w.columns };

    ghost CanGrow = { λ w k. CanAdd w.rows.lowest w.rows.count w.rows.added k.0 ×
        ((w.rows.count + length (numbers_in w.rows.added) + 1) * w.columns < 2 ^ 64) };

    fn none() -> Rectangle {
        Rectangle {
            rows: Rows::none(),
            crossline: 0,
            columns: 0,
        }
    }

    fn over(extent: &RectangleExtent, keys: usize) -> Rectangle {
        let rows = Rows::of(&extent.inlines);
        let columns = extent.crosslines.len();
        match rows.len().checked_mul(columns) {
            Some(places) if is_dense(places, keys) => Rectangle {
                rows,
                crossline: extent.crosslines.least(),
                columns,
            },
            _ => Rectangle::none(),
        }
    }

    fn len(&self) -> usize {
        self.rows.len() * self.columns
    }

    fn place_of(&self, key: (i32, i32)) -> Option<usize> {
        let row = self.rows.place_of(key.0)?;
        let column = place_from(self.crossline, self.columns, key.1)?;
        Some(row * self.columns + column)
    }

    fn prepare(&mut self, alloc: Global) {
        self.prepare_rows(alloc);
    }

    fn can_grow(&self, key: (i32, i32)) -> bool {
        self.rows.can_add(key.0)
            && place_from(self.crossline, self.columns, key.1).is_some()
            && (self.rows.len() + 1).checked_mul(self.columns).is_some()
    }

    fn row_len(&self) -> usize {
        self.columns
    }

    fn added_len(&self) -> usize {
        self.len() - self.rows.first_count() * self.columns
    }

    fn grow(&mut self, key: (i32, i32)) {
        self.add_row(key.0);
    }

    fn key_at(&self, at: usize) -> (i32, i32) {
        let row = at / self.columns;
        let column = at % self.columns;
        (self.rows.key_at(row), key_from(self.crossline, column))
    }

    ghost placed = { λ w. cell_placed (w.rows.count + length (numbers_in w.rows.added))
        (row_place w.rows.lowest w.rows.count (numbers_in w.rows.added))
        (row_key w.rows.lowest w.rows.count (numbers_in w.rows.added))
        (rows_placed w.rows.lowest w.rows.count (numbers_in w.rows.added) w.rows.fit)
        w.crossline w.columns };
}

/// The least and the greatest inline and crossline of cells.
#[derive(Clone, Copy)]
pub struct RectangleExtent {
    inlines: IntervalExtent,
    crosslines: IntervalExtent,
}

impl Extent<(i32, i32)> for RectangleExtent {
    fn none() -> RectangleExtent {
        RectangleExtent {
            inlines: IntervalExtent::none(),
            crosslines: IntervalExtent::none(),
        }
    }

    fn include(&mut self, key: (i32, i32)) {
        self.inlines.include(key.0);
        self.crosslines.include(key.1);
    }
}

impl RectangleExtent {
    /// The least and the greatest inline. Takes no memory.
    pub fn inlines(&self) -> IntervalExtent {
        self.inlines
    }

    /// The least and the greatest crossline. Takes no memory.
    pub fn crosslines(&self) -> IntervalExtent {
        self.crosslines
    }
}
