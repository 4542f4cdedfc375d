// The rows of a rectangle.
ghost use Rattle.std.specs.Prelude.{◌≡◌, ◌+◌, ◌<◌, [], ◌∷◌, ◌++◌, length, option_map};
ghost use Rattle.std.specs.Bool.{OnTrue};
ghost use Rattle.window_counts.specs.Places.{index_of, row_place, row_key, AreRows, CanAdd, numbers_in};

use crate::interval::{IntervalExtent, is_above, key_from, place_from};
use std::alloc::Global;

/// Inlines that have a row each: so many from the lowest one on, and behind them those that were
/// added, which rise.
#[derive(Drop)]
pub(crate) struct Rows {
    lowest: i32,
    count: usize,
    added: Option<Vec<i32>>,
    ghost fit: { AreRows lowest count (numbers_in added) },
}

impl Rows {
    /// No row. Takes no memory.
    pub(crate) fn none() -> Rows
        ensures count { result.count ≡ 0 }
        ensures added { numbers_in result.added ≡ [] }
    {
        Rows {
            lowest: 0,
            count: 0,
            added: None,
        }
    }

    /// A row for each inline from the least to the greatest. Takes no memory.
    pub(crate) fn of(extent: &IntervalExtent) -> Rows
        ensures { numbers_in result.added ≡ [] }
    {
        Rows {
            lowest: extent.least(),
            count: extent.len(),
            added: None,
        }
    }

    /// How many rows there were at first. Takes no memory.
    pub(crate) fn first_count(&self) -> usize
        ensures { result ≡ self.now.count }
    {
        self.count
    }

    /// How many rows there are. Takes no memory.
    pub(crate) fn len(&self) -> usize
        ensures { result ≡ self.now.count + length (numbers_in self.now.added) }
    {
        self.count + self.added().len()
    }

    // The inlines of the rows that were added.
    fn added(&self) -> &[i32]
        ensures { result.now ≡ numbers_in self.now.added }
    {
        match &self.added {
            Some(added) => added.as_slice(),
            None => &[],
        }
    }

    /// The row of the inline, where it has one. Takes no memory.
    pub(crate) fn place_of(&self, inline: i32) -> Option<usize>
        ensures { result ≡ row_place self.now.lowest self.now.count (numbers_in self.now.added)
            inline }
    {
        match place_from(self.lowest, self.count, inline) {
            Some(place) => Some(place),
            None => self.place_behind(inline),
        }
    }

    // The row of the inline among those that were added.
    fn place_behind(&self, inline: i32) -> Option<usize>
        ensures { result ≡
            option_map (λ i. self.now.count + i) (index_of (numbers_in self.now.added) inline) }
    {
        match self.added().binary_search(&inline) {
            Ok(at) => Some(self.count + at),
            Err(_) => None,
        }
    }

    /// The inline of a row. Takes no memory.
    pub(crate) fn key_at(&self, row: usize) -> i32
        requires { row < self.now.count + length (numbers_in self.now.added) }
        ensures { result ≡ row_key self.now.lowest self.now.count (numbers_in self.now.added) row }
    {
        if row < self.count {
            return key_from(self.lowest, row);
        }
        self.added()[row - self.count]
    }

    /// Makes room for as many inlines more as there are rows. Takes memory; where it is refused, no
    /// row can be added.
    pub(crate) fn prepare(&mut self, alloc: Global)
        ensures lowest { self.new.lowest ≡ self.old.lowest }
        ensures count { self.new.count ≡ self.old.count }
        ensures added { numbers_in self.new.added ≡ numbers_in self.old.added }
    {
        if self.added.is_none()
            && let Ok(added) = Vec::with_capacity(alloc, self.count)
        {
            self.added = Some(added);
        }
    }

    /// Whether a row for the inline can be added: it lies above all others, there is room for it,
    /// and fewer were added than there were at first. Takes no memory.
    pub(crate) fn can_add(&self, inline: i32) -> bool
        ensures { OnTrue result (CanAdd self.now.lowest self.now.count self.now.added inline) }
    {
        let Some(added) = &self.added else {
            return false;
        };
        if added.len() >= self.count || added.len() == added.capacity() {
            return false;
        }
        match added.last() {
            Some(last) => *last < inline,
            None => is_above(self.lowest, self.count, inline),
        }
    }

    /// Adds a row for the inline behind the others. Takes no memory.
    pub(crate) fn add(&mut self, inline: i32)
        requires { CanAdd self.old.lowest self.old.count self.old.added inline }
        ensures lowest { self.new.lowest ≡ self.old.lowest }
        ensures count { self.new.count ≡ self.old.count }
        ensures added { numbers_in self.new.added ≡ numbers_in self.old.added ++ inline ∷ [] }
    {
        if let Some(added) = &mut self.added {
            added.push_reserved(inline);
        }
    }
}
