ghost use Rattle.std.specs.Prelude.{◌≡◌, pos, ◌+ℤ◌, ◌-ℤ◌, ◌≤ℤ◌, ◌<ℤ◌, ◌^◌, ◌≤◌};
ghost use Rattle.std.specs.Bool.{OnTrue};
ghost use Rattle.window_counts.specs.Places.{place_within, interval_key};

use crate::window::{Extent, Window};
use std::alloc::Global;

/// So many whole numbers from the lowest one on, each with a place.
#[derive(Clone, Copy)]
pub struct Interval {
    lowest: i32,
    places: usize,
    ghost fits: { (lowest +ℤ pos places) ≤ℤ pos (2 ^ 31) },
}

impl Window<i32> for Interval {
    ghost use Rattle.std.specs.Prelude.{⊤};
    ghost use Rattle.window_counts.specs.Places.{interval_place, interval_key};
    ghost use Rattle.window_counts.specs.PlaceLaws.{interval_placed};

    type Extent = IntervalExtent;

    ghost size = { λ w. w.places };

    ghost place = { λ w. interval_place w.lowest w.places };

    ghost key_of = { λ w. interval_key w.lowest };

    ghost row = { λ w. 0 };

    // A row of an interval has no place, so that one more changes nothing.
    ghost CanGrow = { λ w k. ⊤ };

    fn none() -> Interval {
        Interval {
            lowest: 0,
            places: 0,
        }
    }

    fn over(extent: &IntervalExtent, keys: usize) -> Interval {
        let places = extent.len();
        if is_dense(places, keys) {
            Interval {
                lowest: extent.least,
                places,
            }
        } else {
            Interval::none()
        }
    }

    fn len(&self) -> usize {
        self.places
    }

    fn place_of(&self, key: i32) -> Option<usize> {
        place_from(self.lowest, self.places, key)
    }

    // No row is added: a number above the interval is outside.
    fn prepare(&mut self, _alloc: Global) {}

    fn can_grow(&self, _key: i32) -> bool {
        false
    }

    fn row_len(&self) -> usize {
        0
    }

    fn added_len(&self) -> usize {
        0
    }

    fn grow(&mut self, _key: i32) {}

    fn key_at(&self, at: usize) -> i32 {
        key_from(self.lowest, at)
    }

    ghost placed = { λ w. interval_placed w.lowest w.places };
}

impl Interval {
    // The lowest number that has a place, where one has.
    pub(crate) fn lowest(&self) -> i32
        ensures { result ≡ self.now.lowest }
    {
        self.lowest
    }
}

/// The least and the greatest of whole numbers.
#[derive(Clone, Copy)]
pub struct IntervalExtent {
    least: i32,
    greatest: i32,
}

impl Extent<i32> for IntervalExtent {
    fn none() -> IntervalExtent {
        IntervalExtent {
            least: i32::MAX,
            greatest: i32::MIN,
        }
    }

    fn include(&mut self, key: i32) {
        self.least = self.least.min(key);
        self.greatest = self.greatest.max(key);
    }
}

impl IntervalExtent {
    // The least, of none the greatest number that there is.
    pub(crate) fn least(&self) -> i32
        ensures { result ≡ self.now.least }
    {
        self.least
    }

    // How many whole numbers there are from the least to the greatest.
    pub(crate) fn len(&self) -> usize
        ensures fits { (self.now.least +ℤ pos result) ≤ℤ pos (2 ^ 31) }
        ensures small { result ≤ 2 ^ 32 }
    {
        if self.greatest < self.least {
            return 0;
        }
        (i64::from(self.greatest) - i64::from(self.least) + 1) as usize
    }
}

// Whether so many places are at most 2 for each of so many keys, and 1,024: they then take no more
// memory than counts in order, but for 8 KiB, or 12 where each cell has an offset of its own. Rows
// that are added later may take as much once more.
pub(crate) fn is_dense(places: usize, keys: usize) -> bool {
    places / 2 <= keys.saturating_add(512)
}

// The place of a whole number among so many from the lowest on.
pub(crate) fn place_from(lowest: i32, places: usize, key: i32) -> Option<usize>
    ensures { result ≡ place_within places (key -ℤ lowest) }
{
    if key < lowest {
        return None;
    }
    let place = (i64::from(key) - i64::from(lowest)) as usize;
    if place < places { Some(place) } else { None }
}

// Whether a whole number lies above so many from the lowest on.
pub(crate) fn is_above(lowest: i32, places: usize, key: i32) -> bool
    requires { places ≤ 2 ^ 32 }
    ensures { OnTrue result ((lowest +ℤ pos places) ≤ℤ key) }
{
    i64::from(lowest) + places as i64 <= i64::from(key)
}

// The whole number of a place.
pub(crate) fn key_from(lowest: i32, place: usize) -> i32
    requires { (lowest +ℤ pos place) <ℤ pos (2 ^ 31) }
    ensures { result ≡ interval_key lowest place }
{
    (i64::from(lowest) + place as i64) as i32
}
