use crate::interval::{Interval, IntervalExtent};
use crate::window::{Extent, Window};
use std::alloc::Global;

/// So many whole numbers from the lowest one on, each with a place, among numbers of 128 bits.
/// Those that have a place fit 32 bits.
#[derive(Clone, Copy)]
pub struct WideInterval {
    numbers: Interval,
}

impl Window<i128> for WideInterval {
    ghost use Rattle.std.specs.Prelude.{⊤};
    ghost use Rattle.window_counts.specs.Places.{interval_place, interval_key};
    ghost use Rattle.window_counts.specs.PlaceLaws.{interval_placed};

    type Extent = WideExtent;

    ghost size = { λ w. w.numbers.places };

    ghost place = { λ w. interval_place w.numbers.lowest w.numbers.places };

    ghost key_of = { λ w. interval_key w.numbers.lowest };

    ghost row = { λ w. 0 };

    // A row of an interval has no place, so that one more changes nothing.
    ghost CanGrow = { λ w k. ⊤ };

    fn none() -> WideInterval {
        WideInterval {
            numbers: Interval::none(),
        }
    }

    fn over(extent: &WideExtent, keys: usize) -> WideInterval {
        WideInterval {
            numbers: Interval::over(&extent.narrow(), keys),
        }
    }

    fn len(&self) -> usize {
        self.numbers.len()
    }

    fn place_of(&self, key: i128) -> Option<usize> {
        // Read for the proof alone, which learns that a number with a place fits 32 bits.
        let _lowest = self.numbers.lowest();
        match i32::try_from(key) {
            Ok(number) => self.numbers.place_of(number),
            Err(_) => None,
        }
    }

    // No row is added: a number above the interval is outside.
    fn prepare(&mut self, _alloc: Global) {}

    fn can_grow(&self, _key: i128) -> bool {
        false
    }

    fn row_len(&self) -> usize {
        0
    }

    fn added_len(&self) -> usize {
        0
    }

    fn grow(&mut self, _key: i128) {}

    fn key_at(&self, at: usize) -> i128 {
        i128::from(self.numbers.key_at(at))
    }

    ghost placed = { λ w. interval_placed w.numbers.lowest w.numbers.places };
}

/// The least and the greatest of whole numbers of 128 bits.
#[derive(Clone, Copy)]
pub struct WideExtent {
    least: i128,
    greatest: i128,
}

impl Extent<i128> for WideExtent {
    fn none() -> WideExtent {
        WideExtent {
            least: i128::MAX,
            greatest: i128::MIN,
        }
    }

    fn include(&mut self, key: i128) {
        self.least = self.least.min(key);
        self.greatest = self.greatest.max(key);
    }
}

impl WideExtent {
    // The same of numbers of 32 bits, and of none where one does not fit.
    fn narrow(&self) -> IntervalExtent {
        let mut extent = IntervalExtent::none();
        if let Ok(least) = i32::try_from(self.least)
            && let Ok(greatest) = i32::try_from(self.greatest)
        {
            extent.include(least);
            extent.include(greatest);
        }
        extent
    }
}
