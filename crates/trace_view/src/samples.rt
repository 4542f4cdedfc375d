ghost use Rattle.std.specs.Prelude.{◌≡◌, ◌*◌, ◌≤◌, length};
ghost use Rattle.sample_codes.specs.Formats.{value_width};
ghost use Rattle.trace_view.specs.Values.{samples_in};

use crate::cursor::Cursor;
use num_order::Order;
use sample_codes::ValueFormat;
use std::marker::Model;

/// An iterator over the values of the samples of a trace, in order. Seen as the list of those that
/// are left. Takes no memory.
#[derive(Drop)]
pub struct Samples<'a> {
    order: Order,
    format: ValueFormat,
    left: u32,
    cursor: Cursor<'a>,
}

impl<'a> Model for Samples<'a> {
    ghost use Rattle.std.specs.Prelude.{ℤ, List, ◌*◌, ◌≤◌, length};
    ghost use Rattle.sample_codes.specs.Formats.{value_width};
    ghost use Rattle.trace_view.specs.Values.{samples_in};

    ghost Value = { List ℤ };

    ghost view = { λ s. samples_in s.order s.format s.left s.cursor };

    ghost invariant = { λ s. value_width s.format * s.left ≤ length s.cursor };
}

impl<'a> Samples<'a> {
    // So many samples behind the cursor.
    pub(crate) fn new(
        order: Order,
        format: ValueFormat,
        left: u32,
        cursor: Cursor<'a>,
    ) -> Samples<'a>
        requires { value_width format * left ≤ length cursor }
        ensures { result ≡ samples_in order format left cursor.entry }
    {
        Samples {
            order,
            format,
            left,
            cursor,
        }
    }
}

impl<'a> Iterator for Samples<'a> {
    ghost use Rattle.std.specs.Iterator.{YieldsFirst, item_count};

    type Item = i128;

    ghost next_gives = { YieldsFirst (λ s. s) };

    ghost remaining = { item_count (λ s. s) };

    #[inline]
    fn next(&mut self) -> Option<i128> {
        if self.left == 0 {
            return None;
        }
        self.left -= 1;
        Some(self.cursor.sample(self.order, self.format))
    }
}
