ghost use Rattle.std.specs.Prelude.{◌≡◌, map};
ghost use Rattle.trace_record.specs.Packed.{cell_of, record_in};

use std::marker::Model;
use trace_record::PackedRecord;
use trace_store::Payloads;

/// An iterator over the inlines and crosslines of `Records`, in order. Seen as the list of those
/// that are left.
#[derive(Drop)]
pub struct CellsIter<'a> {
    payloads: Payloads<'a, PackedRecord>,
}

impl<'a> Model for CellsIter<'a> {
    ghost use Rattle.std.specs.Prelude.{ℤ, List, map};

    ghost Value = { List (ℤ × ℤ) };

    ghost use Rattle.trace_record.specs.Packed.{cell_of, record_in};

    ghost view = { λ s. map cell_of (map record_in s.payloads) };
}

impl<'a> CellsIter<'a> {
    pub(crate) fn new(payloads: Payloads<'a, PackedRecord>) -> CellsIter<'a>
        ensures { result ≡ map cell_of (map record_in payloads.entry) }
    {
        CellsIter { payloads }
    }
}

impl<'a> Iterator for CellsIter<'a> {
    ghost use Rattle.std.specs.Iterator.{YieldsFirst, item_count};

    type Item = (i32, i32);

    ghost next_gives = { YieldsFirst (λ s. s) };

    ghost remaining = { item_count (λ s. s) };

    #[inline]
    fn next(&mut self) -> Option<(i32, i32)> {
        let packed = self.payloads.next()?;
        Some(packed.cell())
    }
}
