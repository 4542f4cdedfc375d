// The inlines and crosslines of the traces of a volume, asked for one after another.
ghost use Rattle.std.specs.Prelude.{◌≡◌, slice_get, option_map};

use crate::cells_ahead::CellsAhead;
use record_table::{CellsIter, Records};
use std::marker::Model;

// Records, seen as their list, and the place behind those that were asked for from the first on.
// The record there is not searched for.
#[derive(Drop)]
pub(crate) struct CellWalk<'a> {
    records: &'a Records<'a>,
    ahead: CellsAhead<'a>,
    left: CellsIter<'a>,
    place: usize,
}

impl<'a> Model for CellWalk<'a> {
    ghost use Rattle.std.specs.Prelude.{◌≡◌, List, drop, map};
    ghost use Rattle.std.specs.Coded.{codes};
    ghost use Rattle.trace_record.specs.Packed.{cell_of};
    ghost use Rattle.trace_record.specs.contracts.record.Record as record_contract;
    ghost use Rattle.trace_record.specs.declared.record.Record.{Record};

    ghost Value = { List Record };

    ghost coded = { Prim.hlevel (codes, record_contract.the_row.coded) };

    ghost view = { λ w. w.records.now };

    ghost invariant = { λ w. w.left ≡ drop w.place (map cell_of w.records.now) };
}

impl<'a> CellWalk<'a> {
    ghost use Rattle.std.specs.Prelude.{◌≡◌, slice_get, option_map};
    ghost use Rattle.trace_record.specs.Packed.{cell_of};

    pub(crate) fn new(records: &'a Records<'a>) -> CellWalk<'a>
        ensures { result ≡ records.now }
    {
        CellWalk {
            records,
            ahead: CellsAhead::new(records.cells()),
            left: records.cells(),
            place: 0,
        }
    }

    // The inline and crossline of the record at a place; `None` where there is none.
    pub(crate) fn get(&mut self, place: usize) -> Option<(i32, i32)>
        ensures cell { result ≡ option_map cell_of (slice_get self.old place) }
        ensures records { self.new ≡ self.old }
    {
        if place != self.place || place == usize::MAX {
            let record = self.records.get(place)?;
            return Some((record.inline, record.crossline));
        }
        self.ahead.step();
        self.place += 1;
        self.left.next()
    }
}
