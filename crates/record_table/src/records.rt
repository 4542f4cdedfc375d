ghost use Rattle.std.specs.Prelude.{◌≡◌, ◌==◌, length, slice_get, map};
ghost use Rattle.trace_record.specs.Packed.{cell_of, record_in};

use crate::{CellsIter, RecordsIter};
use std::marker::Model;
use trace_record::{PackedRecord, Record};
use trace_store::Column;

/// The records of traces in order, as the table of traces has them. Seen as the list of the
/// records. Places count from 0. Takes no memory.
#[derive(Drop)]
pub struct Records<'a> {
    column: Column<'a, PackedRecord>,
}

impl<'a> Model for Records<'a> {
    ghost use Rattle.std.specs.Prelude.{List, map};
    ghost use Rattle.std.specs.Coded.{codes};
    ghost use Rattle.trace_record.specs.contracts.record.Record as record_contract;
    ghost use Rattle.trace_record.specs.declared.record.Record.{Record};

    ghost Value = { List Record };

    ghost coded = { Prim.hlevel (codes, record_contract.the_row.coded) };

    ghost use Rattle.trace_record.specs.Packed.{record_in};

    ghost view = { λ a. map record_in a.column };
}

impl<'a> Records<'a> {
    /// The records that the payloads are.
    pub fn new(column: Column<'a, PackedRecord>) -> Records<'a>
        ensures { result ≡ map record_in column.entry }
    {
        Records { column }
    }

    /// How many records.
    pub fn len(&self) -> usize
        ensures { result ≡ length self.now }
    {
        self.column.len()
    }

    /// Whether there is no record.
    pub fn is_empty(&self) -> bool
        ensures { result ≡ (length self.now == 0) }
    {
        self.len() == 0
    }

    /// The record at a place; `None` where there is none.
    pub fn get(&self, place: usize) -> Option<Record>
        ensures { result ≡ slice_get self.now place }
    {
        match self.column.get(place) {
            Some(packed) => Some(packed.record()),
            None => None,
        }
    }

    /// The records in order.
    pub fn iter(&self) -> RecordsIter<'_>
        ensures { result ≡ self.now }
    {
        RecordsIter::new(self.column.iter())
    }

    /// The inlines and crosslines of the records in order, nothing else of which is read.
    pub fn cells(&self) -> CellsIter<'_>
        ensures { result ≡ map cell_of self.now }
    {
        CellsIter::new(self.column.iter())
    }
}
