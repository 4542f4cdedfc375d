ghost use Rattle.std.specs.Prelude.{◌≡◌, map};
ghost use Rattle.trace_record.specs.Packed.{record_in};

use std::marker::Model;
use trace_record::{PackedRecord, Record};
use trace_store::Payloads;

/// An iterator over `Records`, in order. Seen as the list of those that are left.
#[derive(Drop)]
pub struct RecordsIter<'a> {
    payloads: Payloads<'a, PackedRecord>,
}

impl<'a> Model for RecordsIter<'a> {
    ghost use Rattle.std.specs.Prelude.{List, map};
    ghost use Rattle.std.specs.Coded.{codes};
    ghost use Rattle.trace_record.specs.contracts.record.Record as record_contract;
    ghost use Rattle.trace_record.specs.declared.record.Record.{Record};

    ghost Value = { List Record };

    ghost coded = { Prim.hlevel (codes, record_contract.the_row.coded) };

    ghost use Rattle.trace_record.specs.Packed.{record_in};

    ghost view = { λ s. map record_in s.payloads };
}

impl<'a> RecordsIter<'a> {
    pub(crate) fn new(payloads: Payloads<'a, PackedRecord>) -> RecordsIter<'a>
        ensures { result ≡ map record_in payloads.entry }
    {
        RecordsIter { payloads }
    }
}

impl<'a> Iterator for RecordsIter<'a> {
    ghost use Rattle.std.specs.Iterator.{YieldsFirst, item_count};

    type Item = Record;

    ghost next_gives = { YieldsFirst (λ s. s) };

    ghost remaining = { item_count (λ s. s) };

    #[inline]
    fn next(&mut self) -> Option<Record> {
        let packed = self.payloads.next()?;
        Some(packed.record())
    }
}
