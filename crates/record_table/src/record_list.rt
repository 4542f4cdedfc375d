ghost use Rattle.std.specs.Prelude.{◌≡◌, ◌==◌, ◌++◌, [], ◌∷◌, IfOk, IsErr, OnOk, OnErr, length, option_map, slice_get};
ghost use Rattle.room.specs.Refusals.{Rises};
ghost use Rattle.trace_record.specs.Packed.{record_in};

use room::{OutOfMemory, Room};
use std::marker::Model;
use trace_record::{PackedRecord, Record};

/// Records in order that stand beside no traces, or not yet, each in 72 bytes. Seen as the list of
/// the records. Places count from 0. `with_capacity` and `push` alone take memory.
#[derive(Drop)]
pub struct RecordList {
    packed: Vec<PackedRecord>,
}

impl Model for RecordList {
    ghost use Rattle.std.specs.Prelude.{List, map};
    ghost use Rattle.std.specs.Coded.{codes};
    ghost use Rattle.trace_record.specs.contracts.record.Record as record_contract;
    ghost use Rattle.trace_record.specs.declared.record.Record.{Record};

    ghost Value = { List Record };

    ghost coded = { Prim.hlevel (codes, record_contract.the_row.coded) };

    ghost use Rattle.trace_record.specs.Packed.{record_in};

    ghost view = { λ l. map record_in l.packed.items };
}

impl RecordList {
    /// No records, with room for so many. Takes memory for them at once; refused for want of it
    /// alone.
    pub fn with_capacity(room: &mut Room, capacity: usize) -> Result<RecordList, OutOfMemory>
        ensures empty { IfOk result (λ list. list ≡ []) }
        ensures memory { Rises (IsErr result) room.old room.new }
    {
        let packed = room.told(Vec::with_capacity(room.alloc(), capacity))?;
        Ok(RecordList { packed })
    }

    /// Puts the record behind the others. Takes memory where there is no room; refused for want of
    /// it alone, and then the list is as it was.
    pub fn push(&mut self, room: &mut Room, added: &Record) -> Result<(), OutOfMemory>
        ensures ok { OnOk result (self.new ≡ self.old ++ added.now ∷ []) }
        ensures err { OnErr result (self.new ≡ self.old) }
        ensures memory { Rises (IsErr result) room.old room.new }
    {
        room.told_back(self.packed.push(PackedRecord::of(*added)))?;
        Ok(())
    }

    /// How many records.
    pub fn len(&self) -> usize
        ensures { result ≡ length self.now }
    {
        self.packed.len()
    }

    /// Whether there is no record.
    pub fn is_empty(&self) -> bool
        ensures { result ≡ (length self.now == 0) }
    {
        self.len() == 0
    }

    /// The record at a place, in 72 bytes; `None` where there is none.
    pub fn packed(&self, place: usize) -> Option<PackedRecord>
        ensures { option_map record_in result ≡ slice_get self.now place }
    {
        self.packed.get(place).copied()
    }

    /// The record at a place; `None` where there is none.
    pub fn get(&self, place: usize) -> Option<Record>
        ensures { result ≡ slice_get self.now place }
    {
        match self.packed(place) {
            Some(packed) => Some(packed.record()),
            None => None,
        }
    }
}
