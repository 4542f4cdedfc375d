ghost use Rattle.std.specs.Prelude.{◌≡◌, ◌<◌, ◌≤◌, ◌+◌, List, length, drop, map, slice_set, All, IfOk, OnOk, OnErr, IsOk, IsErr};
ghost use Rattle.std.specs.List.{insert, remove};
ghost use Rattle.room.specs.Refusals.{Rises};
ghost use Rattle.trace_seq.specs.Without.{taken_out, AreRising};
ghost use Rattle.trace_record.specs.Facts.{facts_of};
ghost use Rattle.trace_record.specs.Tally.{tally_of, Same};
ghost use Rattle.trace_record.specs.declared.record.Record.{Record};
ghost use Rattle.fault_live.specs.FaultKeys.{keys_of_faults};
ghost use Rattle.fault_live.specs.OfFaults.{tally_of_faults};
ghost use Rattle.grid_live.specs.GridKeys.{keys_of_grid};
ghost use Rattle.grid_live.specs.OfGrid.{tally_of_grid};
ghost use Rattle.range_stats.specs.RangeKeys.{keys_of_ranges};
ghost use Rattle.range_stats.specs.OfRanges.{tally_of_ranges};
ghost use Rattle.range_stats.specs.TotalKeys.{keys_of_totals};
ghost use Rattle.range_stats.specs.OfTotals.{tally_of_totals};
ghost use Rattle.live_reports.specs.Alike.{same_cell};
ghost use Rattle.live_reports.specs.Exchanged.{with_records, same_cells as same_cells_of};
ghost use Rattle.live_reports.specs.OfRecords.{AreReportsOf};
ghost use Rattle.live_reports.specs.Reports.{AreFew, HasEachKey};

use crate::exchanging::{add_each, drop_each, new_at};
use crate::values::Values;
use fault_live::Faults;
use grid_live::Grid;
use range_stats::{Ranges, Totals};
use record_table::{RecordList, Records};
use room::{OutOfMemory, Room};
use trace_record::Record;

/// The grid, the ranges, the totals and the triples of inline, crossline and offset of a list of
/// records, of which it holds none.
#[derive(Drop)]
pub struct LiveReports {
    values: Values,
}

impl LiveReports {
    /// The reports of these records, each of the four made of all at once. Takes memory for what
    /// they hold and, while one is made, for lists of keys and one of their runs.
    pub fn from_records(room: &mut Room, records: &Records) -> Result<LiveReports, OutOfMemory>
        requires { AreFew records.now }
        ensures reports { IfOk result (λ reports. AreReportsOf reports records.now) }
        ensures memory { Rises (IsErr result) room.old room.new }
    {
        let values = Values::from_records(room, records)?;
        Ok(LiveReports { values })
    }

    /// Ends the reports, and gives their memory back. Who owns them ends them by this, since each
    /// crate that drops them proves anew how their parts are dropped.
    pub fn close(self) {}

    /// The grid. Takes no memory.
    pub fn grid(&self) -> &Grid
        ensures { (rs : List Record) → AreReportsOf self.now rs →
            Same (tally_of_grid result.now) (tally_of keys_of_grid (map facts_of rs)) }
    {
        &self.values.grid
    }

    /// The ranges. Takes no memory.
    pub fn ranges(&self) -> &Ranges
        ensures { (rs : List Record) → AreReportsOf self.now rs →
            Same (tally_of_ranges result.now) (tally_of keys_of_ranges (map facts_of rs)) }
    {
        &self.values.ranges
    }

    /// The totals. Takes no memory.
    pub fn totals(&self) -> &Totals
        ensures { (rs : List Record) → AreReportsOf self.now rs →
            Same (tally_of_totals result.now) (tally_of keys_of_totals (map facts_of rs)) }
    {
        &self.values.totals
    }

    /// How often inline, crossline and offset stand together. Takes no memory.
    pub fn triples(&self) -> &Faults
        ensures { (rs : List Record) → AreReportsOf self.now rs →
            Same (tally_of_faults result.now) (tally_of keys_of_faults (map facts_of rs)) }
    {
        &self.values.triples
    }

    /// Counts the record that comes to stand where another stands among the records, and the other
    /// no longer. What both have in common is not counted anew. Takes memory only for a key that no
    /// record has.
    pub fn exchange(
        &mut self,
        room: &mut Room,
        records: &Records,
        place: usize,
        changed: &Record,
    ) -> Result<(), OutOfMemory>
        requires counted { AreReportsOf self.old records.now }
        requires place { place < length records.now }
        requires few { AreFew (slice_set records.now place changed.now) }
        ensures ok { OnOk result
            (AreReportsOf self.new (slice_set records.now place changed.now)) }
        ensures err { OnErr result (AreReportsOf self.new records.now) }
        ensures held { HasEachKey records.now changed.now → IsOk result }
        ensures memory { Rises (IsErr result) room.old room.new }
    {
        let Some(old) = records.get(place) else {
            unreachable!()
        };
        self.values.add_beside(room, changed, &old)?;
        self.values.remove_beside(&old, changed);
        Ok(())
    }

    /// Counts the records that come to stand where as many others stand among the records, from a
    /// place on, and the others no longer. What a record and the one that it stands for have in
    /// common is not counted anew. All or none. Takes memory only for a key that no record has.
    pub fn exchange_each(
        &mut self,
        room: &mut Room,
        records: &Records,
        place: usize,
        new: &RecordList,
    ) -> Result<(), OutOfMemory>
        requires counted { AreReportsOf self.old records.now }
        requires place { place + length new.now ≤ length records.now }
        requires few { AreFew (with_records records.now place new.now) }
        ensures ok { OnOk result
            (AreReportsOf self.new (with_records records.now place new.now)) }
        ensures err { OnErr result (AreReportsOf self.new records.now) }
        ensures held { All (HasEachKey records.now) new.now → IsOk result }
        ensures memory { Rises (IsErr result) room.old room.new }
    {
        add_each(room, &mut self.values, records, place, new)?;
        drop_each(&mut self.values, records, place, new);
        Ok(())
    }

    /// Counts the record that comes to stand in front of the one at a place among the records, or
    /// behind all where there is none. Takes memory for its keys that no record has.
    pub fn insert(
        &mut self,
        room: &mut Room,
        records: &Records,
        place: usize,
        added: &Record,
    ) -> Result<(), OutOfMemory>
        requires counted { AreReportsOf self.old records.now }
        requires place { place ≤ length records.now }
        requires few { AreFew (insert records.now place added.now) }
        ensures ok { OnOk result
            (AreReportsOf self.new (insert records.now place added.now)) }
        ensures err { OnErr result (AreReportsOf self.new records.now) }
        ensures memory { Rises (IsErr result) room.old room.new }
    {
        self.values.add(room, added)?;
        Ok(())
    }

    /// No longer counts a record that was counted by `insert` and does not come. Takes no memory.
    pub fn take_back(&mut self, records: &Records, place: usize, added: &Record)
        requires counted { AreReportsOf self.old (insert records.now place added.now) }
        requires place { place ≤ length records.now }
        requires few { AreFew records.now }
        ensures { AreReportsOf self.new records.now }
    {
        self.values.remove(added);
    }

    /// No longer counts the record at a place among the records, which goes. Takes no memory.
    pub fn remove(&mut self, records: &Records, place: usize)
        requires counted { AreReportsOf self.old records.now }
        requires place { place < length records.now }
        ensures { AreReportsOf self.new (remove records.now place) }
    {
        let Some(record) = records.get(place) else {
            unreachable!()
        };
        self.values.remove(&record);
    }

    /// No longer counts the records at these positions, which count from 1 and rise: they go, the
    /// last of them first. Takes no memory.
    pub fn remove_each(&mut self, records: &Records, positions: &[u32])
        requires counted { AreReportsOf self.old records.now }
        requires rising { AreRising 1 positions.now }
        requires last { All (λ p. p ≤ length records.now) positions.now }
        ensures { AreReportsOf self.new (taken_out records.now positions.now) }
    {
        for k in 0..positions.len() {
            let place = positions[positions.len() - 1 - k] as usize - 1;
            let Some(record) = records.get(place) else {
                unreachable!()
            };
            self.values.remove(&record);
        }
    }
}

/// Whether the new records have, one by one, the inline and crossline of those that stand from a
/// place on among the records. Takes no memory.
pub fn same_cells(records: &Records, place: usize, new: &RecordList) -> bool
    requires { place + length new.now ≤ length records.now }
    ensures { result ≡ same_cells_of (drop place records.now) new.now }
{
    // Read for the proof alone, which learns that places fit a usize.
    let _count = records.len();
    for k in 0..new.len() {
        let Some(held) = records.get(place + k) else {
            unreachable!()
        };
        let record = new_at(new, k);
        if !has_same_cell(&held, &record) {
            return false;
        }
    }
    true
}

// Whether both have the same inline and crossline.
fn has_same_cell(old: &Record, new: &Record) -> bool
    ensures { result ≡ same_cell old.now new.now }
{
    old.inline == new.inline && old.crossline == new.crossline
}
