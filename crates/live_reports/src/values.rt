ghost use Rattle.std.specs.Prelude.{OnOk, OnErr, IsOk, IfOk, map, IsErr};
ghost use Rattle.room.specs.Refusals.{Rises};
ghost use Rattle.trace_record.specs.Facts.{facts_of};
ghost use Rattle.live_reports.specs.Tallies.{tallies_of, tallies_of_records, plus_each, minus_each, plus_each_beside, minus_each_beside, SameEach, AreSmall, HoldEach, HoldEachBeside, HaveKeys, HaveKeysBeside};

use crate::counting::{add_both, add_both_beside};
use fault_live::Faults;
use grid_live::Grid;
use range_stats::{Ranges, Totals};
use record_table::{Reach, Records, Running};
use room::{OutOfMemory, Room};
use trace_record::Record;

// The four running values.
#[derive(Drop)]
pub(crate) struct Values {
    pub grid: Grid,
    pub ranges: Ranges,
    pub totals: Totals,
    pub triples: Faults,
}

impl Values {
    // The values that counted these records, each made at once: first those that may need the
    // longest lists while they are made, so that little else is held beside the lists.
    pub(crate) fn from_records(room: &mut Room, records: &Records) -> Result<Values, OutOfMemory>
        requires { AreSmall (tallies_of_records (map facts_of records.now)) }
        ensures same { IfOk result (λ values. SameEach (tallies_of values)
            (tallies_of_records (map facts_of records.now))) }
        ensures memory { Rises (IsErr result) room.old room.new }
    {
        let reach = Reach::of(records);
        let totals = Totals::from_records(room, records, &reach)?;
        let triples = Faults::from_records(room, records, &reach)?;
        let ranges = Ranges::from_records(room, records, &reach)?;
        let grid = Grid::from_records(room, records, &reach)?;
        Ok(Values {
            grid,
            ranges,
            totals,
            triples,
        })
    }

    // Counts the trace in each value, or in none where a growth is refused.
    pub(crate) fn add(&mut self, room: &mut Room, trace: &Record) -> Result<(), OutOfMemory>
        requires small { AreSmall (tallies_of self.old) }
        requires room { AreSmall (plus_each (tallies_of self.old) (facts_of trace.now)) }
        ensures ok { OnOk result (SameEach (tallies_of self.new)
            (plus_each (tallies_of self.old) (facts_of trace.now))) }
        ensures err { OnErr result (SameEach (tallies_of self.new) (tallies_of self.old)) }
        ensures held { HaveKeys (tallies_of self.old) (facts_of trace.now) → IsOk result }
        ensures memory { Rises (IsErr result) room.old room.new }
    {
        add_both(room, &mut self.grid, &mut self.ranges, trace)?;
        if let Err(error) = add_both(room, &mut self.totals, &mut self.triples, trace) {
            self.grid.remove(trace);
            self.ranges.remove(trace);
            return Err(error);
        }
        Ok(())
    }

    // No longer counts the trace in each value.
    pub(crate) fn remove(&mut self, trace: &Record)
        requires held { HoldEach (tallies_of self.old) (facts_of trace.now) }
        requires small { AreSmall (minus_each (tallies_of self.old) (facts_of trace.now)) }
        ensures { SameEach (tallies_of self.new)
            (minus_each (tallies_of self.old) (facts_of trace.now)) }
    {
        self.grid.remove(trace);
        self.ranges.remove(trace);
        self.totals.remove(trace);
        self.triples.remove(trace);
    }

    // Counts the trace in each value beside another, for which it comes to stand, or in none where
    // a growth is refused.
    pub(crate) fn add_beside(
        &mut self,
        room: &mut Room,
        trace: &Record,
        other: &Record,
    ) -> Result<(), OutOfMemory>
        requires small { AreSmall (tallies_of self.old) }
        requires room { AreSmall (plus_each_beside (tallies_of self.old) (facts_of trace.now)
            (facts_of other.now)) }
        ensures ok { OnOk result (SameEach (tallies_of self.new)
            (plus_each_beside (tallies_of self.old) (facts_of trace.now) (facts_of other.now))) }
        ensures err { OnErr result (SameEach (tallies_of self.new) (tallies_of self.old)) }
        ensures held { HaveKeysBeside (tallies_of self.old) (facts_of trace.now)
            (facts_of other.now) → IsOk result }
        ensures memory { Rises (IsErr result) room.old room.new }
    {
        add_both_beside(room, &mut self.grid, &mut self.ranges, trace, other)?;
        if let Err(error) = add_both_beside(
            room,
            &mut self.totals,
            &mut self.triples,
            trace,
            other,
        ) {
            self.grid.remove_beside(trace, other);
            self.ranges.remove_beside(trace, other);
            return Err(error);
        }
        Ok(())
    }

    // No longer counts the trace in each value beside another, which stands for it.
    pub(crate) fn remove_beside(&mut self, trace: &Record, other: &Record)
        requires held { HoldEachBeside (tallies_of self.old) (facts_of trace.now)
            (facts_of other.now) }
        requires small { AreSmall (minus_each_beside (tallies_of self.old) (facts_of trace.now)
            (facts_of other.now)) }
        ensures { SameEach (tallies_of self.new)
            (minus_each_beside (tallies_of self.old) (facts_of trace.now) (facts_of other.now)) }
    {
        self.grid.remove_beside(trace, other);
        self.ranges.remove_beside(trace, other);
        self.totals.remove_beside(trace, other);
        self.triples.remove_beside(trace, other);
    }
}
