use crate::end_counts::EndCounts;
use crate::ends::Ends;
use crate::sums::Sums;
use key_counts::{lower_both, raise_both};
use record_table::{Reach, Records, Running};
use room::{OutOfMemory, Room};
use std::alloc::Global;
use trace_record::Record;
use window_counts::SampleCounts;

/// The least, the greatest, the sum and the number of the samples of traces that come and go, as
/// far as they have values. A trace without such samples has no part in them. Adding or removing a
/// trace takes time by the logarithm of the number of traces, whatever the number of its samples.
#[derive(Drop)]
pub struct Totals {
    records: u64,
    number: u64,
    sum: i128,
    least_samples: SampleCounts,
    greatest_samples: SampleCounts,
}

impl Running for Totals {
    ghost use Rattle.range_stats.specs.TotalKeys.{keys_of_totals};
    ghost use Rattle.range_stats.specs.OfTotals.{tally_of_totals};

    ghost counted = { keys_of_totals };

    ghost tally = { tally_of_totals };

    fn new(alloc: Global) -> Totals {
        Totals {
            records: 0,
            number: 0,
            sum: 0,
            least_samples: SampleCounts::new(alloc),
            greatest_samples: SampleCounts::new(alloc),
        }
    }

    fn from_records(
        room: &mut Room,
        records: &Records,
        reach: &Reach,
    ) -> Result<Totals, OutOfMemory> {
        let EndCounts {
            least,
            greatest,
            sums,
        } = EndCounts::of(room, records, reach)?;
        Ok(Totals {
            records: records.len() as u64,
            number: sums.number,
            sum: sums.sum,
            least_samples: least,
            greatest_samples: greatest,
        })
    }

    fn add(&mut self, room: &mut Room, trace: &Record) -> Result<(), OutOfMemory> {
        self.raise(room, &Ends::of(trace))?;
        let values = Sums::of(trace);
        self.records += 1;
        self.number += values.number;
        self.sum += values.sum;
        Ok(())
    }

    fn remove(&mut self, trace: &Record) {
        self.lower(&Ends::of(trace));
        let values = Sums::of(trace);
        self.records -= 1;
        self.number -= values.number;
        self.sum -= values.sum;
    }

    fn add_beside(
        &mut self,
        room: &mut Room,
        trace: &Record,
        other: &Record,
    ) -> Result<(), OutOfMemory> {
        self.raise(room, &Ends::beside(trace, other))?;
        let values = Sums::of(trace);
        self.records += 1;
        self.number += values.number;
        self.sum += values.sum;
        Ok(())
    }

    fn remove_beside(&mut self, trace: &Record, other: &Record) {
        self.lower(&Ends::beside(trace, other));
        let values = Sums::of(trace);
        self.records -= 1;
        self.number -= values.number;
        self.sum -= values.sum;
    }
}

impl Totals {
    ghost use Rattle.std.specs.Prelude.{◌≡◌, ◌+◌, ◌≤◌, OnOk, OnErr, IsErr, IsOk};
    ghost use Rattle.room.specs.Refusals.{Rises};
    ghost use Rattle.trace_record.specs.Keys.{Key};
    ghost use Rattle.range_stats.specs.OfTally.{IsLeastIn, IsGreatestIn};
    ghost use Rattle.range_stats.specs.OfKeys.{times_among_ends};
    ghost use Rattle.range_stats.specs.OfTotals.{count_in_totals, HasRoom, tally_of_totals};

    /// The least sample of all traces, none without samples that have values. Takes no memory.
    pub fn least(&self) -> Option<i128>
        ensures { IsLeastIn (tally_of_totals self.now) result }
    {
        self.least_samples.least()
    }

    /// The greatest sample of all traces, none without samples that have values. Takes no memory.
    pub fn greatest(&self) -> Option<i128>
        ensures { IsGreatestIn (tally_of_totals self.now) result }
    {
        self.greatest_samples.greatest()
    }

    /// The sum of all samples that have values, 0 without any. Takes no memory.
    pub fn sum(&self) -> i128
        ensures { result ≡ (tally_of_totals self.now).sum }
    {
        self.sum
    }

    /// The number of all samples that have values, 0 without any. Takes no memory.
    pub fn number(&self) -> u64
        ensures { result ≡ (tally_of_totals self.now).number }
    {
        self.number
    }

    // Counts the ends once more, or neither where a growth is refused.
    fn raise(&mut self, room: &mut Room, ends: &Ends) -> Result<(), OutOfMemory>
        requires { HasRoom self.old ends.now }
        ensures ok { OnOk result ((k : Key) →
            count_in_totals self.new k ≡ count_in_totals self.old k + times_among_ends ends.now k) }
        ensures err { OnErr result ((k : Key) →
            count_in_totals self.new k ≡ count_in_totals self.old k) }
        ensures held { ((k : Key) → times_among_ends ends.now k ≤ count_in_totals self.old k) →
            IsOk result }
        ensures records { self.new.records ≡ self.old.records }
        ensures number { self.new.number ≡ self.old.number }
        ensures sum { self.new.sum ≡ self.old.sum }
        ensures memory { Rises (IsErr result) room.old room.new }
    {
        raise_both(
            room,
            &mut self.least_samples,
            ends.least,
            &mut self.greatest_samples,
            ends.greatest,
        )?;
        Ok(())
    }

    // Counts the ends once less.
    fn lower(&mut self, ends: &Ends)
        requires { (k : Key) → times_among_ends ends.now k ≤ count_in_totals self.old k }
        ensures less { (k : Key) →
            count_in_totals self.old k ≡ count_in_totals self.new k + times_among_ends ends.now k }
        ensures records { self.new.records ≡ self.old.records }
        ensures number { self.new.number ≡ self.old.number }
        ensures sum { self.new.sum ≡ self.old.sum }
    {
        lower_both(
            &mut self.least_samples,
            ends.least,
            &mut self.greatest_samples,
            ends.greatest,
        );
    }
}
