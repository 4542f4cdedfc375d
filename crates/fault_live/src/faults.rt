ghost use Rattle.std.specs.Prelude.{◌≡◌, ◌+◌, ℤ, OnOk, OnErr, IsOk, IfOk, Some, unwrap_or, cond, nat_lt, ◌<◌, ◌≤◌, ◌^◌, length, map, ◌&&◌, IsErr};
ghost use Rattle.std.specs.Ordering.{is_eq};
ghost use Rattle.std.specs.BTreeMap.{get};
ghost use Rattle.room.specs.Refusals.{Rises};
ghost use Rattle.key_counts.specs.Counts.{count_of};
ghost use Rattle.trace_record.specs.Facts.{facts_of};
ghost use Rattle.fault_live.specs.FaultKeys.{keys_of_faults};
ghost use Rattle.trace_record.specs.Keys.{Key};
ghost use Rattle.trace_record.specs.Tally.{Same, empty_tally, tally_of};
ghost use Rattle.window_counts.specs.Places.{triple_cmp};
ghost use Rattle.fault_live.specs.OfKeys.{times_among};
ghost use Rattle.fault_live.specs.OfFaults.{count_in, HasRoom, tally_of_faults};
ghost use Rattle.fault_live.specs.Faults.{faults_of};

use crate::firsts::{first_place, key_alone, key_beside, key_of, keys_of, window_of};
use crate::report::{push_head, push_trace, units_of_first};
use crate::{Fault, HeadFacts};
use key_counts::{lower_any, raise_any};
use record_table::{Reach, Records, Running};
use room::{OutOfMemory, Room};
use std::alloc::Global;
use std::collections::BTreeMap;
use trace_record::Record;
use window_counts::{TripleCounts, Window};

/// How often inline, crossline and offset stand together, over traces that come and go.
#[derive(Drop)]
pub struct Faults {
    records: u64,
    triples: TripleCounts,
}

impl Running for Faults {
    ghost use Rattle.fault_live.specs.FaultKeys.{keys_of_faults};
    ghost use Rattle.fault_live.specs.OfFaults.{tally_of_faults};

    ghost counted = { keys_of_faults };

    ghost tally = { tally_of_faults };

    fn new(alloc: Global) -> Faults {
        Faults {
            records: 0,
            triples: TripleCounts::new(alloc),
        }
    }

    fn from_records(
        room: &mut Room,
        records: &Records,
        reach: &Reach,
    ) -> Result<Faults, OutOfMemory> {
        let window = window_of(room, records, reach)?;
        if window.len() == 0 {
            return Faults::from_key_list(room, records);
        }
        let mut faults = Faults {
            records: 0,
            triples: TripleCounts::within(room, window)?,
        };
        faults.count_each(room, records)?;
        Ok(faults)
    }

    fn add(&mut self, room: &mut Room, trace: &Record) -> Result<(), OutOfMemory> {
        self.raise(room, key_alone(trace))?;
        self.records += 1;
        Ok(())
    }

    fn remove(&mut self, trace: &Record) {
        self.lower(key_alone(trace));
        self.records -= 1;
    }

    fn add_beside(
        &mut self,
        room: &mut Room,
        trace: &Record,
        other: &Record,
    ) -> Result<(), OutOfMemory> {
        self.raise(room, key_beside(trace, other))?;
        self.records += 1;
        Ok(())
    }

    fn remove_beside(&mut self, trace: &Record, other: &Record) {
        self.lower(key_beside(trace, other));
        self.records -= 1;
    }
}

impl Faults {
    // The value that counted these records, their keys all at once.
    fn from_key_list(room: &mut Room, records: &Records) -> Result<Faults, OutOfMemory>
        ensures same { IfOk result (λ value.
            Same (tally_of_faults value) (tally_of keys_of_faults (map facts_of records.now))) }
        ensures memory { Rises (IsErr result) room.old room.new }
    {
        let keys = keys_of(room, records)?;
        Ok(Faults {
            records: records.len() as u64,
            triples: TripleCounts::from_keys(room, keys)?,
        })
    }

    // Counts the traces where none is counted.
    fn count_each(&mut self, room: &mut Room, records: &Records) -> Result<(), OutOfMemory>
        requires empty { Same (tally_of_faults self.old) empty_tally }
        requires few { length records.now ≤ 2 ^ 33 }
        ensures same { OnOk result
            (Same (tally_of_faults self.new) (tally_of keys_of_faults (map facts_of records.now))) }
        ensures memory { Rises (IsErr result) room.old room.new }
    {
        for trace in records.iter() {
            self.raise(room, key_alone(&trace))?;
            self.records += 1;
        }
        Ok(())
    }

    // Counts the triple once more, where there is one.
    fn raise(&mut self, room: &mut Room, key: Option<(i32, i32, i32)>) -> Result<(), OutOfMemory>
        requires { HasRoom self.old key }
        ensures ok { OnOk result ((k : Key) →
            count_in self.new k ≡ count_in self.old k + times_among key k) }
        ensures err { OnErr result ((k : Key) → count_in self.new k ≡ count_in self.old k) }
        ensures held { ((k : Key) → times_among key k ≤ count_in self.old k) → IsOk result }
        ensures records { self.new.records ≡ self.old.records }
        ensures memory { Rises (IsErr result) room.old room.new }
    {
        raise_any(room, &mut self.triples, key)?;
        Ok(())
    }

    // Counts the triple once less, where there is one.
    fn lower(&mut self, key: Option<(i32, i32, i32)>)
        requires { (k : Key) → times_among key k ≤ count_in self.old k }
        ensures less { (k : Key) →
            count_in self.old k ≡ count_in self.new k + times_among key k }
        ensures records { self.new.records ≡ self.old.records }
    {
        lower_any(&mut self.triples, key);
    }

    /// The faults of a file with these traces: F7, F8, then trace by trace F1 to F6 and F9, their
    /// codes rising. It is asked of the value that counted exactly these traces, fewer than 2^32;
    /// of any other the report tells nothing. One pass over them: each takes a look-up of how often
    /// its inline, crossline and offset are counted, and a second one, of the first position with
    /// them, only where that is more than once. Takes memory for the report and for those first
    /// positions; refused for want of it alone.
    pub fn report(
        &self,
        room: &mut Room,
        records: &Records,
        head: &HeadFacts,
    ) -> Result<Vec<Fault>, OutOfMemory>
        requires { length records.now < 2 ^ 32 }
        ensures faults { Same (tally_of_faults self.now)
            (tally_of keys_of_faults (map facts_of records.now)) →
            IfOk result (λ v. v.items ≡ faults_of head.now (map facts_of records.now)) }
        ensures memory { Rises (IsErr result) room.old room.new }
    {
        let units = units_of_first(records);
        let mut firsts = BTreeMap::new(room.alloc());
        let mut report = Vec::new(room.alloc());
        push_head(room, &mut report, head, records.len() as u32)?;
        let mut position = 0;
        for trace in records.iter() {
            position += 1;
            let first = self.first_of(room, &mut firsts, position, key_of(&trace))?;
            push_trace(room, &mut report, head, units, first, position, &trace)?;
        }
        Ok(report)
    }

    // The first position with the key, which is this one where the key is counted once.
    fn first_of(
        &self,
        room: &mut Room,
        firsts: &mut BTreeMap<(i32, i32, i32), u32>,
        position: u32,
        key: (i32, i32, i32),
    ) -> Result<u32, OutOfMemory>
        ensures value { IfOk result
            (λ r. r ≡ cond (nat_lt 1 (count_of triple_cmp self.now.triples key))
            (unwrap_or (get triple_cmp firsts.old key) position) position) }
        ensures places { OnOk result ((q : ℤ × ℤ × ℤ) →
            get triple_cmp firsts.new q ≡ cond (nat_lt 1 (count_of triple_cmp self.now.triples key)
            && is_eq (triple_cmp key q)) (Some (unwrap_or (get triple_cmp firsts.old key) position))
            (get triple_cmp firsts.old q)) }
        ensures memory { Rises (IsErr result) room.old room.new }
    {
        if self.triples.count(key) > 1 {
            return first_place(room, firsts, key, position);
        }
        Ok(position)
    }
}
