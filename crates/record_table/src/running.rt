ghost use Rattle.std.specs.Prelude.{◌≡◌, OnOk, OnErr, IsErr, IsOk, IfOk, map};
ghost use Rattle.room.specs.Refusals.{Rises};

use crate::{Reach, Records};
use room::{OutOfMemory, Room};
use std::alloc::Global;
use trace_record::Record;

/// A value that runs with the traces of a volume, and is seen as their tally: it counts each trace
/// that is added, and no longer counts one that is removed, whatever the order.
pub trait Running: Drop {
    ghost use Rattle.trace_record.specs.Facts.{facts_of};
    ghost use Rattle.trace_record.specs.Keys.{Counted};
    ghost use Rattle.trace_record.specs.Tally.{Tally, empty_tally, tally_of, plus, minus, plus_beside, minus_beside, Same, HasKeys, Holds, HasKeysBeside, HoldsBeside, IsSmall};
    ghost use Rattle.trace_record.specs.declared.record.Record.{Record};

    // What the value counts of a trace.
    ghost counted: { Counted };

    ghost tally: { Self → Tally };

    /// Counts nothing. Takes no memory.
    fn new(alloc: Global) -> Self
        ensures { Same (tally result) empty_tally };

    /// The value that counted these traces, made all at once. How far their numbers reach costs
    /// time and memory, and changes no number. Takes memory for what it holds and, while it is
    /// made, for lists of keys and one of their runs; refused for want of it alone.
    fn from_records(
        room: &mut Room,
        records: &Records<'_>,
        reach: &Reach,
    ) -> Result<Self, OutOfMemory>
        requires { IsSmall (tally_of counted (map facts_of records.now)) }
        ensures same { IfOk result (λ value.
            Same (tally value) (tally_of counted (map facts_of records.now))) }
        ensures memory { Rises (IsErr result) room.old room.new };

    /// Counts the trace. Takes memory for a key that is not held, and leaves all as it was where a
    /// growth is refused.
    fn add(&mut self, room: &mut Room, trace: &Record) -> Result<(), OutOfMemory>
        requires { IsSmall (plus counted (tally self.old) (facts_of trace.now)) }
        ensures ok { OnOk result
            (Same (tally self.new) (plus counted (tally self.old) (facts_of trace.now))) }
        ensures err { OnErr result (Same (tally self.new) (tally self.old)) }
        ensures held { HasKeys counted (tally self.old) (facts_of trace.now) → IsOk result }
        ensures memory { Rises (IsErr result) room.old room.new };

    /// No longer counts the trace. Takes no memory.
    fn remove(&mut self, trace: &Record)
        requires held { Holds counted (tally self.old) (facts_of trace.now) }
        requires small { IsSmall (minus counted (tally self.old) (facts_of trace.now)) }
        ensures { Same (tally self.new) (minus counted (tally self.old) (facts_of trace.now)) };

    /// Counts the trace beside another, for which it comes to stand: a key of both stays counted
    /// once, and is not touched. Takes memory for a key that is not held, and leaves all as it was
    /// where a growth is refused.
    fn add_beside(
        &mut self,
        room: &mut Room,
        trace: &Record,
        other: &Record,
    ) -> Result<(), OutOfMemory>
        requires { IsSmall
            (plus_beside counted (tally self.old) (facts_of trace.now) (facts_of other.now)) }
        ensures ok { OnOk result (Same (tally self.new)
            (plus_beside counted (tally self.old) (facts_of trace.now) (facts_of other.now))) }
        ensures err { OnErr result (Same (tally self.new) (tally self.old)) }
        ensures held { HasKeysBeside counted (tally self.old) (facts_of trace.now)
            (facts_of other.now) → IsOk result }
        ensures memory { Rises (IsErr result) room.old room.new };

    /// No longer counts the trace beside another, which stands for it: a key of both stays counted
    /// once, and is not touched. Takes no memory.
    fn remove_beside(&mut self, trace: &Record, other: &Record)
        requires held { HoldsBeside counted (tally self.old) (facts_of trace.now)
            (facts_of other.now) }
        requires small { IsSmall
            (minus_beside counted (tally self.old) (facts_of trace.now) (facts_of other.now)) }
        ensures { Same (tally self.new)
            (minus_beside counted (tally self.old) (facts_of trace.now) (facts_of other.now)) };
}
