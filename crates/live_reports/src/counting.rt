// A trace counted in running values of any kind, in each or in none.
ghost use Rattle.std.specs.Prelude.{OnOk, OnErr, IsOk, IsErr};
ghost use Rattle.room.specs.Refusals.{Rises};
ghost use Rattle.trace_record.specs.Facts.{facts_of};
ghost use Rattle.trace_record.specs.Tally.{plus, plus_beside, Same, HasKeys, HasKeysBeside, IsSmall};

use record_table::Running;
use room::{OutOfMemory, Room};
use trace_record::Record;

// Counts the trace in each of two values, or in neither where a growth is refused.
pub(crate) fn add_both<A: Running, B: Running>(
    room: &mut Room,
    first: &mut A,
    second: &mut B,
    trace: &Record,
) -> Result<(), OutOfMemory>
    requires small { IsSmall (A.tally first.old) }
    requires room_first { IsSmall (plus A.counted (A.tally first.old) (facts_of trace.now)) }
    requires room_second { IsSmall (plus B.counted (B.tally second.old) (facts_of trace.now)) }
    ensures ok_first { OnOk result
        (Same (A.tally first.new) (plus A.counted (A.tally first.old) (facts_of trace.now))) }
    ensures ok_second { OnOk result
        (Same (B.tally second.new) (plus B.counted (B.tally second.old) (facts_of trace.now))) }
    ensures err_first { OnErr result (Same (A.tally first.new) (A.tally first.old)) }
    ensures err_second { OnErr result (Same (B.tally second.new) (B.tally second.old)) }
    ensures held { HasKeys A.counted (A.tally first.old) (facts_of trace.now) →
        HasKeys B.counted (B.tally second.old) (facts_of trace.now) → IsOk result }
    ensures memory { Rises (IsErr result) room.old room.new }
{
    first.add(room, trace)?;
    if let Err(error) = second.add(room, trace) {
        first.remove(trace);
        return Err(error);
    }
    Ok(())
}

// Counts the trace in each of two values beside another, for which it comes to stand, or in neither
// where a growth is refused.
pub(crate) fn add_both_beside<A: Running, B: Running>(
    room: &mut Room,
    first: &mut A,
    second: &mut B,
    trace: &Record,
    other: &Record,
) -> Result<(), OutOfMemory>
    requires small { IsSmall (A.tally first.old) }
    requires room_first { IsSmall
        (plus_beside A.counted (A.tally first.old) (facts_of trace.now) (facts_of other.now)) }
    requires room_second { IsSmall
        (plus_beside B.counted (B.tally second.old) (facts_of trace.now) (facts_of other.now)) }
    ensures ok_first { OnOk result (Same (A.tally first.new)
        (plus_beside A.counted (A.tally first.old) (facts_of trace.now) (facts_of other.now))) }
    ensures ok_second { OnOk result (Same (B.tally second.new)
        (plus_beside B.counted (B.tally second.old) (facts_of trace.now) (facts_of other.now))) }
    ensures err_first { OnErr result (Same (A.tally first.new) (A.tally first.old)) }
    ensures err_second { OnErr result (Same (B.tally second.new) (B.tally second.old)) }
    ensures held { HasKeysBeside A.counted (A.tally first.old) (facts_of trace.now)
        (facts_of other.now) →
        HasKeysBeside B.counted (B.tally second.old) (facts_of trace.now) (facts_of other.now) →
        IsOk result }
    ensures memory { Rises (IsErr result) room.old room.new }
{
    first.add_beside(room, trace, other)?;
    if let Err(error) = second.add_beside(room, trace, other) {
        first.remove_beside(trace, other);
        return Err(error);
    }
    Ok(())
}
