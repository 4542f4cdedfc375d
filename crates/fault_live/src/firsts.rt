ghost use Rattle.std.specs.Prelude.{◌≡◌, ◌-◌, ℤ, OnOk, IfOk, Some, unwrap_or, cond, map, IsErr};
ghost use Rattle.std.specs.Ordering.{is_eq};
ghost use Rattle.std.specs.BTreeMap.{get};
ghost use Rattle.room.specs.Refusals.{Rises};
ghost use Rattle.trace_record.specs.Facts.{facts_of};
ghost use Rattle.trace_record.specs.Keys.{Key};
ghost use Rattle.trace_record.specs.Tally.{times};
ghost use Rattle.window_counts.specs.Places.{triple_cmp};
ghost use Rattle.fault_live.specs.FaultKeys.{keys_of_faults};
ghost use Rattle.fault_live.specs.OfKeys.{times_among};

use key_counts::beside;
use record_table::{Reach, Records};
use room::{OutOfMemory, Room};
use std::collections::BTreeMap;
use trace_record::Record;
use window_counts::{OffsetRectangle, Window};

// Inline, crossline and offset together.
pub(crate) fn key_of(trace: &Record) -> (i32, i32, i32)
    ensures { result ≡ (trace.now.inline, trace.now.crossline, trace.now.offset) }
{
    (trace.inline, trace.crossline, trace.offset)
}

// The same, as what is counted of a trace alone.
pub(crate) fn key_alone(trace: &Record) -> Option<(i32, i32, i32)>
    ensures { (k : Key) → times_among result k ≡ times keys_of_faults (facts_of trace.now) k }
{
    Some(key_of(trace))
}

// The same, unless the other trace has it too.
pub(crate) fn key_beside(trace: &Record, other: &Record) -> Option<(i32, i32, i32)>
    ensures { (k : Key) → times_among result k ≡ times keys_of_faults (facts_of trace.now) k -
        times keys_of_faults (facts_of other.now) k }
{
    beside(key_alone(trace), key_alone(other))
}

// Places for the keys of these traces, which reach so far: the cells at one offset, where enough
// traces share it, or else each at the offset of its last trace; none where they lie apart. Takes
// memory for the offsets of cells.
pub(crate) fn window_of(
    room: &mut Room,
    records: &Records,
    reach: &Reach,
) -> Result<OffsetRectangle, OutOfMemory>
    ensures memory { Rises (IsErr result) room.old room.new }
{
    let extent = reach.triples();
    let window = OffsetRectangle::over(&extent, records.len());
    if window.len() > 0 {
        return Ok(window);
    }
    let window = OffsetRectangle::by_cell(room, &extent, records.len())?;
    if window.len() == 0 {
        return Ok(window);
    }
    Ok(with_offsets_of(window, records))
}

// The cells at the offsets of these traces.
fn with_offsets_of(mut window: OffsetRectangle, records: &Records) -> OffsetRectangle {
    for trace in records.iter() {
        window.meet(key_of(&trace));
    }
    window
}

// The keys of these traces, in their order.
pub(crate) fn keys_of(
    room: &mut Room,
    records: &Records,
) -> Result<Vec<(i32, i32, i32)>, OutOfMemory>
    ensures keys { IfOk result (λ keys. keys.items ≡
        map (λ r. (r.inline, r.crossline, r.offset)) records.now) }
    ensures memory { Rises (IsErr result) room.old room.new }
{
    let made = records
        .iter()
        .map(|r| (r.inline, r.crossline, r.offset))
        .collect(room.alloc());
    room.told(made)
}

// The position that the key has, or this one, which it then gets.
pub(crate) fn first_place(
    room: &mut Room,
    firsts: &mut BTreeMap<(i32, i32, i32), u32>,
    key: (i32, i32, i32),
    position: u32,
) -> Result<u32, OutOfMemory>
    ensures value { IfOk result (λ r. r ≡ unwrap_or (get triple_cmp firsts.old key) position) }
    ensures places { OnOk result ((q : ℤ × ℤ × ℤ) →
        get triple_cmp firsts.new q ≡ cond (is_eq (triple_cmp key q))
        (Some (unwrap_or (get triple_cmp firsts.old key) position)) (get triple_cmp firsts.old q)) }
    ensures memory { Rises (IsErr result) room.old room.new }
{
    if let Some(first) = firsts.get(&key) {
        return Ok(*first);
    }
    room.told_back(firsts.insert(key, position))?;
    Ok(position)
}
