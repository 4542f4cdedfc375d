// The keys of records that ranges and totals count, in their order, several lists made in one pass:
// the records lie far apart, and a pass takes longer than what is taken from them.
ghost use Rattle.std.specs.Prelude.{◌≡◌, ◌++◌, [], ◌∷◌, IfOk, IsErr, OnOk, map, filter_map};
ghost use Rattle.room.specs.Refusals.{Rises};
ghost use Rattle.key_counts.specs.Packed.{ratio_in};
ghost use Rattle.trace_record.specs.Facts.{facts_of};
ghost use Rattle.trace_record.specs.Tally.{tally_of, IsSmall};
ghost use Rattle.range_stats.specs.TotalKeys.{keys_of_totals};

use crate::sums::Sums;
use key_counts::PackedRatio;
use record_table::Records;
use room::{OutOfMemory, Room};
use trace_record::Record;

// Both coordinates of each record.
#[derive(Drop)]
pub(crate) struct CoordinateKeys {
    pub x: Vec<PackedRatio>,
    pub y: Vec<PackedRatio>,
}

pub(crate) fn coordinate_keys(
    room: &mut Room,
    records: &Records,
) -> Result<CoordinateKeys, OutOfMemory>
    ensures x { IfOk result (λ keys. map ratio_in keys.x.items ≡ map (λ r. r.x) records.now) }
    ensures y { IfOk result (λ keys. map ratio_in keys.y.items ≡ map (λ r. r.y) records.now) }
    ensures memory { Rises (IsErr result) room.old room.new }
{
    let mut x = room.told(Vec::with_capacity(room.alloc(), records.len()))?;
    let mut y = room.told(Vec::with_capacity(room.alloc(), records.len()))?;
    for trace in records.iter() {
        room.told_back(x.push(trace.packed_x()))?;
        room.told_back(y.push(trace.packed_y()))?;
    }
    Ok(CoordinateKeys { x, y })
}

// The least and the greatest sample of each trace whose samples have values, and what the samples
// of all traces come to.
#[derive(Drop)]
pub(crate) struct EndKeys {
    pub least: Vec<i128>,
    pub greatest: Vec<i128>,
    pub sums: Sums,
}

pub(crate) fn end_keys(room: &mut Room, records: &Records) -> Result<EndKeys, OutOfMemory>
    requires { IsSmall (tally_of keys_of_totals (map facts_of records.now)) }
    ensures least { IfOk result (λ keys. keys.least.items ≡
        map (λ a. a.least) (filter_map (λ r. r.amplitudes) records.now)) }
    ensures greatest { IfOk result (λ keys. keys.greatest.items ≡
        map (λ a. a.greatest) (filter_map (λ r. r.amplitudes) records.now)) }
    ensures number { IfOk result (λ keys. keys.sums.number ≡
        (tally_of keys_of_totals (map facts_of records.now)).number) }
    ensures sum { IfOk result (λ keys. keys.sums.sum ≡
        (tally_of keys_of_totals (map facts_of records.now)).sum) }
    ensures memory { Rises (IsErr result) room.old room.new }
{
    let mut least = room.told(Vec::with_capacity(room.alloc(), records.len()))?;
    let mut greatest = room.told(Vec::with_capacity(room.alloc(), records.len()))?;
    let mut sums = Sums { number: 0, sum: 0 };
    for trace in records.iter() {
        push_ends(room, &mut least, &mut greatest, &trace)?;
        let values = Sums::of(&trace);
        sums.number += values.number;
        sums.sum += values.sum;
    }
    Ok(EndKeys {
        least,
        greatest,
        sums,
    })
}

// Puts the ends of the trace behind the others, where its samples have values.
fn push_ends(
    room: &mut Room,
    least: &mut Vec<i128>,
    greatest: &mut Vec<i128>,
    trace: &Record,
) -> Result<(), OutOfMemory>
    ensures least { OnOk result (least.new.items ≡ least.old.items ++
        map (λ a. a.least) (filter_map (λ r. r.amplitudes) (trace.now ∷ []))) }
    ensures greatest { OnOk result (greatest.new.items ≡ greatest.old.items ++
        map (λ a. a.greatest) (filter_map (λ r. r.amplitudes) (trace.now ∷ []))) }
    ensures memory { Rises (IsErr result) room.old room.new }
{
    if let Some(amplitudes) = trace.amplitudes {
        room.told_back(least.push(amplitudes.least))?;
        room.told_back(greatest.push(amplitudes.greatest))?;
    }
    Ok(())
}
