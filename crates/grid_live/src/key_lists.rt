// The keys of records that a grid counts, in their order.
ghost use Rattle.std.specs.Prelude.{◌≡◌, IfOk, All, FitsSigned, map, IsErr};
ghost use Rattle.std.specs.Int.{w32};
ghost use Rattle.room.specs.Refusals.{Rises};

use record_table::Records;
use room::{OutOfMemory, Room};

pub(crate) fn cell_keys(room: &mut Room, records: &Records) -> Result<Vec<(i32, i32)>, OutOfMemory>
    ensures keys { IfOk result (λ keys. keys.items ≡
        map (λ r. (r.inline, r.crossline)) records.now) }
    ensures fit { IfOk result (λ keys. All (λ k. FitsSigned w32 k.0 ×
        FitsSigned w32 k.1) keys.items) }
    ensures memory { Rises (IsErr result) room.old room.new }
{
    let made = records
        .iter()
        .map(|r| (r.inline, r.crossline))
        .collect(room.alloc());
    room.told(made)
}

pub(crate) fn inline_keys(room: &mut Room, records: &Records) -> Result<Vec<i32>, OutOfMemory>
    ensures keys { IfOk result (λ keys. keys.items ≡ map (λ r. r.inline) records.now) }
    ensures memory { Rises (IsErr result) room.old room.new }
{
    let made = records.iter().map(|r| r.inline).collect(room.alloc());
    room.told(made)
}

pub(crate) fn crossline_keys(room: &mut Room, records: &Records) -> Result<Vec<i32>, OutOfMemory>
    ensures keys { IfOk result (λ keys. keys.items ≡ map (λ r. r.crossline) records.now) }
    ensures memory { Rises (IsErr result) room.old room.new }
{
    let made = records.iter().map(|r| r.crossline).collect(room.alloc());
    room.told(made)
}
