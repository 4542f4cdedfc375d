// The exchanges of traces that move a block of them.
ghost use Rattle.std.specs.Prelude.{◌≡◌, ◌+◌, ◌-◌, ◌<◌, ◌≤◌, ◌^◌, ◌++◌, IfOk, OnOk, IsErr};
ghost use Rattle.std.specs.List.{range_with_len};
ghost use Rattle.room.specs.Refusals.{Rises};
ghost use Rattle.bench_rules.specs.BlockMoves.{block_order, first_moved, last_moved};
ghost use Rattle.many_traces.specs.Arranged.{Arranges, Puts};

use crate::standing::exchanges;
use room::{OutOfMemory, Room};

/// The pairs of traces that put traces a to b, as one block, where the first of them is trace `to`,
/// where the traces of each pair come in the place of one another, one pair after the other. At
/// most one pair for each trace that comes to stand elsewhere. Takes memory, and is refused for
/// want of it alone.
pub fn exchanges_to_move(
    room: &mut Room,
    a: u32,
    b: u32,
    to: u32,
) -> Result<Vec<(u32, u32)>, OutOfMemory>
    requires first { 1 ≤ a }
    requires range { a ≤ b }
    requires place { 1 ≤ to }
    requires last { to + (b - a) < 2 ^ 32 }
    ensures puts { IfOk result (λ pairs. Puts (first_moved a to) (last_moved a b to)
        (block_order a b to) pairs.items) }
    ensures memory { Rises (IsErr result) room.old room.new }
{
    let count = b - a + 1;
    if to <= a {
        exchanges_to_turn(room, to, a - to, count)
    } else {
        exchanges_to_turn(room, a, count, to - a)
    }
}

// The pairs of traces that bring the traces behind so many from the first one on in front of them.
fn exchanges_to_turn(
    room: &mut Room,
    first: u32,
    before: u32,
    behind: u32,
) -> Result<Vec<(u32, u32)>, OutOfMemory>
    requires first { 1 ≤ first }
    requires last { first + (before + behind) ≤ 2 ^ 32 }
    ensures arranges { IfOk result (λ pairs. Arranges first
        (range_with_len before behind ++ range_with_len 0 before) pairs.items) }
    ensures memory { Rises (IsErr result) room.old room.new }
{
    let mut order = room.told(Vec::with_capacity(room.alloc(), (before + behind) as usize))?;
    push_counted(room, &mut order, before, behind)?;
    push_counted(room, &mut order, 0, before)?;
    exchanges(room, first, order.as_slice())
}

// So many numbers from a first one on, behind the others.
fn push_counted(
    room: &mut Room,
    numbers: &mut Vec<u32>,
    first: u32,
    count: u32,
) -> Result<(), OutOfMemory>
    requires { first + count < 2 ^ 32 }
    ensures numbers { OnOk result
        (numbers.new.items ≡ numbers.old.items ++ range_with_len first count) }
    ensures memory { Rises (IsErr result) room.old room.new }
{
    for k in 0..count {
        room.told_back(numbers.push(first + k))?;
    }
    Ok(())
}
