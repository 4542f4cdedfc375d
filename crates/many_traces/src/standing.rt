// The exchanges of traces, two at a time, that put traces in an order.
ghost use Rattle.std.specs.Prelude.{◌≡◌, ℕ, ◌+◌, ◌<◌, ◌≤◌, ◌^◌, length, IfOk, OnOk, IsErr};
ghost use Rattle.std.specs.List.{range_with_len};
ghost use Rattle.std.specs.List.Sorted.{IsPermutation};
ghost use Rattle.room.specs.Refusals.{Rises};
ghost use Rattle.many_traces.specs.Arranged.{Arranges, AreInStep, IsBrought};

use crate::sorting::counted;
use room::{OutOfMemory, Room};

/// The pairs of traces that put the traces from a first one on in this order, where the traces of
/// each pair come in the place of one another, one pair after the other. Item k of the order is the
/// trace that comes to stand at place k, both counted from 0 from the first trace on. At most one
/// pair for each trace. Refused for want of memory alone.
pub fn exchanges(room: &mut Room, first: u32, order: &[u32]) -> Result<Vec<(u32, u32)>, OutOfMemory>
    requires first { 1 ≤ first }
    requires last { first + length order.now ≤ 2 ^ 32 }
    requires permutation { IsPermutation (range_with_len 0 (length order.now)) order.now }
    ensures arranges { IfOk result (λ pairs. Arranges first order.now pairs.items) }
    ensures memory { Rises (IsErr result) room.old room.new }
{
    let count = order.len() as u32;
    let mut standing = Standing::new(room, first, count)?;
    for place in 0..count {
        standing.bring(room, place, order[place as usize])?;
    }
    Ok(standing.pairs)
}

// Items that come to other places: the position of the first one, which item stands at each place,
// where each item stands, and the pairs of positions that brought them there. Items and places
// count from 0.
#[derive(Drop)]
struct Standing {
    first: u32,
    items: Vec<u32>,
    places: Vec<u32>,
    pairs: Vec<(u32, u32)>,
}

impl Standing {
    // So many items, each at its own place.
    fn new(room: &mut Room, first: u32, count: u32) -> Result<Standing, OutOfMemory>
        requires first { 1 ≤ first }
        requires last { first + count ≤ 2 ^ 32 }
        ensures step { IfOk result (λ s. AreInStep s.first s.items.items s.places.items
            s.pairs.items) }
        ensures items { IfOk result (λ s. s.items.items ≡ range_with_len 0 count) }
        ensures first { IfOk result (λ s. s.first ≡ first) }
        ensures memory { Rises (IsErr result) room.old room.new }
    {
        Ok(Standing {
            first,
            items: counted(room, count)?,
            places: counted(room, count)?,
            pairs: room.told(Vec::with_capacity(room.alloc(), count as usize))?,
        })
    }

    // Puts the item at the place, and the one that stood there where it came from.
    fn bring(&mut self, room: &mut Room, place: u32, item: u32) -> Result<(), OutOfMemory>
        requires step { AreInStep self.old.first self.old.items.items self.old.places.items
            self.old.pairs.items }
        requires place { place < length self.old.items.items }
        requires item { item < length self.old.items.items }
        ensures step { OnOk result (AreInStep self.new.first self.new.items.items
            self.new.places.items self.new.pairs.items) }
        ensures brought { OnOk result
            (IsBrought self.old.items.items self.new.items.items place item) }
        ensures first { self.new.first ≡ self.old.first }
        ensures memory { Rises (IsErr result) room.old room.new }
    {
        let from = self.places[item as usize];
        if from != place {
            let other = self.items[place as usize];
            room.told_back(self.pairs.push((self.first + place, self.first + from)))?;
            self.items[place as usize] = item;
            self.items[from as usize] = other;
            self.places[item as usize] = place;
            self.places[other as usize] = from;
        }
        Ok(())
    }
}
