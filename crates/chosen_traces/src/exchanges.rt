// Exchanges that bring listed traces to the front of a file, and back again.
ghost use Rattle.std.specs.Prelude.{◌≡◌, ◌<◌, ◌^◌, length, IfOk, IsErr};
ghost use Rattle.room.specs.Refusals.{Rises};
ghost use Rattle.chosen_traces.specs.Gathered.{pairs_back, pairs_from};

use room::{OutOfMemory, Room};

/// The exchanges that bring these traces, which rise, to the front of the file, in their order: the
/// first becomes trace 1. Takes memory; refused for want of it alone.
pub fn exchanges_to_front(room: &mut Room, traces: &[u32]) -> Result<Vec<(u32, u32)>, OutOfMemory>
    requires { length traces.now < 2 ^ 32 }
    ensures pairs { IfOk result (λ pairs. pairs.items ≡ pairs_from 1 traces.now) }
    ensures memory { Rises (IsErr result) room.old room.new }
{
    let mut pairs = room.told(Vec::with_capacity(room.alloc(), traces.len()))?;
    for k in 0..traces.len() {
        room.told_back(pairs.push((k as u32 + 1, traces[k])))?;
    }
    Ok(pairs)
}

/// The same exchanges, the last first: they bring all traces back to where they stood. Takes
/// memory; refused for want of it alone.
pub fn exchanges_back(room: &mut Room, traces: &[u32]) -> Result<Vec<(u32, u32)>, OutOfMemory>
    requires { length traces.now < 2 ^ 32 }
    ensures pairs { IfOk result (λ pairs. pairs.items ≡ pairs_back 1 traces.now) }
    ensures memory { Rises (IsErr result) room.old room.new }
{
    let count = traces.len();
    let mut pairs = room.told(Vec::with_capacity(room.alloc(), count))?;
    for k in 0..count {
        let place = count - 1 - k;
        room.told_back(pairs.push((place as u32 + 1, traces[place])))?;
    }
    Ok(pairs)
}
