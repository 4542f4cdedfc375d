// The reads of a pass over a file: what stands in front of its traces, each trace, and what stands
// behind them.
ghost use Rattle.std.specs.Prelude.{ℕ, ◌≡◌, ◌⊎◌, ◌+◌, ◌*◌, ◌<◌, ◌≤◌, List, length, take, drop, None, Some, Ok, Err, IfErr, IfOk, IfSome, IsErrOf, OnOk};
ghost use Rattle.room.specs.Refusals.{Rises};
ghost use Rattle.base_file.specs.HeldBytes.{HasGrown};
ghost use Rattle.frame_cut.specs.Cuts.{IsTail, trace_refusal};
ghost use Rattle.frame_cut.specs.Fronts.{BeginsWith};
ghost use Rattle.frame_cut.specs.Heads.{head_of};
ghost use Rattle.frame_cut.specs.Walk.{left_at};
ghost use Rattle.trace_store.specs.Grown.{HasMore};
ghost use Rattle.trace_store.specs.Stores.{traces_of};
ghost use Rattle.trace_store.specs.Windows.{block_of, IsFaultOfPass, IsNextOf};
ghost use Rattle.volume_loading.specs.PassReads.{HasLengthAt, IsFaultOfHold, IsHeadOf, IsHeadFault, IsTraceFault};

use base_file::Held;
use frame_cut::{
    Head, Limits, LoadFault, Reading, front_length, head_of_front, keeps, length_of_next,
};
use room::Room;
use text_block::TEXT_BLOCK_BYTES;
use trace_store::{TraceStore, Window};

// How many bytes are read before the head is looked for; twice as many where they do not tell it.
const LEAST: u64 = 1 << 18;

// Reads on until the head of the file is told. Takes memory. Refused as `Window::hold`, and for
// the first reason that the bytes give.
pub fn read_head(
    room: &mut Room,
    held: &mut Held,
    window: &mut Window,
    size: u64,
    reading: Reading,
    limits: Limits,
) -> Result<Head, LoadFault>
    requires next { IsNextOf held.old.bytes 0 window.old.bytes }
    requires within { length held.old.bytes ≤ size }
    ensures grown { HasGrown held.old held.new }
    ensures next { IsNextOf held.new.bytes 0 window.new.bytes }
    ensures within { length held.new.bytes ≤ size }
    ensures head { IfOk result (IsHeadOf held.new.bytes size reading limits) }
    ensures refused { IfErr result (λ fault. IsFaultOfHold size held.new fault ⊎
        IsHeadFault held.new.bytes size reading limits fault) }
    ensures unfailed { OnOk result (held.new.failures ≡ held.old.failures) }
    ensures memory { Rises (IsErrOf result LoadFault.OutOfMemory) room.old room.new }
{
    'turns: loop {
        let there = window.len() as u64;
        let wanted = there.saturating_add(there.max(LEAST)).min(size);
        window.hold(room, held, wanted as usize, size)?;
        let front = window.front(window.len());
        match head_of_front(front, size, reading, limits) {
            Ok(Some(head)) => return Ok(head),
            Ok(None) => {}
            Err(fault) => return Err(fault),
        }
    }
}

// Reads the n bytes in front of the traces, and takes them. Takes memory. Refused as
// `Window::hold`.
pub fn read_front(
    room: &mut Room,
    held: &mut Held,
    window: &mut Window,
    n: usize,
    size: u64,
) -> Result<Vec<u8>, LoadFault>
    requires next { IsNextOf held.old.bytes 0 window.old.bytes }
    requires within { length held.old.bytes ≤ size }
    ensures grown { HasGrown held.old held.new }
    ensures next { OnOk result (IsNextOf held.new.bytes n window.new.bytes) }
    ensures within { length held.new.bytes ≤ size }
    ensures front { IfOk result (λ front. front.items ≡ take n held.new.bytes) }
    ensures block { OnOk result (n ≤ block_of window.new) }
    ensures reason { IfErr result IsFaultOfPass }
    ensures fault { n ≤ size → IfErr result (IsFaultOfHold size held.new) }
    ensures unfailed { OnOk result (held.new.failures ≡ held.old.failures) }
    ensures memory { Rises (IsErrOf result LoadFault.OutOfMemory) room.old room.new }
{
    window.hold(room, held, n, size)?;
    let Ok(front) = room.told(Vec::from_slice(room.alloc(), window.front(n))) else {
        return Err(LoadFault::OutOfMemory);
    };
    window.skip(n);
    Ok(front)
}

// Reads the trace that begins at a place, in front of the data trailer records: how long it is.
// None where what is left there is less than a trace, and the reading keeps it. Takes memory.
// Refused as `Window::hold`, and for the first reason that the bytes give.
pub fn next_whole<T: Copy>(
    room: &mut Room,
    store: &mut TraceStore<T>,
    window: &mut Window,
    reading: Reading,
    limits: Limits,
    size: u64,
    at: u64,
) -> Result<Option<u64>, LoadFault>
    requires next { IsNextOf store.old.loaded.bytes at window.old.bytes }
    requires within { length store.old.loaded.bytes ≤ size }
    requires some { at + TEXT_BLOCK_BYTES * store.old.head.trailer < size }
    ensures grown { HasMore store.old store.new }
    ensures next { IsNextOf store.new.loaded.bytes at window.new.bytes }
    ensures block { block_of window.old ≤ block_of window.new }
    ensures within { length store.new.loaded.bytes ≤ size }
    ensures there { IfOk result (λ next. IfSome next (λ n. n ≤ length window.new.bytes)) }
    ensures fits { IfOk result (λ next. IfSome next
        (λ n. at + n + TEXT_BLOCK_BYTES * store.old.head.trailer ≤ size)) }
    ensures whole { IfOk result (λ next. IfSome next (λ n. (file : List ℕ) →
        BeginsWith store.new.loaded.bytes size file → HasLengthAt file store.old.head limits
        (length (traces_of store.old) + 1) at n)) }
    ensures kept { IfOk result (λ next. next ≡ None → (file : List ℕ) →
        BeginsWith store.new.loaded.bytes size file →
        IsTail reading store.old.head (left_at file store.old.head at)) }
    ensures refused { IfErr result (λ fault. IsFaultOfHold size store.new.loaded fault ⊎
        IsTraceFault store.new.loaded.bytes size reading store.old.head limits
        (length (traces_of store.old) + 1) at fault) }
    ensures unfailed { OnOk result (store.new.loaded.failures ≡ store.old.loaded.failures) }
    ensures memory { Rises (IsErrOf result LoadFault.OutOfMemory) room.old room.new }
{
    let left = size - at - TEXT_BLOCK_BYTES as u64 * u64::from(store.head.trailer);
    let p = u64::from(store.count()) + 1;
    let front = left.min(front_length(&store.head) as u64) as usize;
    store.hold(room, window, front, size)?;
    let length = match length_of_next(&store.head, limits, p, window.front(front), left) {
        Ok(length) => length,
        Err(fault) if keeps(reading, fault) => return Ok(None),
        Err(fault) => return Err(fault),
    };
    store.hold(room, window, length as usize, size)?;
    Ok(Some(length))
}

// Reads n bytes on and takes them, a block at a time. Takes memory for a block at most. Refused as
// `Window::hold`.
pub fn skip_bytes<T: Copy>(
    room: &mut Room,
    store: &mut TraceStore<T>,
    window: &mut Window,
    size: u64,
    n: u64,
) -> Result<(), LoadFault>
    requires within { length store.old.loaded.bytes ≤ size }
    ensures grown { HasMore store.old store.new }
    ensures next { OnOk result ((at : ℕ) → IsNextOf store.old.loaded.bytes at window.old.bytes →
        IsNextOf store.new.loaded.bytes (at + n) window.new.bytes) }
    ensures block { block_of window.old ≤ block_of window.new }
    ensures within { length store.new.loaded.bytes ≤ size }
    ensures reason { IfErr result IsFaultOfPass }
    ensures fault { (at : ℕ) → IsNextOf store.old.loaded.bytes at window.old.bytes →
        at + n ≤ size → IfErr result (IsFaultOfHold size store.new.loaded) }
    ensures unfailed { OnOk result (store.new.loaded.failures ≡ store.old.loaded.failures) }
    ensures memory { Rises (IsErrOf result LoadFault.OutOfMemory) room.old room.new }
{
    let mut left = n;
    'blocks: while left > 0 {
        let block = left.min(LEAST);
        store.hold(room, window, block as usize, size)?;
        window.skip(block as usize);
        left -= block;
    }
    Ok(())
}

// Reads the bytes behind the traces, up to the end of the file. Takes memory. Refused as
// `Window::hold`, and with L01 where the file does not end there.
pub fn last_bytes<T: Copy>(
    room: &mut Room,
    store: &mut TraceStore<T>,
    window: &mut Window,
    size: u64,
    at: u64,
) -> Result<Vec<u8>, LoadFault>
    requires next { IsNextOf store.old.loaded.bytes at window.old.bytes }
    requires within { length store.old.loaded.bytes ≤ size }
    requires inside { at ≤ size }
    ensures grown { HasMore store.old store.new }
    ensures block { block_of window.old ≤ block_of window.new }
    ensures all { OnOk result (length store.new.loaded.bytes ≡ size) }
    ensures back { IfOk result (λ back. back.items ≡ drop at store.new.loaded.bytes) }
    ensures fault { IfErr result (IsFaultOfHold size store.new.loaded) }
    ensures unfailed { OnOk result (store.new.loaded.failures ≡ store.old.loaded.failures) }
    ensures memory { Rises (IsErrOf result LoadFault.OutOfMemory) room.old room.new }
{
    let n = (size - at) as usize;
    store.hold(room, window, n, size)?;
    match store.is_at_end() {
        Ok(true) => {}
        _ => return Err(LoadFault::ReadFailed),
    }
    match room.told(Vec::from_slice(room.alloc(), window.front(n))) {
        Ok(back) => Ok(back),
        Err(_) => Err(LoadFault::OutOfMemory),
    }
}
