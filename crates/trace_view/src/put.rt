ghost use Rattle.std.specs.Prelude.{◌≡◌, ◌+◌, ◌<◌, ◌≤◌, ◌++◌, ◌∷◌, take, drop, length, count_by, IfOk, IsErr, OnOk};
ghost use Rattle.room.specs.Refusals.{Rises};
ghost use Rattle.trace_view.specs.Runs.{Fit};
ghost use Rattle.trace_view.specs.Puts.{contents, is_in_front, is_behind, ShowPut};

use crate::gap::{gap_before, gap_behind};
use crate::run::Run;
use room::{OutOfMemory, Room};
use smallvec::SmallVec;

/// The runs with these bytes laid over them from `at` on, as a new list: over each base of `size`
/// bytes they show the bytes that the old ones show, with these in their place. One run takes in
/// the new bytes and all runs that they touch, and the others stay; no byte of the base is in it.
/// The old runs rise, share no place, are not empty and lie inside so many bytes, and so do the new
/// ones. Takes memory for the list, and for each run of more than 16 bytes; where that is refused
/// there is no list. Costs a copy of all runs.
pub fn put_run(
    room: &mut Room,
    size: u64,
    runs: &[Run],
    at: u64,
    bytes: &[u8],
) -> Result<Vec<Run>, OutOfMemory>
    requires fit { Fit runs.now size }
    requires some { 0 < length bytes.now }
    requires inside { at + length bytes.now ≤ size }
    ensures fit { IfOk result (λ list. Fit list.items size) }
    ensures bytes { IfOk result (λ list. ShowPut size runs.now at bytes.now list.items) }
    ensures count { IfOk result (λ list. length list.items ≡
        count_by (is_in_front at) runs.now + 1 + count_by (is_behind (at + length bytes.now))
        runs.now) }
    ensures memory { Rises (IsErr result) room.old room.new }
{
    let end = at + bytes.len() as u64;
    let front = gap_before(runs, size, at);
    let back = gap_behind(runs, size, end);
    let run = joined(room, front.place, front.bytes, bytes, back.bytes)?;
    let list = exchanged(room, runs, front.index, run, back.index)?;
    Ok(list)
}

// The run of the old bytes from the start on, the new ones, and the old ones behind them.
fn joined(
    room: &mut Room,
    start: u64,
    front: &[u8],
    bytes: &[u8],
    back: &[u8],
) -> Result<Run, OutOfMemory>
    ensures at { IfOk result (λ run. run.at ≡ start) }
    ensures bytes { IfOk result
        (λ run. run.bytes.items ≡ front.now ++ (bytes.now ++ back.now)) }
    ensures memory { Rises (IsErr result) room.old room.new }
{
    let mut all = SmallVec::new(room.alloc());
    room.told(all.extend_from_slice(front))?;
    room.told(all.extend_from_slice(bytes))?;
    room.told(all.extend_from_slice(back))?;
    Ok(Run {
        at: start,
        bytes: all,
    })
}

// Copies of the runs in front of `first` and of those from `last` on, with this one between them.
fn exchanged(
    room: &mut Room,
    runs: &[Run],
    first: usize,
    run: Run,
    last: usize,
) -> Result<Vec<Run>, OutOfMemory>
    requires first { first ≤ length runs.now }
    requires last { last ≤ length runs.now }
    ensures contents { IfOk result
        (λ list. contents list.items ≡ contents (take first runs.now ++ run ∷ drop last runs.now)) }
    ensures memory { Rises (IsErr result) room.old room.new }
{
    // Memory for these runs and no more: a list stays as it was made until the next put.
    let count = first.saturating_add(runs.len() - last).saturating_add(1);
    let mut list = room.told(Vec::with_capacity(room.alloc(), count))?;
    push_copies(room, &mut list, &runs[..first])?;
    room.told_back(list.push(run))?;
    push_copies(room, &mut list, &runs[last..])?;
    Ok(list)
}

// Copies of the runs, at the end of the list.
fn push_copies(room: &mut Room, list: &mut Vec<Run>, runs: &[Run]) -> Result<(), OutOfMemory>
    ensures contents { OnOk result
        (contents list.new.items ≡ contents list.old.items ++ contents runs.now) }
    ensures memory { Rises (IsErr result) room.old room.new }
{
    for run in runs {
        let bytes = room.told(SmallVec::from_slice(room.alloc(), run.bytes.as_slice()))?;
        room.told_back(list.push(Run { at: run.at, bytes }))?;
    }
    Ok(())
}
