// One operation, many times, on an order of so many ids.
use room::Room;
use std::alloc::Global;
use trace_seq::{ChunkSeq, OutOfMemory};

// The next of the pseudo-random numbers.
fn next(state: &mut u64) -> u32 {
    *state = state
        .wrapping_mul(6364136223846793005)
        .wrapping_add(1442695040888963407);
    (*state >> 33) as u32
}

// A position of the order, or 0 where it has none.
fn any_position(seq: &ChunkSeq, state: &mut u64) -> u32 {
    let len = seq.len();
    if len == 0 { 0 } else { next(state) % len + 1 }
}

fn put(alloc: Global, seq: &mut ChunkSeq, p: u32, id: usize) -> Result<(), OutOfMemory> {
    if p == 0 || seq.len() == u32::MAX || p > seq.len() + 1 {
        return Ok(());
    }
    seq.reserve_one(&mut Room::new(alloc))?;
    seq.insert(p, id);
    Ok(())
}

fn shift(alloc: Global, seq: &mut ChunkSeq, a: u32, b: u32) -> Result<(), OutOfMemory> {
    if a == 0 || b == 0 || a > seq.len() || b > seq.len() {
        return Ok(());
    }
    seq.reserve_one(&mut Room::new(alloc))?;
    seq.move_to(a, b);
    Ok(())
}

fn take_out(seq: &mut ChunkSeq, p: u32) {
    if p != 0 && p <= seq.len() {
        seq.remove(p);
    }
}

// Does the operation once, with the number of this turn, and tells what it answered.
fn step(
    alloc: Global,
    seq: &mut ChunkSeq,
    name: &str,
    turn: u32,
    state: &mut u64,
) -> Result<u64, OutOfMemory> {
    let p = any_position(seq, state);
    let mut answer = 0;
    if name == "get" {
        answer = seq.get(p).unwrap_or(0) as u64;
    } else if name == "walk" {
        answer = seq.get(turn).unwrap_or(0) as u64;
    } else if name == "insert" {
        put(alloc, seq, p, turn as usize)?;
    } else if name == "remove" {
        take_out(seq, p);
    } else if name == "move" {
        let q = any_position(seq, state);
        shift(alloc, seq, p, q)?;
    }
    Ok(answer)
}

fn work(
    alloc: Global,
    seq: &mut ChunkSeq,
    ids: u32,
    times: u32,
    name: &str,
) -> Result<u64, OutOfMemory> {
    let mut state = 1;
    for id in 0..ids {
        let end = seq.len().saturating_add(1);
        put(alloc, seq, end, id as usize)?;
    }
    let mut sum = 0u64;
    for turn in 0..times {
        let answer = step(alloc, seq, name, turn, &mut state)?;
        sum = sum.wrapping_add(answer);
    }
    Ok(sum)
}

// The sum of the answers of the operation that is named, done so often on an order of so many ids.
pub(crate) fn sum_of(alloc: Global, ids: u32, times: u32, name: &str) -> u64 {
    let mut seq = ChunkSeq::new(alloc);
    work(alloc, &mut seq, ids, times, name).unwrap_or(0)
}
