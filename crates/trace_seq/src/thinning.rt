// Takes many ids out of chunks in one pass, and puts the chunks in order again.
ghost use Rattle.std.specs.Prelude.{◌≡◌, ◌+◌, ◌-◌, ◌^◌, ◌<◌, ◌≤◌, ℕ, length, take, drop, slice_index, IsTrue};
ghost use Rattle.std.specs.List.{AllByRecursion};
ghost use Rattle.std.specs.Vec.{vec_capacity};
ghost use Rattle.trace_seq.specs.Order.{times};
ghost use Rattle.trace_seq.specs.Chunks.{ids_of, size_at, IsEmpty};
ghost use Rattle.trace_seq.specs.Settling.{AreThinned, IsReordered, IsRoomy, IsSettled};
ghost use Rattle.trace_seq.specs.Without.{without_each, without_from, AreRising};

use crate::chunk::{Chunk, ROOM};
use crate::chunk_list::take_spare;
use crate::within::push_within;

/// Takes the items at these positions out of a list whose first stands at `first`, and tells how
/// many. Does not go over the list where none of them is there. Takes no memory.
pub fn thin(ids: &mut Vec<usize>, first: usize, positions: &[u32]) -> usize
    requires rising { AreRising first positions.now }
    requires fits { first + length ids.old.items < 2 ^ 64 }
    ensures ids { ids.new.items ≡ without_from first ids.old.items positions.now }
    ensures taken { result + length ids.new.items ≡ length ids.old.items }
    ensures within { result ≤ length positions.now }
    ensures rest { AreRising (first + length ids.old.items) (drop result positions.now) }
    ensures same { (p : ℕ) → first + length ids.old.items ≤ p →
        times p (drop result positions.now) ≡ times p positions.now }
    ensures room { vec_capacity ids.old ≤ vec_capacity ids.new }
{
    let size = ids.len();
    if are_behind(positions, first + size) {
        return 0;
    }
    let taken = gather(ids, first, positions);
    ids.truncate(size - taken);
    taken
}

/// Whether all positions, which rise, are at the end or behind it.
fn are_behind(positions: &[u32], end: usize) -> bool
    ensures { IsTrue result → 0 < length positions.now → end ≤ slice_index positions.now 0 }
{
    match positions.first() {
        Some(p) => *p as usize >= end,
        None => true,
    }
}

/// Moves the items that stand at none of the positions to the front, and tells how many others
/// there are.
fn gather(ids: &mut [usize], first: usize, positions: &[u32]) -> usize
    requires rising { AreRising first positions.now }
    requires fits { first + length ids.old < 2 ^ 64 }
    ensures ids { take (length ids.old - result) ids.new
        ≡ without_from first ids.old positions.now }
    ensures length { length ids.new ≡ length ids.old }
    ensures few { result ≤ length ids.old }
    ensures within { result ≤ length positions.now }
    ensures rest { AreRising (first + length ids.old) (drop result positions.now) }
    ensures same { (p : ℕ) → first + length ids.old ≤ p →
        times p (drop result positions.now) ≡ times p positions.now }
{
    let mut taken = 0;
    for k in 0..ids.len() {
        if taken < positions.len() && positions[taken] as usize == first + k {
            taken += 1;
        } else {
            ids[k - taken] = ids[k];
        }
    }
    taken
}

/// Takes the ids at these positions out of chunks, and tells how many. Takes no memory.
pub fn thin_all(chunks: &mut Vec<Chunk>, positions: &[u32]) -> usize
    requires rising { AreRising 1 positions.now }
    requires few { length (ids_of chunks.old.items) < 2 ^ 32 }
    ensures ids { ids_of chunks.new.items ≡ without_each (ids_of chunks.old.items) positions.now }
    ensures thinned { AreThinned chunks.old.items chunks.new.items }
    ensures taken { result + length (ids_of chunks.new.items) ≡ length (ids_of chunks.old.items) }
    ensures capacity { vec_capacity chunks.old ≤ vec_capacity chunks.new }
{
    thin_chunks(chunks, positions)
}

fn thin_chunks(chunks: &mut [Chunk], positions: &[u32]) -> usize
    requires rising { AreRising 1 positions.now }
    requires few { length (ids_of chunks.old) < 2 ^ 32 }
    ensures ids { ids_of chunks.new ≡ without_each (ids_of chunks.old) positions.now }
    ensures thinned { AreThinned chunks.old chunks.new }
    ensures taken { result + length (ids_of chunks.new) ≡ length (ids_of chunks.old) }
{
    let mut first = 1;
    let mut taken = 0;
    for k in 0..chunks.len() {
        let size = chunks[k].ids.len();
        taken += thin(&mut chunks[k].ids, first, &positions[taken..]);
        first += size;
    }
    taken
}

/// Puts the chunks that hold ids in front of the others, in their order, and joins one to the chunk
/// in front where the two are thin. Tells how many chunks hold ids then. Takes no memory.
pub fn settle_all(chunks: &mut Vec<Chunk>) -> usize
    requires roomy { AllByRecursion IsRoomy chunks.old.items }
    ensures settled { IsSettled chunks.new.items result (length chunks.new.items) }
    ensures same { IsReordered chunks.old.items chunks.new.items }
    ensures capacity { vec_capacity chunks.old ≤ vec_capacity chunks.new }
{
    settle(chunks)
}

fn settle(chunks: &mut [Chunk]) -> usize
    requires roomy { AllByRecursion IsRoomy chunks.old }
    ensures settled { IsSettled chunks.new result (length chunks.new) }
    ensures same { IsReordered chunks.old chunks.new }
{
    let mut kept = 0;
    for k in 0..chunks.len() {
        kept = settle_one(chunks, kept, k);
    }
    kept
}

/// The same for the chunk behind those that are settled.
fn settle_one(chunks: &mut [Chunk], kept: usize, k: usize) -> usize
    requires settled { IsSettled chunks.old kept k }
    requires chunk { k < length chunks.old }
    ensures settled { IsSettled chunks.new result (k + 1) }
    ensures same { IsReordered chunks.old chunks.new }
{
    let size = chunks[k].ids.len();
    if size == 0 {
        return kept;
    }
    if kept > 0 && chunks[kept - 1].ids.len() + size <= ROOM / 2 {
        join_into(chunks, kept, k);
        return kept;
    }
    chunks.swap(kept, k);
    kept + 1
}

/// Joins a chunk to the last of those that are kept.
fn join_into(chunks: &mut [Chunk], kept: usize, k: usize)
    requires settled { IsSettled chunks.old kept k }
    requires chunk { k < length chunks.old }
    requires some { 0 < kept }
    requires fits { size_at chunks.old (kept - 1) + size_at chunks.old k ≤ 256 }
    ensures settled { IsSettled chunks.new kept (k + 1) }
    ensures same { IsReordered chunks.old chunks.new }
{
    let (front, back) = chunks.split_at_mut(k);
    let chunk = &mut front[kept - 1];
    let next = &mut back[0];
    chunk.join(next);
}

/// Makes the chunks behind the first `kept` spare ones; each of them is empty. Takes no memory.
pub fn pour(chunks: &mut Vec<Chunk>, spares: &mut Vec<Chunk>, kept: usize)
    requires kept { kept ≤ length chunks.old.items }
    requires none { AllByRecursion IsEmpty (drop kept chunks.old.items) }
    requires empty { AllByRecursion IsEmpty spares.old.items }
    requires room { length chunks.old.items + length spares.old.items ≤ vec_capacity spares.old }
    ensures chunks { chunks.new.items ≡ take kept chunks.old.items }
    ensures empty { AllByRecursion IsEmpty spares.new.items }
    ensures all { length chunks.new.items + length spares.new.items
        ≡ length chunks.old.items + length spares.old.items }
    ensures chunk_room { vec_capacity chunks.old ≤ vec_capacity chunks.new }
    ensures spare_room { vec_capacity spares.old ≤ vec_capacity spares.new }
{
    for _ in kept..chunks.len() {
        let chunk = take_spare(chunks);
        push_within(spares, chunk);
    }
}
