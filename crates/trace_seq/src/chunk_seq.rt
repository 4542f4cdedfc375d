ghost use Rattle.std.specs.Prelude.{◌≡◌, ◌+◌, ◌/◌, ◌<◌, ◌≤◌, ◌^◌, ◌-◌, [], length, IsOk, OnOk, OnErr, IsErr};
ghost use Rattle.room.specs.Refusals.{Rises};
ghost use Rattle.trace_seq.specs.Order.{id_at, with_id, without_id, with_id_moved};
ghost use Rattle.trace_seq.specs.Without.{without_each, AreRising};

use crate::chunk_list::ChunkList;
use crate::counted_chunks::CountedChunks;
use crate::ids::Ids;
use room::{OutOfMemory, Room};
use std::alloc::Global;
use std::marker::Model;

/// A list of ids, in chunks of at most 512. Positions count from 1. Two chunks side by side hold
/// more than 256 ids together.
///
/// For each group of 16 chunks it keeps how many ids stand in front. `get` finds the group, in two
/// steps where ids were put behind all others alone, else by halves, and then passes over its
/// chunks: a number of steps that grows with the logarithm of the chunks. Among the first chunks,
/// as far as each held as many ids as those of a load when chunks were last counted anew, it finds
/// an id in one step. A chunk that a removal empties is kept as a spare one.
#[derive(Drop)]
pub struct ChunkSeq {
    chunks: CountedChunks,
}

impl Model for ChunkSeq {
    ghost use Rattle.std.specs.Prelude.{length};
    ghost use Rattle.trace_seq.specs.Order.{ChunkOrder};

    ghost Value = { ChunkOrder };

    ghost use Rattle.trace_seq.specs.Chunks.{ids_of};
    ghost use Rattle.trace_seq.specs.Fronts.{IsCounted};

    ghost view = { λ s. record {
      ids = ids_of s.chunks.list.chunks.items;
      chunks = length
          s.chunks.list.chunks.items;
      spare = length s.chunks.list.spares.items;
    } };

    ghost invariant = { λ s. IsCounted s.chunks };
}

impl ChunkSeq {
    /// No ids.
    pub fn new(alloc: Global) -> ChunkSeq
        ensures { result ≡ record { ids = []; chunks = 0; spare = 0 } }
    {
        ChunkSeq {
            chunks: CountedChunks {
                list: ChunkList {
                    chunks: Vec::new(alloc),
                    spares: Vec::new(alloc),
                    count: 0,
                },
                fronts: Vec::new(alloc),
                even: 0,
            },
        }
    }

    /// How many ids there are.
    pub fn len(&self) -> u32
        ensures length { result ≡ length self.now.ids }
    {
        self.chunks.list.count
    }

    /// In how many chunks the ids are: at most one, and one more for each 128 ids.
    pub fn chunks(&self) -> usize
        ensures number { result ≡ self.now.chunks }
        ensures few { result ≤ 1 + length self.now.ids / 128 }
    {
        self.chunks.list.chunks.len()
    }

    /// The ids in order. Reads each id once, and takes no memory.
    pub fn ids(&self) -> Ids<'_>
        ensures { result ≡ self.now.ids }
    {
        Ids::new(&self.chunks.list.chunks)
    }

    /// The id at position p; `None` where there is none.
    #[inline]
    pub fn get(&self, p: u32) -> Option<usize>
        ensures id { result ≡ id_at self.now.ids p }
    {
        if p == 0 || p > self.chunks.list.count {
            return None;
        }
        Some(self.chunks.get(p as usize - 1))
    }

    /// Makes room for one insert or move. Where that is refused nothing changes; where it is there
    /// already it takes no memory.
    pub fn reserve_one(&mut self, room: &mut Room) -> Result<(), OutOfMemory>
        ensures ids { self.new.ids ≡ self.old.ids }
        ensures spare { OnOk result (1 ≤ self.new.spare) }
        ensures spare_stays { self.old.spare ≤ self.new.spare }
        ensures succeeds { 1 ≤ self.old.spare → IsOk result }
        ensures same_spare { OnErr result (self.new.spare ≡ self.old.spare) }
        ensures memory { Rises (IsErr result) room.old room.new }
    {
        self.chunks.reserve(room)
    }

    /// Puts an id at position p, from 1 to `len() + 1`. Takes no memory.
    pub fn insert(&mut self, p: u32, id: usize)
        requires first { 1 ≤ p }
        requires last { p ≤ length self.old.ids + 1 }
        requires few { length self.old.ids < 2 ^ 32 - 1 }
        requires spare { 1 ≤ self.old.spare }
        ensures ids { self.new.ids ≡ with_id self.old.ids p id }
        ensures spare { self.old.spare ≤ self.new.spare + 1 }
    {
        self.chunks.insert(p as usize - 1, id);
    }

    /// Takes out the id at position p, from 1 to `len()`. Takes no memory.
    pub fn remove(&mut self, p: u32)
        requires first { 1 ≤ p }
        requires last { p ≤ length self.old.ids }
        ensures ids { self.new.ids ≡ without_id self.old.ids p }
        ensures spare { self.old.spare ≤ self.new.spare }
    {
        self.chunks.remove(p as usize - 1);
    }

    /// Takes out the ids at these positions, which count from 1 and rise; where the list has no
    /// such position there is nothing to take out. The others stay in their order. Goes over the
    /// ids once, and takes no memory.
    pub fn remove_each(&mut self, positions: &[u32])
        requires rising { AreRising 1 positions.now }
        ensures ids { self.new.ids ≡ without_each self.old.ids positions.now }
        ensures spare { self.old.spare ≤ self.new.spare }
    {
        self.chunks.remove_each(positions);
    }

    /// Takes out the id at position a, and puts it at position b of what is left; both from 1 to
    /// `len()`. Takes no memory.
    pub fn move_to(&mut self, a: u32, b: u32)
        requires from_first { 1 ≤ a }
        requires from_last { a ≤ length self.old.ids }
        requires to_first { 1 ≤ b }
        requires to_last { b ≤ length self.old.ids }
        requires spare { 1 ≤ self.old.spare }
        ensures ids { self.new.ids ≡ with_id_moved self.old.ids a b }
        ensures spare { self.old.spare ≤ self.new.spare + 1 }
    {
        self.chunks.move_to(a as usize - 1, b as usize - 1);
    }
}
