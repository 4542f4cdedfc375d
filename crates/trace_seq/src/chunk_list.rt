ghost use Rattle.std.specs.Prelude.{◌≡◌, ◌+◌, ◌-◌, ◌<◌, ◌≤◌, ◌^◌, ◌++◌, ◌∷◌, [], length, take, min, ℕ, slice_index, slice_get, Some, MatchOption, IfSome, IfOk, IsOk, OnOk, OnErr, IsErr};
ghost use Rattle.std.specs.Bool.{OnTrue, OnFalse};
ghost use Rattle.std.specs.List.{insert, remove};
ghost use Rattle.std.specs.Vec.{vec_capacity};
ghost use Rattle.room.specs.Refusals.{Rises};
ghost use Rattle.trace_seq.specs.Chunks.{ids_of, size_at, place_at, chunk_count, IsEmpty, IsWhole};
ghost use Rattle.trace_seq.specs.Fronts.{AreKept, AreRaised};
ghost use Rattle.trace_seq.specs.Without.{without_each, AreRising};

use crate::chunk::{Chunk, ROOM, Spot};
use crate::thinning::{pour, settle_all, thin_all};
use crate::within::{insert_within, push_within};
use room::{OutOfMemory, Room};

/// How full a chunk is where ids are put behind all others.
pub const FILL: usize = 384;

/// Two chunks side by side hold more than 256 ids: with so many they may not lose one.
const THIN: usize = 257;

/// Chunks in order, spare ones, and how many ids they hold.
#[derive(Drop)]
pub struct ChunkList {
    pub chunks: Vec<Chunk>,
    pub spares: Vec<Chunk>,
    pub count: u32,
}

impl ChunkList {
    /// Puts an id at a spot of a chunk that is not full.
    pub fn put(&mut self, spot: Spot, id: usize)
        requires whole { IsWhole self.old }
        requires chunk { spot.chunk < length self.old.chunks.items }
        requires offset { spot.offset ≤ size_at self.old.chunks.items spot.chunk }
        requires room { size_at self.old.chunks.items spot.chunk < 512 }
        requires few { self.old.count < 2 ^ 32 - 1 }
        ensures whole { IsWhole self.new }
        ensures ids { ids_of self.new.chunks.items ≡ insert (ids_of self.old.chunks.items)
            (place_at self.old.chunks.items spot) id }
        ensures fronts { AreRaised self.old.chunks.items self.new.chunks.items spot.chunk }
        ensures chunks { length self.new.chunks.items ≡ length self.old.chunks.items }
        ensures spares { self.new.spares ≡ self.old.spares }
    {
        let chunk = &mut self.chunks[spot.chunk];
        chunk.insert(spot.offset, id);
        self.count += 1;
    }

    /// Takes out the id at a spot of a chunk that holds another id, and that stays thick enough
    /// with its neighbours.
    pub fn take_id(&mut self, spot: Spot)
        requires whole { IsWhole self.old }
        requires offset { spot.offset < size_at self.old.chunks.items spot.chunk }
        requires chunk { spot.chunk < length self.old.chunks.items }
        requires others { 1 < size_at self.old.chunks.items spot.chunk }
        requires front { 0 < spot.chunk →
            257 < size_at self.old.chunks.items (spot.chunk - 1) + size_at self.old.chunks.items
            spot.chunk }
        requires back { spot.chunk + 1 < length self.old.chunks.items →
            257 < size_at self.old.chunks.items spot.chunk + size_at self.old.chunks.items
            (spot.chunk + 1) }
        ensures whole { IsWhole self.new }
        ensures ids { ids_of self.new.chunks.items ≡ remove (ids_of self.old.chunks.items)
            (place_at self.old.chunks.items spot) }
        ensures fronts { AreRaised self.new.chunks.items self.old.chunks.items spot.chunk }
        ensures chunks { length self.new.chunks.items ≡ length self.old.chunks.items }
        ensures spares { self.new.spares ≡ self.old.spares }
    {
        let chunk = &mut self.chunks[spot.chunk];
        chunk.remove(spot.offset);
        self.count -= 1;
    }

    /// Takes out the only id of a chunk, and the chunk with it.
    pub fn drop_chunk(&mut self, k: usize)
        requires whole { IsWhole self.old }
        requires chunk { k < length self.old.chunks.items }
        requires alone { size_at self.old.chunks.items k ≡ 1 }
        ensures whole { IsWhole self.new }
        ensures ids { ids_of self.new.chunks.items ≡ remove (ids_of self.old.chunks.items)
            (length (ids_of (take k self.old.chunks.items))) }
        ensures chunks { length self.new.chunks.items + 1 ≡ length self.old.chunks.items }
        ensures spares { length self.new.spares.items ≡ length self.old.spares.items + 1 }
    {
        let mut chunk = self.chunks.remove(k);
        chunk.remove(0);
        push_within(&mut self.spares, chunk);
        self.count -= 1;
    }

    /// Takes out the ids at these positions, from 1, in one pass. Takes no memory.
    pub fn remove_each(&mut self, positions: &[u32])
        requires whole { IsWhole self.old }
        requires rising { AreRising 1 positions.now }
        ensures whole { IsWhole self.new }
        ensures ids { ids_of self.new.chunks.items ≡ without_each (ids_of self.old.chunks.items)
            positions.now }
        ensures all { chunk_count self.new ≡ chunk_count self.old }
        ensures spares { length self.old.spares.items ≤ length self.new.spares.items }
    {
        // Brings the range of `count` into the proof, and does nothing at run time.
        let _within = self.count;
        let taken = thin_all(&mut self.chunks, positions);
        let kept = settle_all(&mut self.chunks);
        pour(&mut self.chunks, &mut self.spares, kept);
        self.count -= taken as u32;
    }

    /// Joins a chunk and the one behind it, which together fit into one.
    pub fn join(&mut self, k: usize)
        requires whole { IsWhole self.old }
        requires chunk { k + 1 < length self.old.chunks.items }
        requires fits { size_at self.old.chunks.items k + size_at self.old.chunks.items
            (k + 1) ≤ 512 }
        ensures whole { IsWhole self.new }
        ensures ids { ids_of self.new.chunks.items ≡ ids_of self.old.chunks.items }
        ensures front { length (ids_of (take k self.new.chunks.items)) ≡ length
            (ids_of (take k self.old.chunks.items)) }
        ensures size { size_at self.new.chunks.items k ≡ size_at self.old.chunks.items k + size_at
            self.old.chunks.items (k + 1) }
        ensures chunks { length self.new.chunks.items + 1 ≡ length self.old.chunks.items }
        ensures spares { length self.new.spares.items ≡ length self.old.spares.items + 1 }
    {
        let mut next = self.chunks.remove(k + 1);
        let chunk = &mut self.chunks[k];
        chunk.join(&mut next);
        push_within(&mut self.spares, next);
    }

    /// Splits a full chunk in two, of which the second was spare.
    pub fn split(&mut self, k: usize)
        requires whole { IsWhole self.old }
        requires chunk { k < length self.old.chunks.items }
        requires full { size_at self.old.chunks.items k ≡ 512 }
        requires spare { 0 < length self.old.spares.items }
        ensures whole { IsWhole self.new }
        ensures ids { ids_of self.new.chunks.items ≡ ids_of self.old.chunks.items }
        ensures front { length (ids_of (take k self.new.chunks.items)) ≡ length
            (ids_of (take k self.old.chunks.items)) }
        ensures behind { length (ids_of (take (k + 1) self.new.chunks.items)) ≡ length
            (ids_of (take k self.old.chunks.items)) + 256 }
        ensures first { size_at self.new.chunks.items k ≡ 256 }
        ensures second { size_at self.new.chunks.items (k + 1) ≡ 256 }
        ensures chunks { length self.new.chunks.items ≡ length self.old.chunks.items + 1 }
        ensures count { self.new.count ≡ self.old.count }
        ensures spares { length self.new.spares.items + 1 ≡ length self.old.spares.items }
    {
        let mut fresh = take_spare(&mut self.spares);
        let chunk = &mut self.chunks[k];
        chunk.halve(&mut fresh);
        insert_within(&mut self.chunks, k + 1, fresh);
    }

    /// Puts an id behind all others, into a chunk of its own.
    pub fn append_chunk(&mut self, id: usize)
        requires whole { IsWhole self.old }
        requires full { 0 < length self.old.chunks.items →
            256 ≤ size_at self.old.chunks.items (length self.old.chunks.items - 1) }
        requires few { self.old.count < 2 ^ 32 - 1 }
        requires spare { 0 < length self.old.spares.items }
        ensures whole { IsWhole self.new }
        ensures ids { ids_of self.new.chunks.items ≡ ids_of self.old.chunks.items ++ id ∷ [] }
        ensures fronts { AreKept self.old.chunks.items self.new.chunks.items }
        ensures chunks { length self.new.chunks.items ≡ length self.old.chunks.items + 1 }
        ensures spares { length self.new.spares.items + 1 ≡ length self.old.spares.items }
    {
        let mut fresh = take_spare(&mut self.spares);
        fresh.insert(0, id);
        push_within(&mut self.chunks, fresh);
        self.count += 1;
    }

    /// Puts an id behind all others.
    pub fn append(&mut self, id: usize)
        requires whole { IsWhole self.old }
        requires few { self.old.count < 2 ^ 32 - 1 }
        requires spare { 0 < length self.old.spares.items }
        ensures whole { IsWhole self.new }
        ensures ids { ids_of self.new.chunks.items ≡ insert (ids_of self.old.chunks.items)
            (length (ids_of self.old.chunks.items)) id }
        ensures fronts { AreKept self.old.chunks.items self.new.chunks.items }
        ensures no_fewer { length self.old.chunks.items ≤ length self.new.chunks.items }
        ensures chunks { length self.new.chunks.items ≤ length self.old.chunks.items + 1 }
        ensures all { chunk_count self.new ≡ chunk_count self.old }
        ensures spares { length self.old.spares.items ≤ length self.new.spares.items + 1 }
    {
        let chunks = self.chunks.len();
        if chunks == 0 {
            self.append_chunk(id);
            return;
        }
        let size = self.size(chunks - 1);
        if size >= FILL {
            self.append_chunk(id);
            return;
        }
        let end = Spot {
            chunk: chunks - 1,
            offset: size,
        };
        self.put(end, id);
    }

    /// How many ids a chunk holds.
    pub fn size(&self, k: usize) -> usize
        requires whole { IsWhole self.now }
        requires chunk { k < length self.now.chunks.items }
        ensures size { result ≡ size_at self.now.chunks.items k }
        ensures some { 0 < result }
        ensures most { result ≤ 512 }
    {
        self.chunks[k].ids.len()
    }

    /// Splits the chunk of a spot if it is full, and tells where the spot's id is then.
    pub fn make_room(&mut self, spot: Spot) -> Spot
        requires whole { IsWhole self.old }
        requires chunk { spot.chunk < length self.old.chunks.items }
        requires offset { spot.offset < size_at self.old.chunks.items spot.chunk }
        requires spare { 0 < length self.old.spares.items }
        ensures whole { IsWhole self.new }
        ensures ids { ids_of self.new.chunks.items ≡ ids_of self.old.chunks.items }
        ensures place { place_at self.new.chunks.items result ≡ place_at self.old.chunks.items
            spot }
        ensures chunk { result.chunk < length self.new.chunks.items }
        ensures offset { result.offset < size_at self.new.chunks.items result.chunk }
        ensures room { size_at self.new.chunks.items result.chunk < 512 }
        ensures count { self.new.count ≡ self.old.count }
        ensures all { chunk_count self.new ≡ chunk_count self.old }
        ensures spares { length self.old.spares.items ≤ length self.new.spares.items + 1 }
    {
        if self.size(spot.chunk) < ROOM {
            return spot;
        }
        self.split(spot.chunk);
        if spot.offset < ROOM / 2 {
            return spot;
        }
        Spot {
            chunk: spot.chunk + 1,
            offset: spot.offset - ROOM / 2,
        }
    }

    /// Whether a chunk has one behind it, and the two would be too thin if one of their ids were
    /// taken out.
    pub fn is_thin(&self, k: usize) -> bool
        requires whole { IsWhole self.now }
        requires chunk { k < length self.now.chunks.items }
        ensures thin { OnTrue result ((k + 1 < length self.now.chunks.items) ×
            (size_at self.now.chunks.items k + size_at self.now.chunks.items (k + 1) ≤ 257)) }
        ensures thick { OnFalse result (k + 1 < length self.now.chunks.items →
            257 < size_at self.now.chunks.items k + size_at self.now.chunks.items (k + 1)) }
    {
        k + 1 < self.chunks.len() && self.size(k) + self.size(k + 1) <= THIN
    }

    /// Joins the chunk of a spot with a neighbour, if they would be too thin without the spot's id,
    /// and tells where that is then.
    pub fn thicken(&mut self, spot: Spot) -> Spot
        requires whole { IsWhole self.old }
        requires chunk { spot.chunk < length self.old.chunks.items }
        requires offset { spot.offset < size_at self.old.chunks.items spot.chunk }
        requires others { 1 < size_at self.old.chunks.items spot.chunk }
        ensures whole { IsWhole self.new }
        ensures ids { ids_of self.new.chunks.items ≡ ids_of self.old.chunks.items }
        ensures place { place_at self.new.chunks.items result ≡ place_at self.old.chunks.items
            spot }
        ensures chunk { result.chunk < length self.new.chunks.items }
        ensures offset { result.offset < size_at self.new.chunks.items result.chunk }
        ensures others { 1 < size_at self.new.chunks.items result.chunk }
        ensures front { 0 < result.chunk →
            257 < size_at self.new.chunks.items (result.chunk - 1) + size_at self.new.chunks.items
            result.chunk }
        ensures back { result.chunk + 1 < length self.new.chunks.items →
            257 < size_at self.new.chunks.items result.chunk + size_at self.new.chunks.items
            (result.chunk + 1) }
        ensures all { chunk_count self.new ≡ chunk_count self.old }
        ensures spares { length self.old.spares.items ≤ length self.new.spares.items }
    {
        if self.is_thin(spot.chunk) {
            self.join(spot.chunk);
            return spot;
        }
        if spot.chunk > 0 && self.is_thin(spot.chunk - 1) {
            let front = self.size(spot.chunk - 1);
            self.join(spot.chunk - 1);
            return Spot {
                chunk: spot.chunk - 1,
                offset: front + spot.offset,
            };
        }
        spot
    }

    /// The id at a spot.
    pub fn id_at(&self, spot: Spot) -> usize
        requires chunk { spot.chunk < length self.now.chunks.items }
        requires offset { spot.offset < size_at self.now.chunks.items spot.chunk }
        ensures { slice_get (ids_of self.now.chunks.items) (place_at self.now.chunks.items spot)
            ≡ Some result }
    {
        self.chunks[spot.chunk].ids[spot.offset]
    }

    /// Makes room for one chunk more, among those in use and the spare ones.
    pub fn reserve_chunk(&mut self, room: &mut Room) -> Result<(), OutOfMemory>
        requires whole { IsWhole self.old }
        ensures whole { IsWhole self.new }
        ensures chunks { self.new.chunks.items ≡ self.old.chunks.items }
        ensures spares { self.new.spares.items ≡ self.old.spares.items }
        ensures chunk_room { OnOk result
            (length self.old.chunks.items + length self.old.spares.items < vec_capacity
            self.new.chunks) }
        ensures spare_room { OnOk result
            (length self.old.chunks.items + length self.old.spares.items < vec_capacity
            self.new.spares) }
        ensures memory { Rises (IsErr result) room.old room.new }
    {
        let spares = self.spares.len();
        let chunks = self.chunks.len();
        room.told(self.chunks.reserve(spares + 1))?;
        room.told(self.spares.reserve(chunks + 1))?;
        Ok(())
    }

    /// Makes room for one chunk more where none is spare.
    pub fn reserve(&mut self, room: &mut Room) -> Result<(), OutOfMemory>
        requires whole { IsWhole self.old }
        ensures whole { IsWhole self.new }
        ensures chunks { self.new.chunks.items ≡ self.old.chunks.items }
        ensures spare { OnOk result (0 < length self.new.spares.items) }
        ensures spares { length self.old.spares.items ≤ length self.new.spares.items }
        ensures few_spares { length self.new.spares.items ≤ length self.old.spares.items + 1 }
        ensures no_more { 0 < length self.old.spares.items →
            length self.new.spares.items ≡ length self.old.spares.items }
        ensures succeeds { 0 < length self.old.spares.items → IsOk result }
        ensures same_spares { OnErr result
            (length self.new.spares.items ≡ length self.old.spares.items) }
        ensures memory { Rises (IsErr result) room.old room.new }
    {
        if !self.spares.is_empty() {
            return Ok(());
        }
        let fresh = make_chunk(room)?;
        self.reserve_chunk(room)?;
        push_within(&mut self.spares, fresh);
        Ok(())
    }
}

/// An empty chunk.
fn make_chunk(room: &mut Room) -> Result<Chunk, OutOfMemory>
    ensures empty { IfOk result IsEmpty }
    ensures memory { Rises (IsErr result) room.old room.new }
{
    let ids = room.told(Vec::with_capacity(room.alloc(), ROOM))?;
    Ok(Chunk { ids })
}

/// The last of the spare chunks.
pub fn take_spare(spares: &mut Vec<Chunk>) -> Chunk
    requires { 0 < length spares.old.items }
    ensures items { spares.old.items ≡ spares.new.items ++ result ∷ [] }
    ensures capacity { vec_capacity spares.new ≡ vec_capacity spares.old }
{
    match spares.pop() {
        Some(chunk) => chunk,
        None => unreachable!(),
    }
}
