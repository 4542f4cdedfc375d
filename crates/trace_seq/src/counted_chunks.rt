ghost use Rattle.std.specs.Prelude.{◌≡◌, ◌+◌, ◌-◌, ◌<◌, ◌≤◌, ◌^◌, length, slice_get, slice_index, Some, IsOk, OnOk, OnErr, IsErr};
ghost use Rattle.std.specs.List.{insert, remove};
ghost use Rattle.std.specs.Vec.{vec_capacity};
ghost use Rattle.room.specs.Refusals.{Rises};
ghost use Rattle.trace_seq.specs.Chunks.{ids_of, place_at, size_at, chunk_count, IsWhole};
ghost use Rattle.trace_seq.specs.Fronts.{IsCounted};
ghost use Rattle.trace_seq.specs.Without.{without_each, AreRising};

use crate::chunk::{ROOM, Spot};
use crate::chunk_list::ChunkList;
use crate::even::{even_chunks, even_then, find_even};
use crate::fronts::{GROUP, count, find_group, locate, lower, raise};
use crate::within::push_within;
use room::{OutOfMemory, Room};

/// Chunks in order, and for each 16th of them how many ids stand in front of it.
#[derive(Drop)]
pub struct CountedChunks {
    pub list: ChunkList,
    pub fronts: Vec<usize>,

    /// So many chunks from the first on are even: they hold as many ids each as those of a load.
    pub even: usize,
}

impl CountedChunks {
    /// Counts anew what stands in front of each group, and how many chunks are even.
    fn recount(&mut self)
        requires whole { IsWhole self.old.list }
        requires room { chunk_count self.old.list ≤ vec_capacity self.old.fronts }
        ensures counted { IsCounted self.new }
        ensures list { self.new.list ≡ self.old.list }
    {
        // Brings the range of the count into the proof, and does nothing at run time.
        let _within = self.list.count;
        let groups = self.list.chunks.len().div_ceil(GROUP);
        match self.fronts.resize(groups, 0) {
            Ok(()) => {}
            Err(_) => unreachable!(),
        }
        count(&mut self.fronts, &self.list.chunks);
        self.even = even_chunks(&self.list.chunks);
    }

    /// Where the id at a place stands, from 0: in one step among even chunks.
    #[inline]
    fn find(&self, place: usize) -> Spot
        requires counted { IsCounted self.now }
        requires place { place < length (ids_of self.now.list.chunks.items) }
        ensures place { place_at self.now.list.chunks.items result ≡ place }
        ensures offset { result.offset < size_at self.now.list.chunks.items result.chunk }
        ensures chunk { result.chunk < length self.now.list.chunks.items }
    {
        match find_even(&self.list.chunks, self.even, place) {
            Some(spot) => spot,
            None => self.find_in_group(place),
        }
    }

    /// The same, by the numbers in front of groups.
    #[inline(never)]
    fn find_in_group(&self, place: usize) -> Spot
        requires counted { IsCounted self.now }
        requires place { place < length (ids_of self.now.list.chunks.items) }
        ensures place { place_at self.now.list.chunks.items result ≡ place }
        ensures offset { result.offset < size_at self.now.list.chunks.items result.chunk }
        ensures chunk { result.chunk < length self.now.list.chunks.items }
    {
        let group = find_group(&self.fronts, place);
        locate(&self.list.chunks, GROUP * group.number, group.first, place)
    }

    /// Puts an id at a place, from 0, of which the last is behind all others.
    pub fn insert(&mut self, place: usize, id: usize)
        requires counted { IsCounted self.old }
        requires place { place ≤ length (ids_of self.old.list.chunks.items) }
        requires few { self.old.list.count < 2 ^ 32 - 1 }
        requires spare { 0 < length self.old.list.spares.items }
        ensures counted { IsCounted self.new }
        ensures ids { ids_of self.new.list.chunks.items ≡ insert
            (ids_of self.old.list.chunks.items) place id }
        ensures spares { length self.old.list.spares.items ≤ length self.new.list.spares.items + 1 }
    {
        if place == self.list.count as usize {
            self.append(id);
        } else {
            self.insert_before(place, id);
        }
    }

    /// Puts an id behind all others.
    fn append(&mut self, id: usize)
        requires counted { IsCounted self.old }
        requires few { self.old.list.count < 2 ^ 32 - 1 }
        requires spare { 0 < length self.old.list.spares.items }
        ensures counted { IsCounted self.new }
        ensures ids { ids_of self.new.list.chunks.items ≡ insert
            (ids_of self.old.list.chunks.items) (length (ids_of self.old.list.chunks.items)) id }
        ensures spares { length self.old.list.spares.items ≤ length self.new.list.spares.items + 1 }
    {
        let front = self.list.count as usize;
        let chunks = self.list.chunks.len();
        self.list.append(id);
        self.even = even_then(self.even, chunks, self.list.chunks.len(), front);
        if self.list.chunks.len() > GROUP * self.fronts.len() {
            push_within(&mut self.fronts, front);
        }
    }

    /// Puts an id at a place in front of another, from 0.
    fn insert_before(&mut self, place: usize, id: usize)
        requires counted { IsCounted self.old }
        requires place { place < length (ids_of self.old.list.chunks.items) }
        requires few { self.old.list.count < 2 ^ 32 - 1 }
        requires spare { 0 < length self.old.list.spares.items }
        ensures counted { IsCounted self.new }
        ensures ids { ids_of self.new.list.chunks.items ≡ insert
            (ids_of self.old.list.chunks.items) place id }
        ensures spares { length self.old.list.spares.items ≤ length self.new.list.spares.items + 1 }
    {
        let spot = self.find(place);
        if self.list.size(spot.chunk) < ROOM {
            self.put(spot, id);
            return;
        }
        let spot = self.list.make_room(spot);
        self.list.put(spot, id);
        self.recount();
    }

    /// Puts an id at a spot of a chunk that is not full.
    fn put(&mut self, spot: Spot, id: usize)
        requires counted { IsCounted self.old }
        requires chunk { spot.chunk < length self.old.list.chunks.items }
        requires offset { spot.offset ≤ size_at self.old.list.chunks.items spot.chunk }
        requires room { size_at self.old.list.chunks.items spot.chunk < 512 }
        requires few { self.old.list.count < 2 ^ 32 - 1 }
        ensures counted { IsCounted self.new }
        ensures ids { ids_of self.new.list.chunks.items ≡ insert
            (ids_of self.old.list.chunks.items) (place_at self.old.list.chunks.items spot) id }
        ensures spares { self.new.list.spares ≡ self.old.list.spares }
    {
        self.list.put(spot, id);
        self.even = self.even.min(spot.chunk);
        raise(&mut self.fronts, spot.chunk / GROUP + 1);
    }

    /// Takes out the id at a place, from 0.
    pub fn remove(&mut self, place: usize)
        requires counted { IsCounted self.old }
        requires place { place < length (ids_of self.old.list.chunks.items) }
        ensures counted { IsCounted self.new }
        ensures ids { ids_of self.new.list.chunks.items ≡ remove
            (ids_of self.old.list.chunks.items) place }
        ensures spares { length self.old.list.spares.items ≤ length self.new.list.spares.items }
    {
        let spot = self.find(place);
        if self.list.size(spot.chunk) == 1 {
            self.list.drop_chunk(spot.chunk);
            self.recount();
            return;
        }
        if self.list.is_thin(spot.chunk) || (spot.chunk > 0 && self.list.is_thin(spot.chunk - 1)) {
            let spot = self.list.thicken(spot);
            self.list.take_id(spot);
            self.recount();
            return;
        }
        self.take_id(spot);
    }

    /// Takes out the ids at these positions, from 1, in one pass. Takes no memory.
    pub fn remove_each(&mut self, positions: &[u32])
        requires counted { IsCounted self.old }
        requires rising { AreRising 1 positions.now }
        ensures counted { IsCounted self.new }
        ensures ids { ids_of self.new.list.chunks.items ≡ without_each
            (ids_of self.old.list.chunks.items) positions.now }
        ensures spares { length self.old.list.spares.items ≤ length self.new.list.spares.items }
    {
        self.list.remove_each(positions);
        self.recount();
    }

    /// Takes out the id at a spot of a chunk that holds another id, and that stays thick enough
    /// with its neighbours.
    fn take_id(&mut self, spot: Spot)
        requires counted { IsCounted self.old }
        requires offset { spot.offset < size_at self.old.list.chunks.items spot.chunk }
        requires chunk { spot.chunk < length self.old.list.chunks.items }
        requires others { 1 < size_at self.old.list.chunks.items spot.chunk }
        requires front { 0 < spot.chunk →
            257 < size_at self.old.list.chunks.items (spot.chunk - 1) + size_at
            self.old.list.chunks.items spot.chunk }
        requires back { spot.chunk + 1 < length self.old.list.chunks.items →
            257 < size_at self.old.list.chunks.items spot.chunk + size_at
            self.old.list.chunks.items (spot.chunk + 1) }
        ensures counted { IsCounted self.new }
        ensures ids { ids_of self.new.list.chunks.items ≡ remove
            (ids_of self.old.list.chunks.items) (place_at self.old.list.chunks.items spot) }
        ensures spares { self.new.list.spares ≡ self.old.list.spares }
    {
        self.list.take_id(spot);
        self.even = self.even.min(spot.chunk);
        lower(&mut self.fronts, spot.chunk / GROUP + 1);
    }

    /// Takes out the id at a place, and puts it at another of what is left, both from 0.
    pub fn move_to(&mut self, from: usize, to: usize)
        requires counted { IsCounted self.old }
        requires from { from < length (ids_of self.old.list.chunks.items) }
        requires to { to < length (ids_of self.old.list.chunks.items) }
        requires spare { 0 < length self.old.list.spares.items }
        ensures counted { IsCounted self.new }
        ensures ids { ids_of self.new.list.chunks.items ≡ insert
            (remove (ids_of self.old.list.chunks.items) from) to
            (slice_index (ids_of self.old.list.chunks.items) from) }
        ensures spares { length self.old.list.spares.items ≤ length self.new.list.spares.items + 1 }
    {
        // Brings the range of the count into the proof, and does nothing at run time.
        let _within = self.list.count;
        let id = self.get(from);
        self.remove(from);
        self.insert(to, id);
    }

    /// The id at a place, from 0.
    #[inline]
    pub fn get(&self, place: usize) -> usize
        requires counted { IsCounted self.now }
        requires place { place < length (ids_of self.now.list.chunks.items) }
        ensures id { slice_get (ids_of self.now.list.chunks.items) place ≡ Some result }
    {
        let spot = self.find(place);
        self.list.id_at(spot)
    }

    /// Makes room for one chunk more where none is spare.
    pub fn reserve(&mut self, room: &mut Room) -> Result<(), OutOfMemory>
        requires counted { IsCounted self.old }
        ensures counted { IsCounted self.new }
        ensures chunks { self.new.list.chunks.items ≡ self.old.list.chunks.items }
        ensures spare { OnOk result (0 < length self.new.list.spares.items) }
        ensures spares { length self.old.list.spares.items ≤ length self.new.list.spares.items }
        ensures succeeds { 0 < length self.old.list.spares.items → IsOk result }
        ensures same_spares { OnErr result
            (length self.new.list.spares.items ≡ length self.old.list.spares.items) }
        ensures memory { Rises (IsErr result) room.old room.new }
    {
        if self.list.spares.is_empty() {
            let chunks = self.list.chunks.len();
            room.told(self.fronts.reserve(chunks + 1))?;
        }
        self.list.reserve(room)
    }
}
