ghost use Rattle.std.specs.Prelude.{◌≡◌, ◌+◌, ◌<◌, ◌≤◌, ◌++◌, [], length, take, drop};
ghost use Rattle.std.specs.List.{insert, remove};
ghost use Rattle.std.specs.Vec.{vec_capacity};

use crate::within::insert_within;

/// How many ids a chunk has room for.
pub const ROOM: usize = 512;

/// Ids that stand side by side.
#[derive(Drop)]
pub struct Chunk {
    pub ids: Vec<usize>,
}

/// A place in a list of chunks: a chunk, and one of its ids, both from 0.
#[derive(Clone, Copy)]
pub struct Spot {
    pub chunk: usize,
    pub offset: usize,
}

impl Chunk {
    pub fn insert(&mut self, offset: usize, id: usize)
        requires within { offset ≤ length self.old.ids.items }
        requires few { length self.old.ids.items < 512 }
        requires room { 512 ≤ vec_capacity self.old.ids }
        ensures ids { self.new.ids.items ≡ insert self.old.ids.items offset id }
        ensures room { 512 ≤ vec_capacity self.new.ids }
    {
        insert_within(&mut self.ids, offset, id);
    }

    pub fn remove(&mut self, offset: usize)
        requires within { offset < length self.old.ids.items }
        requires room { 512 ≤ vec_capacity self.old.ids }
        ensures ids { self.new.ids.items ≡ remove self.old.ids.items offset }
        ensures room { 512 ≤ vec_capacity self.new.ids }
    {
        let _ = self.ids.remove(offset);
    }

    /// Moves the ids behind the first 256 to a chunk that is empty.
    pub fn halve(&mut self, fresh: &mut Chunk)
        requires full { length self.old.ids.items ≡ 512 }
        requires room { 512 ≤ vec_capacity self.old.ids }
        requires empty { fresh.old.ids.items ≡ [] }
        requires fresh_room { 512 ≤ vec_capacity fresh.old.ids }
        ensures ids { self.new.ids.items ≡ take 256 self.old.ids.items }
        ensures fresh_ids { fresh.new.ids.items ≡ drop 256 self.old.ids.items }
        ensures room { 512 ≤ vec_capacity self.new.ids }
        ensures fresh_room { 512 ≤ vec_capacity fresh.new.ids }
    {
        match fresh.ids.extend_from_slice(&self.ids[256..]) {
            Ok(()) => {}
            Err(_) => unreachable!(),
        }
        self.ids.truncate(256);
    }

    /// Moves all ids of the chunk behind this one into it.
    pub fn join(&mut self, next: &mut Chunk)
        requires fits { length self.old.ids.items + length next.old.ids.items ≤ 512 }
        requires room { 512 ≤ vec_capacity self.old.ids }
        requires next_room { 512 ≤ vec_capacity next.old.ids }
        ensures ids { self.new.ids.items ≡ self.old.ids.items ++ next.old.ids.items }
        ensures next_ids { next.new.ids.items ≡ [] }
        ensures room { 512 ≤ vec_capacity self.new.ids }
        ensures next_room { 512 ≤ vec_capacity next.new.ids }
    {
        match self.ids.append(&mut next.ids) {
            Ok(()) => {}
            Err(_) => unreachable!(),
        }
    }
}
