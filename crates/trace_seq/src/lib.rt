//! The order of the traces in a volume: a list of ids, each a `usize` (the key of a slab), kept in
//! chunks, for orders of a million ids (`ChunkSeq`).
//!
//! Positions count from 1. `reserve_one` alone takes memory: its only error is `OutOfMemory`, only
//! where a growth was refused in that call, and then nothing changed. The other calls take none and
//! always succeed. `insert` and `move_to` ask for the room that `reserve_one` makes, so call that
//! before each of them. `get` answers `None` where there is no such position. Whoever wants ids
//! that differ, as those of a slab's keys, keeps them so. The ids are gone over in order by `ids`.
//! The calls that are named for a law do nothing: their contract is the law.
#![tactic(auto)]

mod chunk;
mod chunk_list;
mod chunk_seq;
mod counted_chunks;
mod even;
mod fronts;
mod ids;
mod laws;
mod thinning;
mod within;

pub use crate::chunk_seq::ChunkSeq;
pub use crate::ids::Ids;
pub use crate::laws::{
    held_id_stands, standing_id_is_held, stands_at_one_position, taken_out_together,
};
pub use room::OutOfMemory;
