// Even chunks: those that hold as many ids as each chunk of a load, from the first on. Among them
// an id is found in one step.
ghost use Rattle.std.specs.Prelude.{◌≡◌, ◌⊎◌, ◌+◌, ◌*◌, ◌<◌, ◌≤◌, length, IfSome};
ghost use Rattle.trace_seq.specs.Chunks.{place_at, size_at};
ghost use Rattle.trace_seq.specs.Fronts.{AreEven};

use crate::chunk::{Chunk, Spot};
use crate::chunk_list::FILL;

/// Where the id at a place stands, if it does in an even chunk or in the one behind them.
#[inline]
pub fn find_even(chunks: &[Chunk], even: usize, place: usize) -> Option<Spot>
    requires { AreEven chunks.now even }
    ensures place { IfSome result (λ spot. place_at chunks.now spot ≡ place) }
    ensures offset { IfSome result (λ spot. spot.offset < size_at chunks.now spot.chunk) }
    ensures chunk { IfSome result (λ spot. spot.chunk < length chunks.now) }
{
    let chunk = place / FILL;
    let offset = place % FILL;
    if chunk > even || chunk >= chunks.len() || offset >= chunks[chunk].ids.len() {
        return None;
    }
    Some(Spot { chunk, offset })
}

/// How many chunks from the first on are even.
pub fn even_chunks(chunks: &[Chunk]) -> usize
    ensures { AreEven chunks.now result }
{
    for k in 0..chunks.len() {
        if chunks[k].ids.len() != FILL {
            return k;
        }
    }
    chunks.len()
}

/// How many chunks are known as even once an id was put behind all others, where `even` of them
/// were before. The chunk that was the last one is known as even when another one stands behind it.
#[inline]
pub fn even_then(even: usize, chunks: usize, chunks_then: usize, ids: usize) -> usize
    ensures { (result ≡ 0) ⊎ ((result ≤ even) × (result < chunks_then)) ⊎
        ((result ≡ chunks) × (chunks < chunks_then) × (even + 1 ≡ chunks) × (ids ≡ 384 * chunks)) }
{
    let was_full = chunks > 0 && even == chunks - 1 && ids % FILL == 0 && ids / FILL == chunks;
    if was_full && chunks < chunks_then {
        return chunks;
    }
    // No caller has fewer chunks than were even: none would be known as even then.
    if even < chunks_then { even } else { 0 }
}
