ghost use Rattle.std.specs.Prelude.{◌≡◌};
ghost use Rattle.std.specs.List.{AllByRecursion};
ghost use Rattle.trace_seq.specs.Chunks.{ids_of, IsFilled};

use crate::chunk::Chunk;
use std::marker::Model;

/// An iterator over the ids of a `ChunkSeq`, in order. Seen as the list of those that are left.
/// Reads each id once, and takes no memory.
#[derive(Drop)]
pub struct Ids<'a> {
    front: &'a [usize],
    behind: &'a [Chunk],
}

impl<'a> Model for Ids<'a> {
    ghost use Rattle.std.specs.Prelude.{ℕ, List, ◌++◌};
    ghost use Rattle.std.specs.List.{AllByRecursion};
    ghost use Rattle.trace_seq.specs.Chunks.{ids_of, IsFilled};

    ghost Value = { List ℕ };

    ghost view = { λ s. s.front.now ++ ids_of s.behind.now };

    ghost invariant = { λ s. AllByRecursion IsFilled s.behind.now };
}

impl<'a> Ids<'a> {
    // The ids of chunks that are in use.
    pub(crate) fn new(chunks: &'a [Chunk]) -> Ids<'a>
        requires { AllByRecursion IsFilled chunks.now }
        ensures { result ≡ ids_of chunks.now }
    {
        Ids {
            front: &[],
            behind: chunks,
        }
    }
}

impl<'a> Iterator for Ids<'a> {
    ghost use Rattle.std.specs.Iterator.{YieldsFirst, item_count};

    type Item = usize;

    ghost next_gives = { YieldsFirst (λ s. s) };

    ghost remaining = { item_count (λ s. s) };

    #[inline]
    fn next(&mut self) -> Option<usize> {
        if self.front.is_empty() {
            let (chunk, behind) = self.behind.split_first()?;
            self.front = chunk.ids.as_slice();
            self.behind = behind;
        }
        let (id, front) = self.front.split_first()?;
        self.front = front;
        Some(*id)
    }
}
