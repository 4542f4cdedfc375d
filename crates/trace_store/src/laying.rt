// The same bytes laid over many traces, over each at a place of its own.
ghost use Rattle.std.specs.Prelude.{◌≡◌, ℕ, ◌+◌, ◌-◌, ◌<◌, ◌≤◌, [], length, get_or, slice_index_or, IfOk, IsErr};
ghost use Rattle.room.specs.Refusals.{Rises};
ghost use Rattle.base_file.specs.HeldBytes.{IsSure};
ghost use Rattle.frame_cut.specs.Cuts.{IsTrace};
ghost use Rattle.frame_cut.specs.Splice.{splice};
ghost use Rattle.trace_store.specs.Each.{put_over, ArePutOver};

use crate::layers::NewRuns;
use crate::prepared::{Prepared, TraceRuns};
use crate::store::TraceStore;
use room::{OutOfMemory, Room};

impl<T: Copy> TraceStore<T> {
    ghost use Rattle.trace_store.specs.Ahead.{traces_then, IsReady};
    ghost use Rattle.trace_store.specs.Stores.{bases_of, traces_of, payloads_of, payloads_then};

    /// The runs that lay the bytes over each of the traces from `a` on, one for each of the places:
    /// over each from its place on, counted from 0.
    pub fn prepare_put_over(
        &self,
        room: &mut Room,
        a: u32,
        places: &[u64],
        bytes: &[u8],
    ) -> Result<Prepared, OutOfMemory>
        requires first { 1 ≤ a }
        requires some { 0 < length bytes.now }
        requires last { a - 1 + length places.now ≤ length (traces_of self.now) }
        requires inside { (k : ℕ) → k < length places.now → get_or places.now k 0 +
            length bytes.now ≤ length (slice_index_or (traces_of self.now) (a - 1 + k) []) }
        requires whole { IsSure self.now.loaded.standing → (k : ℕ) → k < length places.now →
            IsTrace self.now.head (splice (slice_index_or (traces_of self.now) (a - 1 + k) [])
            (get_or places.now k 0) (length bytes.now) bytes.now) }
        ensures ready { IfOk result (IsReady self.now) }
        ensures payloads { IfOk result (λ prepared. payloads_then (payloads_of self.now) prepared
            ≡ payloads_of self.now) }
        ensures traces { IfOk result (λ prepared. traces_then self.now prepared
            ≡ put_over (traces_of self.now) (a - 1) places.now bytes.now) }
        ensures memory { Rises (IsErr result) room.old room.new }
    {
        let lists = self.runs_over_each(room, a, places, bytes)?;
        Ok(Prepared::Runs(TraceRuns {
            place: a - 1,
            lists,
        }))
    }

    // For each of these traces, the runs with the bytes laid over it from its place on.
    fn runs_over_each(
        &self,
        room: &mut Room,
        a: u32,
        places: &[u64],
        bytes: &[u8],
    ) -> Result<Vec<NewRuns>, OutOfMemory>
        requires first { 1 ≤ a }
        requires some { 0 < length bytes.now }
        requires last { a - 1 + length places.now ≤ length (traces_of self.now) }
        requires inside { (k : ℕ) → k < length places.now → get_or places.now k 0 +
            length bytes.now ≤ length (slice_index_or (traces_of self.now) (a - 1 + k) []) }
        ensures runs { IfOk result (λ lists.
            ArePutOver (bases_of self.now) (traces_of self.now) (a - 1) places.now bytes.now
            lists.items) }
        ensures memory { Rises (IsErr result) room.old room.new }
    {
        let mut lists = room.told(Vec::with_capacity(room.alloc(), places.len()))?;
        for k in 0..places.len() {
            let runs = self.runs_with(room, a + k as u32, places[k], bytes)?;
            room.told_back(lists.push(runs))?;
        }
        Ok(lists)
    }
}
