// Many traces taken out of a store at once.
ghost use Rattle.std.specs.Prelude.{◌≡◌, ℕ, ◌+◌, ◌<◌, ◌≤◌, ◌^◌, All, length, None};
ghost use Rattle.std.specs.List.{concat};
ghost use Rattle.slab.specs.Slab.{get, slab_len, ContainsKey, Updates};
ghost use Rattle.trace_seq.specs.Order.{times, AreDistinct};
ghost use Rattle.trace_seq.specs.Without.{without_each, AreRising};

use crate::slot::Slot;
use crate::store::TraceStore;
use slab::Slab;
use trace_seq::ChunkSeq;

impl<T: Copy> TraceStore<T> {
    ghost use Rattle.trace_store.specs.Stores.{traces_of, payloads_of};

    /// How many bytes these traces, which rise, have together. Reads none of them.
    pub fn length_of_each(&self, traces: &[u32]) -> u64
        requires rising { AreRising 1 traces.now }
        requires last { All (λ p. p ≤ length (traces_of self.now)) traces.now }
        requires small { length (concat (traces_of self.now)) < 2 ^ 64 }
        ensures { result + length (concat (without_each (traces_of self.now) traces.now))
            ≡ length (concat (traces_of self.now)) }
    {
        let mut bytes = 0;
        for p in traces {
            bytes += self.length_of(*p);
        }
        bytes
    }

    /// Takes these traces out, which rise, and frees their slots; where there is no such trace
    /// there is nothing to take out. The others stay in their order. Goes over the order once at
    /// most, and not over the parts of it that stay as they are. Takes no memory, and is never
    /// refused.
    pub fn delete_each(&mut self, traces: &[u32])
        requires rising { AreRising 1 traces.now }
        ensures head { self.new.head ≡ self.old.head }
        ensures loaded { self.new.loaded ≡ self.old.loaded }
        ensures traces { traces_of self.new ≡ without_each (traces_of self.old) traces.now }
        ensures payloads { payloads_of self.new ≡ without_each (payloads_of self.old) traces.now }
    {
        free_each(&mut self.slots, &self.order, traces);
        self.order.remove_each(traces);
    }
}

// Frees the slots of the ids at these positions, which differ.
fn free_each<T: Copy>(slots: &mut Slab<Slot<T>>, order: &ChunkSeq, positions: &[u32])
    requires distinct { AreDistinct order.now.ids }
    requires held { (id : ℕ) → 0 < times id order.now.ids → ContainsKey slots.old id }
    requires rising { AreRising 1 positions.now }
    ensures stay { (id : ℕ) → 0 < times id (without_each order.now.ids positions.now) →
        get slots.new id ≡ get slots.old id }
    ensures freed { slab_len slots.new + length order.now.ids ≡ slab_len slots.old + length
        (without_each order.now.ids positions.now) }
{
    for p in positions {
        if let Some(id) = order.get(*p) {
            free(slots, id);
        }
    }
}

// Frees the slot under an id.
fn free<T: Copy>(slots: &mut Slab<Slot<T>>, id: usize)
    requires { ContainsKey slots.old id }
    ensures updates { Updates slots.old slots.new id None }
    ensures len { slab_len slots.new + 1 ≡ slab_len slots.old }
{
    let _ = slots.remove(id);
}
