ghost use Rattle.std.specs.Prelude.{◌≡◌};

use crate::store::TraceStore;
use std::marker::Model;
use trace_seq::Ids;

/// An iterator over the payloads of a store, in the order of the traces. Seen as the list of those
/// that are left. Takes each from its place, without a search, and no memory.
#[derive(Drop)]
pub struct Payloads<'a, T: Copy> {
    store: &'a TraceStore<T>,
    ids: Ids<'a>,
}

impl<'a, T: Copy> Model for Payloads<'a, T> {
    ghost use Rattle.std.specs.Prelude.{List};
    ghost use Rattle.trace_store.specs.Slots.{AreHeld};
    ghost use Rattle.trace_store.specs.Stores.{payloads_under};

    ghost Value = { List T };

    ghost view = { λ p. payloads_under p.store.now.slots p.ids };

    ghost invariant = { λ p. AreHeld p.store.now.loaded p.store.now.head p.ids p.store.now.slots };
}

impl<'a, T: Copy> Payloads<'a, T> {
    ghost use Rattle.trace_store.specs.Stores.{payloads_of};

    /// All payloads of the store.
    pub fn new(store: &'a TraceStore<T>) -> Payloads<'a, T>
        ensures { result ≡ payloads_of store.now }
    {
        Payloads {
            store,
            ids: store.order.ids(),
        }
    }
}

impl<'a, T: Copy> Iterator for Payloads<'a, T> {
    ghost use Rattle.std.specs.Iterator.{YieldsFirst, item_count};

    type Item = T;

    ghost next_gives = { YieldsFirst (λ s. s) };

    ghost remaining = { item_count (λ s. s) };

    #[inline]
    fn next(&mut self) -> Option<T> {
        let id = self.ids.next()?;
        Some(self.store.payload_under(id))
    }
}
