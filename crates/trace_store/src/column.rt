ghost use Rattle.std.specs.Prelude.{◌≡◌, length, slice_get};

use crate::payloads::Payloads;
use crate::store::TraceStore;
use std::marker::Model;

/// The payloads of a store, in the order of the traces, and nothing else of it. Seen as their list.
/// Takes no memory.
#[derive(Drop)]
pub struct Column<'a, T: Copy> {
    store: &'a TraceStore<T>,
}

impl<'a, T: Copy> Model for Column<'a, T> {
    ghost use Rattle.std.specs.Prelude.{List};
    ghost use Rattle.trace_store.specs.Stores.{payloads_of};

    ghost Value = { List T };

    ghost view = { λ c. payloads_of c.store.now };
}

impl<'a, T: Copy> Column<'a, T> {
    ghost use Rattle.trace_store.specs.Stores.{payloads_of};

    /// All payloads of the store.
    pub fn new(store: &'a TraceStore<T>) -> Column<'a, T>
        ensures { result ≡ payloads_of store.now }
    {
        Column { store }
    }

    /// How many they are.
    pub fn len(&self) -> usize
        ensures { result ≡ length self.now }
    {
        self.store.count() as usize
    }

    /// The payload at a place, from 0; `None` where there is none.
    pub fn get(&self, place: usize) -> Option<T>
        ensures { result ≡ slice_get self.now place }
    {
        let count = self.store.count();
        if place >= count as usize {
            return None;
        }
        Some(self.store.payload(place as u32 + 1))
    }

    /// The payloads in order, each taken from its place without a search.
    pub fn iter(&self) -> Payloads<'_, T>
        ensures { result ≡ self.now }
    {
        Payloads::new(self.store)
    }
}
