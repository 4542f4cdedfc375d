// The traces of a store with the edit that is prepared over them, if one is. Both stand in one
// place, so that the trace as it would be is lent from there.
ghost use Rattle.std.specs.Prelude.{◌≡◌, ◌-◌, ◌≤◌, [], length, slice_index_or, IfErr, IsOk, OnOk};
ghost use Rattle.base_file.specs.HeldBytes.{IsInMemory, IsSure};
ghost use Rattle.trace_store.specs.Ahead.{traces_ahead, IsReadyIfSome};
ghost use Rattle.trace_store.specs.Faults.{IsFaultOf};
ghost use Rattle.trace_store.specs.Reread.{IsReread};
ghost use Rattle.trace_store.specs.Stores.{traces_of};
ghost use Rattle.trace_view.specs.Shown.{head_of, bytes_of};

use base_file::ReadFault;
use trace_store::{Prepared, TraceStore};
use trace_view::TraceView;

#[derive(Drop)]
pub struct Laid<T: Copy> {
    pub store: TraceStore<T>,
    pub prepared: Option<Prepared>,
}

impl<T: Copy> Laid<T> {
    ghost use Rattle.edit_overlay.specs.Held.{HasChangedAhead, IsFetchedAhead};

    // Reads the bytes of the trace that would be trace p. Refused as `TraceStore::fetch`.
    pub fn fetch(&mut self, p: u32) -> Result<(), ReadFault>
        requires ready { IsReadyIfSome self.old.store self.old.prepared }
        requires first { 1 ≤ p }
        requires last { p ≤ length (traces_of self.old.store) }
        ensures same { IsReread self.old.store self.new.store }
        ensures prepared { self.new.prepared ≡ self.old.prepared }
        ensures ready { IsReadyIfSome self.new.store self.new.prepared }
        ensures fetched { OnOk result (IsFetchedAhead self.new.store p self.new.prepared) }
        ensures fault { IfErr result (IsFaultOf
            (HasChangedAhead self.new.store p self.new.prepared) self.old.store.loaded
            self.new.store.loaded) }
        ensures memory { IsInMemory self.old.store.loaded.standing → IsOk result }
    {
        match &self.prepared {
            Some(prepared) => self.store.fetch_then(p, prepared),
            None => self.store.fetch(p),
        }
    }

    // The trace that would be trace p, whose bytes are at hand.
    pub fn shown(&self, p: u32) -> TraceView<'_>
        requires ready { IsReadyIfSome self.now.store self.now.prepared }
        requires first { 1 ≤ p }
        requires last { p ≤ length (traces_of self.now.store) }
        requires fetched { IsFetchedAhead self.now.store p self.now.prepared }
        ensures head { head_of result ≡ self.now.store.head }
        ensures length { length (bytes_of result) ≡ length
            (slice_index_or (traces_ahead self.now.store self.now.prepared) (p - 1) []) }
        ensures bytes { IsSure self.now.store.loaded.standing → bytes_of result
            ≡ slice_index_or (traces_ahead self.now.store self.now.prepared) (p - 1) [] }
    {
        match &self.prepared {
            Some(prepared) => self.store.shown_then(p, prepared),
            None => self.store.shown(p),
        }
    }
}
