// A file that is being loaded.
ghost use Rattle.std.specs.Prelude.{◌≡◌, ◌⊎◌, ◌↔◌, ◌+◌, ◌<◌, ◌≤◌, false, [], length, IfOk, IfErr, IfSome, IsErr, IsErrOf, IsSome, IsTrue, OnOk, OnErr, MatchResult};
ghost use Rattle.std.specs.Borrow.{sem};
ghost use Rattle.std.specs.Io.KnownBytes.{Consumes, IsAtEnd};
ghost use Rattle.room.specs.Refusals.{Rises};
ghost use Rattle.frame_cut.specs.Cuts.{IsCut, IsRefused};
ghost use Rattle.frame_cut.specs.Traces.{count_of};
ghost use Rattle.frame_cut.specs.Volume.{bytes_of};
ghost use Rattle.frame_cut.specs.declared.load_fault.LoadFault.TheVariants.{OutOfMemory as no_memory};
ghost use Rattle.edit_overlay.specs.Reads.{HaveAgreed};
ghost use Rattle.volume_loading.specs.Loading.{IsLoadFault, FailuresAfterRefusal, TakesWithin};
ghost use Rattle.volume_loading.specs.LoadedVolume.{with_payload, overlay_of};

use crate::reading_in::read_file;
use device_io::Source;
use edit_overlay::{Overlay, array_at};
use frame_cut::{BINARY_HEADER_BYTES, Extent, Head, Limits, LoadFault, Reading, cut};
use room::{OutOfMemory, Room};
use std::io::Read;
use std::marker::Model;
use text_block::TEXT_BLOCK_BYTES;
use trace_store::{Base, TraceStore};
use trace_view::TraceView;

/// A file that was read and cut, whose traces get their payloads one after another: `next_trace`
/// shows the trace whose turn it is, `push` gives it its payload, and once each has one, `finish`
/// makes the [`Overlay`].
#[derive(Drop)]
pub struct Loading<T: Copy> {
    store: TraceStore<T>,
    extents: Vec<Extent>,
    tail: u64,
    looks: u64,
}

impl<T: Copy> Model for Loading<T> {
    ghost use Rattle.volume_loading.specs.LoadedVolume.{LoadedVolume};

    ghost Value = { LoadedVolume T };

    ghost use Rattle.volume_loading.specs.HeldLoading.{loaded_of, IsLoading};

    ghost view = { loaded_of };

    ghost invariant = { IsLoading };
}

impl<T: Copy> Loading<T> {
    ghost use Rattle.edit_overlay.specs.CountedVolume.{IsViewOf};
    ghost use Rattle.volume_loading.specs.Looks.{EndsSeen};

    /// Reads a whole file and cuts it. Takes memory. Refused: L01 where a read failed in this call,
    /// L02 to L15 or L17 for the first reason that the file gives, L16 where a growth was refused
    /// in this call. A refused load has taken at most one byte above the limit.
    pub fn load<R: Read>(
        room: &mut Room,
        reader: &mut Source<R>,
        reading: Reading,
        limits: Limits,
    ) -> Result<Loading<T>, LoadFault>
        ensures taken { IfOk result (λ l. Consumes (R.remaining reader.old.inner)
            (R.remaining reader.new.inner) (bytes_of l.volume)) }
        ensures all { IfOk result (λ _. IsAtEnd (R.remaining reader.new.inner)) }
        ensures within { IfOk result (λ l. length (bytes_of l.volume) ≤ limits.bytes) }
        ensures cut { IfOk result (λ l. IsCut (bytes_of l.volume) reading limits l.volume) }
        ensures payloads { IfOk result (λ l. l.payloads ≡ []) }
        ensures looks { IfOk result (λ l. l.looks ≡ 0) }
        ensures in_memory { IfOk result (λ l. l.loaded.on_disk ≡ false) }
        ensures loaded { IfOk result (λ l. l.loaded.bytes ≡ bytes_of l.volume) }
        ensures reads { IfOk result (λ l. HaveAgreed l.reads) }
        ensures refused { IfErr result (λ fault. IsLoadFault (R.remaining reader.old.inner) reading
            limits fault) }
        ensures read { IfErr result (λ _. TakesWithin (R.remaining reader.old.inner)
            (R.remaining reader.new.inner) limits) }
        ensures failures { MatchResult result (λ _. reader.new.failures ≡ reader.old.failures)
            (λ fault. FailuresAfterRefusal fault reader.old.failures reader.new.failures) }
        ensures memory { Rises (IsErrOf result LoadFault.OutOfMemory) room.old room.new }
    {
        let bytes = read_file(room, reader, limits)?;
        Loading::from_bytes(room, bytes, reading, limits)
    }

    /// Cuts a file that is in memory. Takes memory for the list of traces, and for a slot for each.
    /// Refused: L02 to L15 or L17 for the first reason that the file gives, L16 where a growth was
    /// refused in this call; the bytes are then dropped.
    pub fn from_bytes(
        room: &mut Room,
        bytes: Vec<u8>,
        reading: Reading,
        limits: Limits,
    ) -> Result<Loading<T>, LoadFault>
        ensures cut { IfOk result (λ l. IsCut bytes.items reading limits l.volume) }
        ensures payloads { IfOk result (λ l. l.payloads ≡ []) }
        ensures looks { IfOk result (λ l. l.looks ≡ 0) }
        ensures in_memory { IfOk result (λ l. l.loaded.on_disk ≡ false) }
        ensures loaded { IfOk result (λ l. l.loaded.bytes ≡ bytes_of l.volume) }
        ensures reads { IfOk result (λ l. HaveAgreed l.reads) }
        ensures refused { IfErr result (λ fault. (fault ≡ no_memory) ⊎
            IsRefused bytes.items reading limits fault) }
        ensures memory { Rises (IsErrOf result LoadFault.OutOfMemory) room.old room.new }
    {
        let cut = cut(room, bytes.as_slice(), reading, limits)?;
        // Read for the proof alone, which learns that the traces can be counted in 32 bits.
        let _most = limits.traces();
        let head = cut.head();
        let tail = cut.tail();
        let extents = cut.into_extents();
        let Ok(store) = TraceStore::new(room, bytes, head, extents.len()) else {
            return Err(LoadFault::OutOfMemory);
        };
        Ok(Loading {
            store,
            extents,
            tail,
            looks: 0,
        })
    }

    /// What the headers say of the file's frame.
    pub fn head(&self) -> Head
        ensures { result ≡ self.now.volume.head }
    {
        self.store.head
    }

    /// The number of traces.
    pub fn count(&self) -> u32
        ensures { result ≡ count_of self.now.volume }
    {
        self.extents.len() as u32
    }

    /// The first trace that has no payload yet, and one look more; None where each has one, and
    /// then no look. Takes no memory.
    pub fn next_trace(&mut self) -> Option<TraceView<'_>>
        ensures* counts { sem 𝓛 (EndsSeen T.row self.entry result) }
        ensures there { IsSome result ↔ (length self.old.payloads < count_of self.old.volume) }
        ensures trace { IfSome result (IsViewOf self.old.volume (length self.old.payloads + 1)) }
    {
        if self.store.count() >= self.count() {
            return None;
        }
        self.looks = self.looks.saturating_add(1);
        Some(self.view())
    }

    // The first trace that has no payload yet.
    fn view(&self) -> TraceView<'_>
        requires { length self.now.payloads < count_of self.now.volume }
        ensures { IsViewOf self.now.volume (length self.now.payloads + 1) result }
    {
        let extent = self.extents[self.store.count() as usize];
        self.store.view_loaded(extent)
    }

    /// Gives the first trace that has no payload this one. Takes memory for its place in the order;
    /// may be refused for want of it alone, and then nothing is changed.
    pub fn push(&mut self, room: &mut Room, payload: T) -> Result<(), OutOfMemory>
        requires { length self.old.payloads < count_of self.old.volume }
        ensures ok { OnOk result (self.new ≡ with_payload self.old payload) }
        ensures err { OnErr result (self.new ≡ self.old) }
        ensures memory { Rises (IsErr result) room.old room.new }
    {
        let count = self.store.count();
        let extent = self.extents[count as usize];
        self.store
            .insert(room, count + 1, Base::Loaded(extent), payload)?;
        Ok(())
    }

    /// Gives the file up, and its memory back. Who owns one that is not finished ends it by this,
    /// as an [`Overlay`] is closed.
    pub fn close(self) {}

    /// The overlay of the file, where each trace has its payload. Takes no memory.
    pub fn finish(self) -> Overlay<T>
        requires { length self.payloads ≡ count_of self.volume }
        ensures overlay { result ≡ overlay_of self }
        ensures bytes { result.loaded.bytes ≡ bytes_of result.volume }
    {
        let bytes = self.store.loaded.bytes();
        let text = *array_at::<TEXT_BLOCK_BYTES>(bytes, 0);
        let bin = *array_at::<BINARY_HEADER_BYTES>(bytes, TEXT_BLOCK_BYTES);
        Overlay::new(text, bin, self.tail, self.store, self.looks)
    }
}
