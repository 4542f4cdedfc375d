ghost use Rattle.std.specs.Prelude.{ℕ, ◌≡◌, ◌⊎◌, ◌↔◌, ◌+◌, ◌-◌, ◌/◌, ◌%◌, ◌≤◌, ◌<◌, ◌^◌, false, [], length, slice_index_or, get_or, option_map, slice_get, slice_set, map, Some, All, IfOk, IfErr, IfSome, IsErr, IsSome, IsTrue, OnOk, OnErr, MatchResult};
ghost use Rattle.std.specs.Borrow.{sem};
ghost use Rattle.room.specs.Refusals.{Rises};
ghost use Rattle.frame_cut.specs.Cuts.{IsTrace};
ghost use Rattle.frame_cut.specs.Splice.{splice};
ghost use Rattle.frame_cut.specs.Traces.{count_of, is_trace, trace_at, with_trace};
ghost use Rattle.frame_cut.specs.Volume.{bytes_of};
ghost use Rattle.trace_seq.specs.Without.{taken_out, without_each, AreRising};
ghost use Rattle.trace_store.specs.Each.{part_of};
ghost use Rattle.edit_overlay.specs.CountedVolume.{with_over, with_prepared, with_table, with_table_prepared, with_traces, with_volume};
ghost use Rattle.trace_store.specs.Stores.{payloads_moved, payloads_of};
ghost use Rattle.trace_store.specs.Swapped.{with_places_swapped, with_swapped, ArePlaces};
ghost use Rattle.std.specs.List.{insert, remove};
ghost use Rattle.frame_cut.specs.Parts.{block_of, trailer_of, with_line, untailed, with_header_bytes, with_each, with_inserted, without, with_moved};
ghost use Rattle.edit_overlay.specs.Saving.{CountsSaveFailure, Saves};

use crate::bytes::{array_at, overwrite};
use crate::laid::Laid;
use crate::pass_fault::PassFault;
use crate::save_fault::SaveFault;
use crate::writing_out::write_volume;
use base_file::ReadFault;
use device_io::Sink;
use frame_cut::{BINARY_HEADER_BYTES, FILE_HEADER_BYTES, Head, LoadFault};
use room::{OutOfMemory, Room};
use std::io::Write;
use std::marker::Model;
use text_block::TEXT_BLOCK_BYTES;
use trace_store::{Base, Column, TraceStore};
use trace_view::TraceView;

// How many traces are brought nearer at once.
const AHEAD: u32 = 32;

/// A volume under edits: one SEG-Y file in its parts. The bytes that were loaded never change:
/// edits lie over them.
#[derive(Drop)]
pub struct Overlay<T: Copy> {
    text: [u8; TEXT_BLOCK_BYTES],
    bin: [u8; BINARY_HEADER_BYTES],
    laid: Laid<T>,

    // How many bytes of no trace stand behind the last trace.
    tail: u64,
    length: u64,
    looks: u64,

    // All bytes that were read ahead in one: what is not kept is not read.
    seen: u8,
}

impl<T: Copy> Model for Overlay<T> {
    ghost use Rattle.edit_overlay.specs.CountedVolume.{CountedVolume};

    ghost Value = { CountedVolume T };

    ghost use Rattle.edit_overlay.specs.Held.{looked_of, IsHeld};

    ghost view = { looked_of };

    ghost invariant = { IsHeld };
}

impl<T: Copy> Overlay<T> {
    ghost use Rattle.edit_overlay.specs.CountedVolume.{after_look, with_reads, HasShapeOf, IsViewOf};
    ghost use Rattle.edit_overlay.specs.Held.{volume_with, CanLend, HasEnds};
    ghost use Rattle.edit_overlay.specs.Looks.{EndsLooked};
    ghost use Rattle.edit_overlay.specs.Reads.{Follow, HaveAgreed, IsFaultOfLook};
    ghost use Rattle.edit_overlay.specs.Standings.{loaded_in, reads_in};

    /// An overlay of the store of a loaded file, with its headers, the number of bytes of no trace
    /// behind the last one, and how often traces were looked at: for one that loads a file. Takes
    /// no memory.
    pub fn new(
        text: [u8; TEXT_BLOCK_BYTES],
        bin: [u8; BINARY_HEADER_BYTES],
        tail: u64,
        store: TraceStore<T>,
        looks: u64,
    ) -> Overlay<T>
        requires ends { HasEnds store tail }
        requires lends { CanLend store.loaded }
        requires joined { bytes_of (volume_with text bin tail store) ≡ store.loaded.bytes }
        ensures { result ≡ record {
          volume = volume_with text bin tail store;
          prepared = volume_with text
              bin tail store;
          looks = looks;
          payloads = payloads_of store;
          payloads_prepared = payloads_of store;
          loaded = loaded_in store.loaded;
          reads = reads_in store.loaded;
        } }
    {
        let length = store.loaded.length();
        Overlay {
            text,
            bin,
            laid: Laid {
                store,
                prepared: None,
            },
            tail,
            length,
            looks,
            seen: 0,
        }
    }

    /// What the headers say of the file's frame.
    pub fn head(&self) -> Head
        ensures { result ≡ self.now.volume.head }
    {
        self.laid.store.head
    }

    /// The traces, with the loaded bytes that they lie over. Takes no memory and looks at no trace.
    pub fn store(&self) -> &TraceStore<T>
        ensures volume { volume_with self.now.volume.text self.now.volume.bin
            (length self.now.volume.tail) result.now ≡ self.now.volume }
        ensures loaded { loaded_in result.now.loaded ≡ self.now.loaded }
        ensures ends { HasEnds result.now (length self.now.volume.tail) }
    {
        &self.laid.store
    }

    /// The number of traces.
    pub fn count(&self) -> u32
        ensures { result ≡ count_of self.now.volume }
    {
        self.laid.store.count()
    }

    /// The file's length in bytes.
    pub fn length(&self) -> u64
        ensures { result ≡ length (bytes_of self.now.volume) }
    {
        self.length
    }

    /// In memory each read agrees. Does nothing: its contract is the law.
    pub fn memory_agrees(&self)
        ensures { self.now.loaded.on_disk ≡ false → HaveAgreed self.now.reads }
    {
        // Read for the proof alone, which learns how the overlay is held.
        let _length = self.length;
    }

    /// How often a trace was looked at. Stays at `u64::MAX` once there.
    pub fn looks(&self) -> u64
        ensures { result ≡ self.now.looks }
    {
        self.looks
    }

    /// Trace p, counted from 1, and one look more; None where there is none, and then no look. On
    /// disk the trace is read, and refused where the file fails, or gives other bytes than it gave
    /// when it was loaded, as far as its length tells: only where a read failed, or gave others.
    /// Takes no memory.
    pub fn look(&mut self, p: u32) -> Result<Option<TraceView<'_>>, ReadFault>
        ensures* ends { sem 𝓛 (EndsLooked T.row self.entry self.old.volume p result) }
        ensures there { IfOk result (λ view. IsSome view ↔ IsTrue (is_trace self.old.volume p)) }
        ensures shape { IfOk result (λ view. IfSome view (HasShapeOf self.old.volume p)) }
        ensures read { IfErr result (λ _. IsTrue (is_trace self.old.volume p)
            × IsTrue self.old.loaded.on_disk) }
    {
        if p == 0 || p > self.count() {
            return Ok(None);
        }
        self.count_look();
        self.laid.store.fetch(p)?;
        Ok(Some(self.laid.store.shown(p)))
    }

    // One look more.
    fn count_look(&mut self)
        ensures { self.new ≡ after_look self.old self.old.reads }
    {
        self.looks = self.looks.saturating_add(1);
    }

    /// The payload of trace p, counted from 1.
    pub fn payload(&self, p: u32) -> T
        requires first { 1 ≤ p }
        requires last { p ≤ count_of self.now.volume }
        ensures { slice_get self.now.payloads (p - 1) ≡ Some result }
    {
        self.laid.store.payload(p)
    }

    /// Gives trace p, counted from 1, another payload. Takes no memory.
    pub fn set_payload(&mut self, p: u32, payload: T)
        requires first { 1 ≤ p }
        requires last { p ≤ count_of self.old.volume }
        ensures { self.new ≡ with_table self.old self.old.volume
            (slice_set self.old.payloads (p - 1) payload) }
    {
        self.laid.store.set_payload(p, payload);
        self.laid.prepared = None;
    }

    /// Before each 32nd trace, of which trace 1 is the first, brings byte `at`, counted from 0, of
    /// each of the next 32 traces from trace p on nearer to the processor, where they are in memory
    /// and have it: for a caller that is to look at them one after another, and needs of each what
    /// stands there. Shows nothing, changes nothing, and takes no memory.
    pub fn read_ahead(&mut self, p: u32, at: u64)
        ensures { self.new ≡ self.old }
    {
        if p % AHEAD == 1 {
            self.seen ^= self.laid.store.read_ahead(p, at);
        }
    }

    /// The payloads of all traces, in order. Looks at no trace, and takes no memory.
    pub fn payloads(&self) -> Column<'_, T>
        ensures { result ≡ self.now.payloads }
    {
        Column::new(&self.laid.store)
    }

    /// Trace p, counted from 1, as it would be with the edit that is prepared, and one look more;
    /// None where there is none, and then no look. Refused as `look`. Takes no memory.
    pub fn look_prepared(&mut self, p: u32) -> Result<Option<TraceView<'_>>, ReadFault>
        ensures* ends { sem 𝓛 (EndsLooked T.row self.entry self.old.prepared p result) }
        ensures there { IfOk result (λ view. IsSome view ↔ IsTrue (is_trace self.old.prepared p)) }
        ensures shape { IfOk result (λ view. IfSome view (HasShapeOf self.old.prepared p)) }
        ensures read { IfErr result (λ _. IsTrue (is_trace self.old.prepared p)
            × IsTrue self.old.loaded.on_disk) }
    {
        if p == 0 || p > self.count_prepared() {
            return Ok(None);
        }
        self.count_look();
        self.laid.fetch(p)?;
        Ok(Some(self.laid.shown(p)))
    }

    // The number of traces, which a prepared edit leaves as it is.
    fn count_prepared(&self) -> u32
        ensures now { result ≡ count_of self.now.volume }
        ensures prepared { result ≡ count_of self.now.prepared }
    {
        self.laid.store.count()
    }

    /// The textual header (bytes 1 to 3200 of the file).
    pub fn text(&self) -> &[u8; TEXT_BLOCK_BYTES]
        ensures { result.now ≡ self.now.volume.text }
    {
        &self.text
    }

    /// The binary header (bytes 3201 to 3600 of the file).
    pub fn bin(&self) -> &[u8; BINARY_HEADER_BYTES]
        ensures { result.now ≡ self.now.volume.bin }
    {
        &self.bin
    }

    /// Block b, where there is one: the textual header is block 0, the extended textual headers are
    /// blocks 1 and up.
    pub fn block(&self, b: u32) -> Option<&[u8; TEXT_BLOCK_BYTES]>
        ensures { option_map (λ x. x.now) result ≡ block_of self.now.volume b }
    {
        if b == 0 {
            return Some(self.text());
        }
        if b > self.laid.store.head.blocks {
            return None;
        }
        let at = FILE_HEADER_BYTES + TEXT_BLOCK_BYTES * (b as usize - 1);
        Some(array_at(self.laid.store.loaded.edge(at as u64, TEXT_BLOCK_BYTES), 0))
    }

    /// Data trailer record j, counted from 1, where there is one.
    pub fn trailer(&self, j: u32) -> Option<&[u8; TEXT_BLOCK_BYTES]>
        ensures { option_map (λ x. x.now) result ≡ trailer_of self.now.volume j }
    {
        if j == 0 {
            return None;
        }
        if j > self.laid.store.head.trailer {
            return None;
        }
        let length = self.laid.store.loaded.length() as usize;
        let start = length - TEXT_BLOCK_BYTES * self.laid.store.head.trailer as usize;
        let at = start + TEXT_BLOCK_BYTES * (j as usize - 1);
        Some(array_at(self.laid.store.loaded.edge(at as u64, TEXT_BLOCK_BYTES), 0))
    }

    /// The number of bytes of no trace behind the last one. Takes no memory.
    pub fn tail(&self) -> u64
        ensures { result ≡ length self.now.volume.tail }
    {
        self.tail
    }

    /// Takes the bytes of no trace behind the last one away, where there are any. Takes no memory.
    pub fn drop_tail(&mut self)
        ensures { self.new ≡ with_volume self.old (untailed self.old.volume) }
    {
        self.length -= self.tail;
        self.tail = 0;
        self.laid.prepared = None;
    }

    /// Writes line q of the textual header, from 1 to 40. Takes no memory.
    pub fn put_text(&mut self, q: u32, line: &[u8; 80])
        requires first { 1 ≤ q }
        requires last { q ≤ 40 }
        ensures { self.new ≡ with_volume self.old (with_line self.old.volume q line.now) }
    {
        let at = 80 * (q as usize - 1);
        overwrite(&mut self.text, at, line);
        self.laid.prepared = None;
    }

    /// Writes the bytes over those of the binary header from place `at` on, counted from 0 in it.
    /// Takes no memory.
    pub fn put_head(&mut self, at: u32, bytes: &[u8])
        requires { at + length bytes.now ≤ BINARY_HEADER_BYTES }
        ensures { self.new ≡ with_volume self.old (with_header_bytes self.old.volume at bytes.now) }
    {
        overwrite(&mut self.bin, at as usize, bytes);
        self.laid.prepared = None;
    }

    /// Prepares to lay the bytes over those of trace p, counted from 1, from place `at` on, counted
    /// from 0 in the trace, in place of what was prepared before. The volume stays as it is. The
    /// caller shows that the trace's headers give it the same length then. Takes memory in
    /// step with all that edits laid over the trace; may be refused for want of memory alone, and
    /// then nothing is changed.
    pub fn prepare_put(
        &mut self,
        room: &mut Room,
        p: u32,
        at: u64,
        bytes: &[u8],
    ) -> Result<(), OutOfMemory>
        requires first { 1 ≤ p }
        requires last { p ≤ count_of self.old.volume }
        requires inside { at + length bytes.now ≤ length (trace_at self.old.volume p) }
        requires whole { HaveAgreed self.old.reads → IsTrace self.old.volume.head
            (splice (trace_at self.old.volume p) at (length bytes.now) bytes.now) }
        ensures ok { OnOk result (self.new ≡ with_prepared self.old (with_trace self.old.volume p
            (splice (trace_at self.old.volume p) at (length bytes.now) bytes.now))) }
        ensures err { OnErr result (self.new ≡ self.old) }
        ensures memory { Rises (IsErr result) room.old room.new }
    {
        let prepared = self.laid.store.prepare_put(room, p, at, bytes)?;
        self.laid.prepared = Some(prepared);
        Ok(())
    }

    /// Prepares to lay the bytes, `size` of them over each trace, over the traces from trace a on,
    /// which counts from 1; in each from place `at` on, counted from 0 in the trace; in place of
    /// what was prepared before. The volume stays as it is. The caller shows that each trace's
    /// headers give it the same length then. Takes memory in step with all that edits laid over
    /// these traces; may be refused for want of memory alone, and then nothing is changed.
    pub fn prepare_put_each(
        &mut self,
        room: &mut Room,
        a: u32,
        at: u64,
        size: u32,
        bytes: &[u8],
    ) -> Result<(), OutOfMemory>
        requires first { 1 ≤ a }
        requires some { 0 < size }
        requires exact { length bytes.now % size ≡ 0 }
        requires last { a - 1 + length bytes.now / size ≤ count_of self.old.volume }
        requires inside { (k : ℕ) → k < length bytes.now / size →
            at + size ≤ length (slice_index_or self.old.volume.traces (a - 1 + k) []) }
        requires whole { (k : ℕ) → k < length bytes.now / size → HaveAgreed self.old.reads →
            IsTrace self.old.volume.head
            (splice (slice_index_or self.old.volume.traces (a - 1 + k) []) at size
            (part_of bytes.now size k)) }
        ensures ok { OnOk result
            (self.new ≡ with_prepared self.old (with_each self.old.volume a at size bytes.now)) }
        ensures err { OnErr result (self.new ≡ self.old) }
        ensures memory { Rises (IsErr result) room.old room.new }
    {
        let prepared = self.laid.store.prepare_put_each(room, a, at, size, bytes)?;
        self.laid.prepared = Some(prepared);
        Ok(())
    }

    /// Prepares to lay the bytes over each of the traces from trace a on, which counts from 1, one
    /// for each of the places: in each from its own place on, counted from 0 in the trace; in place
    /// of what was prepared before. The volume stays as it is. The caller shows that each trace's
    /// headers give it the same length then. Takes memory in step with all that edits laid over
    /// these traces; may be refused for want of memory alone, and then nothing is changed.
    pub fn prepare_put_over(
        &mut self,
        room: &mut Room,
        a: u32,
        places: &[u64],
        bytes: &[u8],
    ) -> Result<(), OutOfMemory>
        requires first { 1 ≤ a }
        requires some { 0 < length bytes.now }
        requires last { a - 1 + length places.now ≤ count_of self.old.volume }
        requires inside { (k : ℕ) → k < length places.now → get_or places.now k 0 +
            length bytes.now ≤ length (slice_index_or self.old.volume.traces (a - 1 + k) []) }
        requires whole { (k : ℕ) → k < length places.now → HaveAgreed self.old.reads →
            IsTrace self.old.volume.head
            (splice (slice_index_or self.old.volume.traces (a - 1 + k) []) (get_or places.now k 0)
            (length bytes.now) bytes.now) }
        ensures ok { OnOk result (self.new ≡ with_prepared self.old
            (with_over self.old.volume a places.now bytes.now)) }
        ensures err { OnErr result (self.new ≡ self.old) }
        ensures memory { Rises (IsErr result) room.old room.new }
    {
        let prepared = self.laid.store.prepare_put_over(room, a, places, bytes)?;
        self.laid.prepared = Some(prepared);
        Ok(())
    }

    /// Prepares a `move_to`, which takes trace a out and puts it in again so that it is trace b,
    /// both counted from 1; in place of what was prepared before. The volume stays as it is. Takes
    /// memory for room in the order; may be refused for want of memory alone, and then nothing is
    /// changed.
    pub fn prepare_move(&mut self, room: &mut Room, a: u32, b: u32) -> Result<(), OutOfMemory>
        requires from_first { 1 ≤ a }
        requires from_last { a ≤ count_of self.old.volume }
        requires to_first { 1 ≤ b }
        requires to_last { b ≤ count_of self.old.volume }
        ensures ok { OnOk result
            (self.new ≡ with_table_prepared self.old (with_moved self.old.volume a b)
            (payloads_moved self.old.payloads a b)) }
        ensures err { OnErr result (self.new ≡ self.old) }
        ensures memory { Rises (IsErr result) room.old room.new }
    {
        let prepared = self.laid.store.prepare_move(room, a, b)?;
        self.laid.prepared = Some(prepared);
        Ok(())
    }

    /// Makes the edit that is prepared, if one is. Takes no memory.
    pub fn commit(&mut self)
        ensures { self.new ≡ with_table self.old self.old.prepared self.old.payloads_prepared }
    {
        if let Some(prepared) = self.laid.prepared.take() {
            self.laid.store.commit(prepared);
        }
    }

    /// Makes the edit that is prepared, if one is, and gives trace p, counted from 1, this payload
    /// then. Takes no memory.
    pub fn commit_with(&mut self, p: u32, payload: T)
        requires first { 1 ≤ p }
        requires last { p ≤ count_of self.old.volume }
        ensures { self.new ≡ with_table self.old self.old.prepared
            (slice_set self.old.payloads_prepared (p - 1) payload) }
    {
        match self.laid.prepared.take() {
            Some(prepared) => self.laid.store.commit_with(prepared, p, payload),
            None => self.laid.store.set_payload(p, payload),
        }
    }

    /// Drops the edit that is prepared, if one is. Takes no memory.
    pub fn discard(&mut self)
        ensures { self.new ≡ with_volume self.old self.old.volume }
    {
        self.laid.prepared = None;
    }

    /// Puts a new trace of these bytes in front of trace p, or behind the last where p is one more
    /// than their number. The caller shows that its headers give it its length, and that there are
    /// fewer than 2^32 traces and 2^64 bytes then. May be refused for want of memory alone, and
    /// then nothing is changed, and the bytes are dropped.
    pub fn insert(
        &mut self,
        room: &mut Room,
        p: u32,
        bytes: Vec<u8>,
        payload: T,
    ) -> Result<(), OutOfMemory>
        requires first { 1 ≤ p }
        requires last { p ≤ count_of self.old.volume + 1 }
        requires few { count_of self.old.volume + 1 < 2 ^ 32 }
        requires whole { IsTrace self.old.volume.head bytes.items }
        requires small { length (bytes_of self.old.volume) + length bytes.items < 2 ^ 64 }
        ensures ok { OnOk result
            (self.new ≡ with_table self.old (with_inserted self.old.volume p bytes.items)
            (insert self.old.payloads (p - 1) payload)) }
        ensures err { OnErr result (self.new ≡ self.old) }
        ensures memory { Rises (IsErr result) room.old room.new }
    {
        let added = bytes.len() as u64;
        self.laid
            .store
            .insert(room, p, Base::Added(bytes), payload)?;
        self.laid.prepared = None;
        self.length += added;
        Ok(())
    }

    /// Takes trace p, counted from 1, out. Takes no memory.
    pub fn delete(&mut self, p: u32) -> T
        requires first { 1 ≤ p }
        requires last { p ≤ count_of self.old.volume }
        ensures payload { slice_get self.old.payloads (p - 1) ≡ Some result }
        ensures after { self.new ≡ with_table self.old (without self.old.volume p)
            (remove self.old.payloads (p - 1)) }
    {
        let gone = self.laid.store.length_of(p);
        let payload = self.laid.store.delete(p);
        self.laid.prepared = None;
        self.length -= gone;
        payload
    }

    /// Takes these traces out, which count from 1 and rise; the others stay in their order. That is
    /// what it is to take them out one after the other, the last of them first. Takes no memory.
    pub fn delete_each(&mut self, traces: &[u32])
        requires rising { AreRising 1 traces.now }
        requires last { All (λ p. p ≤ count_of self.old.volume) traces.now }
        ensures after { self.new ≡ with_table self.old (with_traces self.old.volume
            (without_each self.old.volume.traces traces.now))
            (without_each self.old.payloads traces.now) }
        ensures one_by_one { without_each self.old.volume.traces traces.now
            ≡ taken_out self.old.volume.traces traces.now }
        ensures payloads_one_by_one { without_each self.old.payloads traces.now
            ≡ taken_out self.old.payloads traces.now }
    {
        let length = self.length;
        let gone = self.laid.store.length_of_each(traces);
        self.laid.store.delete_each(traces);
        self.laid.prepared = None;
        self.length = length - gone;
    }

    /// Takes trace a out, and puts it in again so that it is trace b; both count from 1. May be
    /// refused for want of memory alone, and then nothing is changed.
    pub fn move_to(&mut self, room: &mut Room, a: u32, b: u32) -> Result<(), OutOfMemory>
        requires from_first { 1 ≤ a }
        requires from_last { a ≤ count_of self.old.volume }
        requires to_first { 1 ≤ b }
        requires to_last { b ≤ count_of self.old.volume }
        ensures ok { OnOk result
            (self.new ≡ with_table self.old (with_moved self.old.volume a b)
            (payloads_moved self.old.payloads a b)) }
        ensures err { OnErr result (self.new ≡ self.old) }
        ensures memory { Rises (IsErr result) room.old room.new }
    {
        self.prepare_move(room, a, b)?;
        self.commit();
        Ok(())
    }

    /// Puts the traces of each pair in the place of one another, with their payloads, one pair
    /// after the other; they count from 1. Takes no memory.
    pub fn swap_each(&mut self, pairs: Vec<(u32, u32)>)
        requires { ArePlaces (count_of self.old.volume) pairs.items }
        ensures { self.new ≡ with_table self.old (with_places_swapped self.old.volume pairs.items)
            (with_swapped self.old.payloads pairs.items) }
    {
        self.laid.store.swap_each(pairs);
        self.laid.prepared = None;
    }

    /// Makes the bytes the whole of trace p, counted from 1. The caller shows that their headers
    /// give them their length, and that there are fewer than 2^64 bytes then. Takes no memory.
    pub fn replace(&mut self, p: u32, bytes: Box<Vec<u8>>, payload: T)
        requires first { 1 ≤ p }
        requires last { p ≤ count_of self.old.volume }
        requires whole { IsTrace self.old.volume.head bytes.value.items }
        requires small { length (bytes_of self.old.volume) + length bytes.value.items < 2 ^ 64 }
        ensures { self.new ≡ with_table self.old (with_trace self.old.volume p bytes.value.items)
            (slice_set self.old.payloads (p - 1) payload) }
    {
        let gone = self.laid.store.length_of(p);
        let added = bytes.len() as u64;
        self.laid.store.replace(p, bytes, payload);
        self.laid.prepared = None;
        self.length = self.length - gone + added;
    }

    /// The file, which stays on disk, is given up for this reason. Takes no memory.
    pub fn refuse(self, fault: LoadFault) -> PassFault
        requires { IsTrue self.loaded.on_disk }
        ensures fault { result.fault ≡ fault }
        ensures read { result.read ≡ self.loaded.bytes }
        ensures failures { result.failures ≡ self.reads.failures }
    {
        PassFault::of(fault, self.laid.store.loaded)
    }

    /// Ends the volume: gives back its memory, and closes a file on disk. Who owns one ends it by
    /// this, since each crate that drops one proves anew how its parts are dropped.
    pub fn close(self) {}

    /// Writes the file as it is now. Takes no memory. Refused where the writer failed, or on disk
    /// where a read of the loaded bytes did; `written` is then the length of the prefix that the
    /// writer took.
    pub fn write_to<W: Write>(&mut self, writer: &mut Sink<W>) -> Result<(), SaveFault>
        ensures same { self.new ≡ with_reads self.old self.new.reads }
        ensures reads { Follow self.old.reads self.new.reads }
        ensures saved { HaveAgreed self.new.reads → Saves (W.contents writer.old.inner)
            (W.contents writer.new.inner) (bytes_of self.old.volume) result }
        ensures read { IfErr result (λ fault. IsSome fault.read → IsTrue self.old.loaded.on_disk) }
        ensures fault { IfErr result (λ fault. IfSome fault.read (IsFaultOfLook self.old.reads
            self.new.reads)) }
        ensures failures { CountsSaveFailure result writer.old.failures writer.new.failures }
    {
        // Read for the proof alone, which learns that the file's length fits 64 bits.
        let _length = self.length;
        write_volume(
            writer,
            &self.text,
            &self.bin,
            self.tail,
            &mut self.laid.store,
        )
    }
}
