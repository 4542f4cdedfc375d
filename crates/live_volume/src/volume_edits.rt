// Changes of the volume and of the reports that hold the records of its traces: of both, or of
// neither where memory or a read of a trace is refused. What can be refused comes first, and what
// is done then takes no memory and reads no trace.
ghost use Rattle.std.specs.Prelude.{◌≡◌, ◌+◌, ◌-◌, ◌≤◌, ◌<◌, ◌/◌, ◌%◌, [], length, slice_index_or, ℕ, IsTrue, IsSome, IfSome, IfOk, OnOk, IfErr, IsErrOf};
ghost use Rattle.room.specs.Refusals.{Rises};
ghost use Rattle.frame_cut.specs.Cuts.{IsTrace};
ghost use Rattle.frame_cut.specs.Parts.{with_each, with_inserted};
ghost use Rattle.frame_cut.specs.Splice.{splice};
ghost use Rattle.frame_cut.specs.Traces.{count_of, trace_at, with_trace};
ghost use Rattle.frame_cut.specs.Volume.{bytes_of};
ghost use Rattle.trace_record.specs.Facts.{facts_of};
ghost use Rattle.trace_record.specs.OfTrace.{record_of};
ghost use Rattle.trace_record.specs.Told.{tells_record};
ghost use Rattle.edit_overlay.specs.CountedVolume.{RisesAtMost};
ghost use Rattle.edit_overlay.specs.Reads.{Follow, HaveAgreed};
ghost use Rattle.bench_rules.specs.declared.refusal.Refusal.TheVariants.{OutOfMemory as no_memory};
ghost use Rattle.volume_records.specs.Laid.{HasSamplesOf};
ghost use Rattle.volume_records.specs.OfVolume.{AreHeaderParts};
ghost use Rattle.live_volume.specs.Held.{any_moves, with_volume, IsCutAs};
ghost use Rattle.live_volume.specs.Places.{MayReplace};
ghost use Rattle.live_volume.specs.Refusals.{refusal_of_records as refusal_of, IsOfMachine};
ghost use Rattle.bench_rules.specs.ReadFaults.{IsRefusalOfReads};

use crate::live_volume::LiveVolume;
use bench_rules::Refusal;
use live_reports::same_cells;
use record_table::Records;
use room::Room;
use trace_record::{PackedRecord, Record};
use volume_records::{
    RecordsFault, commit_with_record, commit_with_records, prepared_records, record_after,
};

impl LiveVolume {
    // The record of trace p.
    pub(crate) fn held(&self, p: u32) -> Record
        requires first { 1 ≤ p }
        requires last { p ≤ count_of self.now.state.volume }
        ensures facts { HaveAgreed self.now.reads → facts_of result ≡ record_of
            self.now.state.volume.head self.now.state.fields
            (trace_at self.now.state.volume p) }
        ensures few { result.number ≤ length (trace_at self.now.state.volume p) }
    {
        self.overlay.payload(p).record()
    }

    // Lays the bytes over those of trace p from place `at` on, counted from 0 in the trace. The
    // trace is looked at for its new record. For bytes over headers alone the caller gives the
    // record that the trace had: then no sample is read, and where that record tells the new one
    // the trace is not looked at. Refused for want of memory, or on disk where a trace that is
    // looked at could not be read.
    pub(crate) fn put(
        &mut self,
        room: &mut Room,
        p: u32,
        at: u64,
        bytes: &[u8],
        known: Option<Record>,
    ) -> Result<(), Refusal>
        requires first { 1 ≤ p }
        requires last { p ≤ count_of self.old.state.volume }
        requires inside { at + length bytes.now ≤ length (trace_at self.old.state.volume p) }
        requires whole { HaveAgreed self.old.reads → IsTrace self.old.state.volume.head
            (splice (trace_at self.old.state.volume p) at (length bytes.now) bytes.now) }
        requires cut { HaveAgreed self.old.reads → IsCutAs self.old.state
            (with_trace self.old.state.volume p
            (splice (trace_at self.old.state.volume p) at (length bytes.now) bytes.now)) }
        requires known { HaveAgreed self.old.reads → IfSome known (λ r. facts_of r ≡ record_of
            self.old.state.volume.head self.old.state.fields
            (trace_at self.old.state.volume p)) }
        requires samples { HaveAgreed self.old.reads → IfSome known (HasSamplesOf
            self.old.state.volume.head self.old.state.fields
            (splice (trace_at self.old.state.volume p) at (length bytes.now) bytes.now)) }
        requires few { IfSome known (λ r. r.number ≤
            length (trace_at self.old.state.volume p)) }
        ensures ok { OnOk result (self.new.state ≡ with_volume self.old.state
            (with_trace self.old.state.volume p
            (splice (trace_at self.old.state.volume p) at (length bytes.now) bytes.now))) }
        ensures err { IfErr result (λ refusal. IsOfMachine self.old.state.on_disk refusal ×
            (self.new.state ≡ self.old.state)) }
        ensures reads { Follow self.old.reads self.new.reads }
        ensures reads_tell { IfErr result (IsRefusalOfReads self.old.reads self.new.reads) }
        ensures loaded { self.new.loaded ≡ self.old.loaded }
        ensures looks { RisesAtMost self.old.looks self.new.looks 1 }
        ensures told { IsSome known →
            IsTrue (tells_record self.old.state.fields at (length bytes.now)) →
            (self.new.looks ≡ self.old.looks) × IfErr result (λ refusal. refusal ≡ no_memory) }
        ensures memory { Rises (IsErrOf result Refusal.OutOfMemory) room.old room.new }
    {
        self.overlay.prepare_put(room, p, at, bytes)?;
        match record_after(&mut self.overlay, &self.fields, p, at, bytes, known) {
            Ok(record) => {
                let overlay = &mut self.overlay;
                let Ok(()) = commit_with_record(room, overlay, &mut self.reports, p, &record) else {
                    return Err(Refusal::OutOfMemory);
                };
                Ok(())
            }
            Err(fault) => {
                self.overlay.discard();
                Err(Refusal::from(fault))
            }
        }
    }

    // Puts a new trace of these bytes, with this record, in front of trace p, or behind the last.
    pub(crate) fn insert(
        &mut self,
        room: &mut Room,
        p: u32,
        bytes: Vec<u8>,
        trace: &Record,
    ) -> Result<(), Refusal>
        requires first { 1 ≤ p }
        requires last { p ≤ count_of self.old.state.volume + 1 }
        requires few { count_of self.old.state.volume + 1 ≤ self.old.state.limits.traces }
        requires whole { IsTrace self.old.state.volume.head bytes.items }
        requires small { length (bytes_of self.old.state.volume) + length bytes.items
            ≤ self.old.state.limits.bytes }
        requires number { trace.now.number ≤ length bytes.items }
        requires cut { HaveAgreed self.old.reads → IsCutAs self.old.state
            (with_inserted self.old.state.volume p bytes.items) }
        requires record { HaveAgreed self.old.reads → facts_of trace.now ≡ record_of
            self.old.state.volume.head self.old.state.fields bytes.items }
        ensures ok { OnOk result (self.new.state ≡ with_volume self.old.state
            (with_inserted self.old.state.volume p bytes.items)) }
        ensures err { IfErr result (λ refusal. (refusal ≡ no_memory) ×
            (self.new.state ≡ self.old.state)) }
        ensures reads { Follow self.old.reads self.new.reads }
        ensures reads_tell { IfErr result (IsRefusalOfReads self.old.reads self.new.reads) }
        ensures loaded { self.new.loaded ≡ self.old.loaded }
        ensures looks { self.new.looks ≡ self.old.looks }
        ensures memory { Rises (IsErrOf result Refusal.OutOfMemory) room.old room.new }
    {
        let place = p as usize - 1;
        let Ok(()) = self
            .reports
            .insert(room, &Records::new(self.overlay.payloads()), place, trace)
        else {
            return Err(Refusal::OutOfMemory);
        };
        match self
            .overlay
            .insert(room, p, bytes, PackedRecord::of(*trace))
        {
            Ok(()) => Ok(()),
            Err(_) => {
                self.reports
                    .take_back(&Records::new(self.overlay.payloads()), place, trace);
                Err(Refusal::OutOfMemory)
            }
        }
    }

    // Makes the bytes, with this record, the whole of trace p. Takes memory; refused for want of it
    // alone.
    pub(crate) fn replace(
        &mut self,
        room: &mut Room,
        p: u32,
        bytes: Vec<u8>,
        trace: &Record,
    ) -> Result<(), Refusal>
        requires fits { MayReplace self.old.state p bytes.items }
        requires number { trace.now.number ≤ length bytes.items }
        requires cut { HaveAgreed self.old.reads → IsCutAs self.old.state
            (with_trace self.old.state.volume p bytes.items) }
        requires record { HaveAgreed self.old.reads → facts_of trace.now ≡ record_of
            self.old.state.volume.head self.old.state.fields bytes.items }
        ensures ok { OnOk result (self.new.state ≡ with_volume self.old.state
            (with_trace self.old.state.volume p bytes.items)) }
        ensures err { IfErr result (λ refusal. (refusal ≡ no_memory) ×
            (self.new.state ≡ self.old.state)) }
        ensures reads { Follow self.old.reads self.new.reads }
        ensures reads_tell { IfErr result (IsRefusalOfReads self.old.reads self.new.reads) }
        ensures loaded { self.new.loaded ≡ self.old.loaded }
        ensures looks { self.new.looks ≡ self.old.looks }
        ensures memory { Rises (IsErrOf result Refusal.OutOfMemory) room.old room.new }
    {
        let place = p as usize - 1;
        let bytes = boxed(room, bytes)?;
        let Ok(()) = self
            .reports
            .exchange(room, &Records::new(self.overlay.payloads()), place, trace)
        else {
            return Err(Refusal::OutOfMemory);
        };
        self.overlay.replace(p, bytes, PackedRecord::of(*trace));
        Ok(())
    }

    // Lays the bytes, `size` of them over each trace, over the headers of so many traces from trace
    // a on, in each from place `at` on, counted from 0 in the trace: all of them or none. Tells
    // whether a trace has another inline or crossline then. Each is looked at for its new record
    // where the one that it had does not tell it, and no sample is read. Refused for want of
    // memory, or on disk where a trace that is looked at could not be read.
    pub(crate) fn put_each(
        &mut self,
        room: &mut Room,
        a: u32,
        count: u32,
        at: u64,
        size: u32,
        bytes: &[u8],
    ) -> Result<bool, Refusal>
        requires first { 1 ≤ a }
        requires some { 0 < size }
        requires exact { length bytes.now % size ≡ 0 }
        requires count { length bytes.now / size ≡ count }
        requires last { a - 1 + count ≤ count_of self.old.state.volume }
        requires inside { (k : ℕ) → k < length bytes.now / size → at + size
            ≤ length (slice_index_or self.old.state.volume.traces (a - 1 + k) []) }
        requires parts { HaveAgreed self.old.reads →
            AreHeaderParts self.old.state.volume a at size bytes.now }
        requires cut { HaveAgreed self.old.reads → IsCutAs self.old.state
            (with_each self.old.state.volume a at size bytes.now) }
        ensures ok { OnOk result (self.new.state ≡ with_volume self.old.state
            (with_each self.old.state.volume a at size bytes.now)) }
        ensures err { IfErr result (λ refusal. IsOfMachine self.old.state.on_disk refusal ×
            (self.new.state ≡ self.old.state)) }
        ensures moved { IfOk result (λ moved. HaveAgreed self.new.reads →
            moved ≡ any_moves self.old.state
            (with_volume self.old.state (with_each self.old.state.volume a at size bytes.now))
            a (a - 1 + count)) }
        ensures reads { Follow self.old.reads self.new.reads }
        ensures reads_tell { IfErr result (IsRefusalOfReads self.old.reads self.new.reads) }
        ensures loaded { self.new.loaded ≡ self.old.loaded }
        ensures looks { RisesAtMost self.old.looks self.new.looks count }
        ensures told { IsTrue (tells_record self.old.state.fields at size) →
            (self.new.looks ≡ self.old.looks) × IfErr result (λ refusal. refusal ≡ no_memory) }
        ensures memory { Rises (IsErrOf result Refusal.OutOfMemory) room.old room.new }
    {
        self.overlay.prepare_put_each(room, a, at, size, bytes)?;
        let overlay = &mut self.overlay;
        match prepared_records(room, overlay, &self.fields, a, count, at, size, bytes) {
            Ok(records) => {
                let stays = same_cells(
                    &Records::new(self.overlay.payloads()),
                    a as usize - 1,
                    &records,
                );
                match commit_with_records(room, &mut self.overlay, &mut self.reports, a, &records) {
                    Ok(()) => Ok(!stays),
                    Err(_) => Err(Refusal::OutOfMemory),
                }
            }
            Err(fault) => {
                self.overlay.discard();
                Err(refusal_of_records(fault))
            }
        }
    }
}

// The refusal of an edit for which no records were made.
pub(crate) fn refusal_of_records(fault: RecordsFault) -> Refusal
    ensures { result ≡ refusal_of fault }
{
    match fault {
        RecordsFault::OutOfMemory => Refusal::OutOfMemory,
        RecordsFault::Read(read) => Refusal::from(read),
    }
}

// The bytes in a box, as the table of traces holds them. Takes memory.
fn boxed(room: &mut Room, bytes: Vec<u8>) -> Result<Box<Vec<u8>>, Refusal>
    ensures bytes { IfOk result (λ boxed. boxed.value ≡ bytes) }
    ensures err { IfErr result (λ refusal. refusal ≡ no_memory) }
    ensures memory { Rises (IsErrOf result Refusal.OutOfMemory) room.old room.new }
{
    match room.told_back(Box::new(room.alloc(), bytes)) {
        Ok(boxed) => Ok(boxed),
        Err(_) => Err(Refusal::OutOfMemory),
    }
}
