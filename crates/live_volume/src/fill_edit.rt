// One value in a range of the samples of each of chosen traces.
ghost use Rattle.std.specs.Prelude.{◌≡◌, ◌⊎◌, ◌+◌, ◌-◌, ◌*◌, ◌<◌, ◌≤◌, ℕ, [], length, get_or, slice_index_or, None, Some, IfSome, IfOk, IfErr, OnOk, OnErr, IsErrOf};
ghost use Rattle.room.specs.Refusals.{Rises};
ghost use Rattle.sample_codes.specs.Formats.{samples_bytes, values, width};
ghost use Rattle.frame_cut.specs.Cuts.{IsCut, IsTrace};
ghost use Rattle.frame_cut.specs.Frames.{sample_count};
ghost use Rattle.frame_cut.specs.Splice.{splice};
ghost use Rattle.frame_cut.specs.Traces.{count_of, trace_at};
ghost use Rattle.edit_overlay.specs.CountedVolume.{with_over, RisesAtMost};
ghost use Rattle.edit_overlay.specs.Reads.{Follow, HaveAgreed};
ghost use Rattle.bench_rules.specs.declared.chosen_edit.ChosenEdit.TheVariants as chosen_edits;
ghost use Rattle.bench_rules.specs.declared.refusal.Refusal.TheVariants.{OutOfMemory as no_memory};
ghost use Rattle.bench_rules.specs.ChosenEdits.{bytes_after_each, refusal_of_edit};
ghost use Rattle.bench_rules.specs.Computed.{first_at};
ghost use Rattle.bench_rules.specs.Conditions.{AreRising};
ghost use Rattle.bench_rules.specs.FilledSamples.{filled, range_values, samples_refusal, sample_value_refusal as refusal_of_value};
ghost use Rattle.bench_rules.specs.ReadFaults.{IsRefusalOfNoRead, IsReadRefusal, IsRefusalOfReads};
ghost use Rattle.bench_rules.specs.SwappedFields.{changed_each};
ghost use Rattle.many_traces.specs.SamplePlaces.{AreSamplePlaces, HaveSampleRoom};
ghost use Rattle.live_volume.specs.Chosen.{IsRefusedFor};
ghost use Rattle.live_volume.specs.Held.{with_volume, IsCutAs, IsReadAs, OnlyLooks};
ghost use Rattle.live_volume.specs.Refusals.{IsOfMachine};

use crate::live_volume::LiveVolume;
use crate::volume_edits::refusal_of_records;
use bench_rules::{Refusal, repeated_sample, sample_value_refusal};
use chosen_traces::{exchanges_back, exchanges_to_front};
use many_traces::sample_places;
use room::Room;
use volume_records::{commit_with_records, prepared_whole_records};

impl LiveVolume {
    // The value in each sample from `first` to `last` of each of these traces.
    pub(crate) fn fill_each(
        &mut self,
        room: &mut Room,
        traces: &[u32],
        first: u32,
        last: u32,
        value: i128,
    ) -> Result<(), Refusal>
        requires rising { AreRising 1 (count_of self.old.state.volume) traces.now }
        requires some { 0 < length traces.now }
        ensures none { OnOk result (HaveAgreed self.new.reads → refusal_of_edit
            self.old.state.volume self.old.state.fields
            (chosen_edits.Fill first last value) traces.now ≡ None) }
        ensures cut { OnOk result (HaveAgreed self.new.reads → IsCut (bytes_after_each
            self.old.state.volume self.old.state.fields
            (chosen_edits.Fill first last value) traces.now)
            self.old.state.reading self.old.state.limits self.new.state.volume) }
        ensures fields { OnOk result (HaveAgreed self.new.reads →
            self.new.state.fields ≡ self.old.state.fields) }
        ensures err { IfErr result (λ refusal. HaveAgreed self.new.reads → IsRefusedFor
            self.old.state (chosen_edits.Fill first last value) traces.now refusal) }
        ensures unchanged { OnErr result (self.new.state ≡ self.old.state) }
        ensures same { IsReadAs self.old.state self.new.state }
        ensures reads { Follow self.old.reads self.new.reads }
        ensures reads_tell { IfErr result (IsRefusalOfReads self.old.reads self.new.reads) }
        ensures loaded { self.new.loaded ≡ self.old.loaded }
        ensures looks { RisesAtMost self.old.looks self.new.looks (2 * length traces.now) }
        ensures memory { Rises (IsErrOf result Refusal.OutOfMemory) room.old room.new }
    {
        self.stands();
        if let Some(refusal) = self.sample_value_refusal(value) {
            return Err(refusal);
        }
        let places = match self.sample_places(room, traces, first, last) {
            Ok(places) => places,
            Err(refusal) => return Err(refusal),
        };
        if first > last {
            return Ok(());
        }
        self.put_filled(room, traces, first, last, value, places.as_slice())
    }

    // The refusal of a value for samples, whatever trace they are of: E12, E04.
    pub(crate) fn sample_value_refusal(&self, value: i128) -> Option<Refusal>
        ensures refusal { result ≡ refusal_of_value
            (values self.now.state.volume.head.format) value }
        ensures rule { IfSome result IsRefusalOfNoRead }
    {
        sample_value_refusal(self.overlay.head().format, value)
    }

    // Where sample `first` begins in each of these traces, or the first refusal: E05.
    fn sample_places(
        &mut self,
        room: &mut Room,
        traces: &[u32],
        first: u32,
        last: u32,
    ) -> Result<Vec<u64>, Refusal>
        requires rising { AreRising 1 (count_of self.old.state.volume) traces.now }
        ensures none { OnOk result (HaveAgreed self.new.reads → first_at
            (λ p. samples_refusal self.old.state.volume.head first last
            (trace_at self.old.state.volume p)) traces.now ≡ None) }
        ensures places { IfOk result (λ places. HaveAgreed self.new.reads →
            AreSamplePlaces self.old.state.volume first traces.now places.items) }
        ensures count { IfOk result (λ places. length places.items ≡ length traces.now) }
        ensures room { IfOk result (λ places.
            HaveSampleRoom self.old.state.volume (last + 1 - first) traces.now places.items) }
        ensures err { IfErr result (λ refusal. (refusal ≡ no_memory) ⊎
            IsReadRefusal self.old.state.on_disk refusal ⊎ (HaveAgreed self.new.reads → first_at
            (λ p. samples_refusal self.old.state.volume.head first last
            (trace_at self.old.state.volume p)) traces.now ≡ Some refusal)) }
        ensures seen { OnlyLooks self.old self.new (length traces.now) }
        ensures reads_tell { IfErr result (IsRefusalOfReads self.old.reads self.new.reads) }
        ensures memory { Rises (IsErrOf result Refusal.OutOfMemory) room.old room.new }
    {
        sample_places(room, &mut self.overlay, traces, first, last)
    }

    // Lays the value over these samples of the traces, which are brought to the front of the file
    // for it, and afterwards all back to where they stood: of all of them or of none. Refused for
    // want of memory, or on disk where a trace could not be read.
    fn put_filled(
        &mut self,
        room: &mut Room,
        traces: &[u32],
        first: u32,
        last: u32,
        value: i128,
        places: &[u64],
    ) -> Result<(), Refusal>
        requires rising { AreRising 1 (count_of self.old.state.volume) traces.now }
        requires some { 0 < length traces.now }
        requires samples { first ≤ last }
        requires fits { refusal_of_value (values self.old.state.volume.head.format) value ≡ None }
        requires none { HaveAgreed self.old.reads → first_at
            (λ p. samples_refusal self.old.state.volume.head first last
            (trace_at self.old.state.volume p)) traces.now ≡ None }
        requires places { HaveAgreed self.old.reads →
            AreSamplePlaces self.old.state.volume first traces.now places.now }
        requires count { length places.now ≡ length traces.now }
        requires room { HaveSampleRoom self.old.state.volume (last + 1 - first) traces.now
            places.now }
        ensures ok { OnOk result (HaveAgreed self.new.reads → self.new.state ≡ with_volume
            self.old.state (changed_each (filled self.old.state.volume.head first last value)
            self.old.state.volume traces.now)) }
        ensures err { IfErr result (λ refusal. IsOfMachine self.old.state.on_disk refusal ×
            (self.new.state ≡ self.old.state)) }
        ensures same { IsReadAs self.old.state self.new.state }
        ensures reads { Follow self.old.reads self.new.reads }
        ensures reads_tell { IfErr result (IsRefusalOfReads self.old.reads self.new.reads) }
        ensures loaded { self.new.loaded ≡ self.old.loaded }
        ensures looks { RisesAtMost self.old.looks self.new.looks (length traces.now) }
        ensures memory { Rises (IsErrOf result Refusal.OutOfMemory) room.old room.new }
    {
        self.stands();

        // Read for the proof alone, which learns that the traces are counted in 32 bits.
        let _count = self.count();
        let bytes = self.range_bytes(room, traces[0], first, last, value)?;
        let forth = exchanges_to_front(room, traces)?;
        let back = exchanges_back(room, traces)?;
        self.exchange_pairs(forth);
        let done = self.put_over(room, 1, places, bytes.as_slice());
        self.exchange_pairs(back);
        match done {
            Ok(()) => Ok(()),
            Err(refusal) => Err(refusal),
        }
    }

    // The bytes of the value once for each sample from `first` to `last`, where trace p has these.
    fn range_bytes(
        &self,
        room: &mut Room,
        p: u32,
        first: u32,
        last: u32,
        value: i128,
    ) -> Result<Vec<u8>, Refusal>
        requires trace_first { 1 ≤ p }
        requires trace_last { p ≤ count_of self.now.state.volume }
        requires samples { first ≤ last }
        requires fits { refusal_of_value (values self.now.state.volume.head.format) value ≡ None }
        ensures bytes { IfOk result (λ bytes. HaveAgreed self.now.reads → samples_refusal
            self.now.state.volume.head first last (trace_at self.now.state.volume p) ≡ None →
            IfSome (values self.now.state.volume.head.format) (λ f. bytes.items ≡ samples_bytes
            self.now.state.volume.head.order f (range_values first last value))) }
        ensures some { IfOk result (λ bytes. 0 < length bytes.items) }
        ensures long { IfOk result (λ bytes. length bytes.items ≤
            width self.now.state.volume.head.format * (last + 1 - first)) }
        ensures err { IfErr result (λ refusal. refusal ≡ no_memory) }
        ensures memory { Rises (IsErrOf result Refusal.OutOfMemory) room.old room.new }
    {
        let head = self.overlay.head();
        let Some(format) = head.format.values() else {
            unreachable!()
        };

        // Read for the proof alone, which learns that samples are counted in 32 bits.
        let _samples = self.sample_count(p);
        let count = (last - first).saturating_add(1);
        repeated_sample(room, head.order, format, value, count)
    }

    // The number of samples of trace p.
    fn sample_count(&self, p: u32) -> u32
        requires first { 1 ≤ p }
        requires last { p ≤ count_of self.now.state.volume }
        ensures { HaveAgreed self.now.reads → result ≡ sample_count self.now.state.volume.head
            (trace_at self.now.state.volume p) }
    {
        self.held(p).number
    }

    // Lays the bytes over each of the traces from trace a on, one for each of the places: in each
    // from its place on, counted from 0 in the trace; over all of them or none. Each is looked at
    // for its new record. Refused for want of memory, or on disk where a trace could not be read.
    fn put_over(
        &mut self,
        room: &mut Room,
        a: u32,
        places: &[u64],
        bytes: &[u8],
    ) -> Result<(), Refusal>
        requires first { 1 ≤ a }
        requires some { 0 < length bytes.now }
        requires last { a - 1 + length places.now ≤ count_of self.old.state.volume }
        requires inside { (k : ℕ) → k < length places.now → get_or places.now k 0 +
            length bytes.now ≤ length (slice_index_or self.old.state.volume.traces (a - 1 + k) []) }
        requires whole { (k : ℕ) → k < length places.now → HaveAgreed self.old.reads → IsTrace
            self.old.state.volume.head (splice
            (slice_index_or self.old.state.volume.traces (a - 1 + k) []) (get_or places.now k 0)
            (length bytes.now) bytes.now) }
        requires cut { HaveAgreed self.old.reads → IsCutAs self.old.state
            (with_over self.old.state.volume a places.now bytes.now) }
        ensures ok { OnOk result (self.new.state ≡ with_volume self.old.state
            (with_over self.old.state.volume a places.now bytes.now)) }
        ensures err { IfErr result (λ refusal. IsOfMachine self.old.state.on_disk refusal ×
            (self.new.state ≡ self.old.state)) }
        ensures reads { Follow self.old.reads self.new.reads }
        ensures reads_tell { IfErr result (IsRefusalOfReads self.old.reads self.new.reads) }
        ensures loaded { self.new.loaded ≡ self.old.loaded }
        ensures looks { RisesAtMost self.old.looks self.new.looks (length places.now) }
        ensures memory { Rises (IsErrOf result Refusal.OutOfMemory) room.old room.new }
    {
        // Read for the proof alone, which learns that the traces are counted in 32 bits.
        let _count = self.count();
        self.overlay.prepare_put_over(room, a, places, bytes)?;
        let count = places.len() as u32;
        match prepared_whole_records(room, &mut self.overlay, &self.fields, a, count) {
            Ok(records) => {
                match commit_with_records(room, &mut self.overlay, &mut self.reports, a, &records) {
                    Ok(()) => Ok(()),
                    Err(_) => Err(Refusal::OutOfMemory),
                }
            }
            Err(fault) => {
                self.overlay.discard();
                Err(refusal_of_records(fault))
            }
        }
    }
}
