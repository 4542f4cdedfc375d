// Two fields of chosen traces in the place of one another.
ghost use Rattle.std.specs.Prelude.{◌≡◌, ◌⊎◌, ◌*◌, ◌<◌, length, true, None, Some, is_some, IfOk, IfErr, OnOk, OnErr, IsErrOf};
ghost use Rattle.room.specs.Refusals.{Rises};
ghost use Rattle.frame_cut.specs.Cuts.{IsCut};
ghost use Rattle.frame_cut.specs.Traces.{count_of, trace_at};
ghost use Rattle.edit_overlay.specs.CountedVolume.{RisesAtMost};
ghost use Rattle.edit_overlay.specs.Reads.{Follow, HaveAgreed};
ghost use Rattle.bench_rules.specs.declared.chosen_edit.ChosenEdit.TheVariants as chosen_edits;
ghost use Rattle.bench_rules.specs.declared.refusal.Refusal.TheVariants.{OutOfMemory as no_memory};
ghost use Rattle.bench_rules.specs.ChosenEdits.{bytes_after_each, refusal_of_edit};
ghost use Rattle.bench_rules.specs.Computed.{first_at};
ghost use Rattle.bench_rules.specs.Conditions.{AreRising};
ghost use Rattle.bench_rules.specs.ReadFaults.{IsReadRefusal, IsRefusalOfReads};
ghost use Rattle.bench_rules.specs.SwappedFields.{changed_each, swap_refusal, swapped as swapped_in, two_places};
ghost use Rattle.many_traces.specs.Spans.{span_size, AreSwapped, HaveSpan};
ghost use Rattle.live_volume.specs.Chosen.{IsRefusedFor};
ghost use Rattle.live_volume.specs.Held.{with_volume, IsReadAs, OnlyLooks};
ghost use Rattle.live_volume.specs.Refusals.{IsOfMachine};

use crate::live_volume::LiveVolume;
use bench_rules::{Field, Refusal};
use chosen_traces::{exchanges_back, exchanges_to_front};
use field_map::Place;
use many_traces::{span, swapped_bytes};
use room::Room;

impl LiveVolume {
    // The numbers of the two fields of each of these traces in the place of one another.
    pub(crate) fn swap_each(
        &mut self,
        room: &mut Room,
        traces: &[u32],
        first: &Field,
        second: &Field,
    ) -> Result<(), Refusal>
        requires rising { AreRising 1 (count_of self.old.state.volume) traces.now }
        requires some { 0 < length traces.now }
        requires fields { is_some (two_places self.old.state.fields first.now second.now) ≡ true }
        ensures none { OnOk result (HaveAgreed self.new.reads → refusal_of_edit
            self.old.state.volume self.old.state.fields
            (chosen_edits.Swap first.now second.now) traces.now ≡ None) }
        ensures cut { OnOk result (HaveAgreed self.new.reads → IsCut (bytes_after_each
            self.old.state.volume self.old.state.fields
            (chosen_edits.Swap first.now second.now) traces.now)
            self.old.state.reading self.old.state.limits self.new.state.volume) }
        ensures fields { OnOk result (HaveAgreed self.new.reads →
            self.new.state.fields ≡ self.old.state.fields) }
        ensures err { IfErr result (λ refusal. HaveAgreed self.new.reads → IsRefusedFor
            self.old.state (chosen_edits.Swap first.now second.now) traces.now refusal) }
        ensures unchanged { OnErr result (self.new.state ≡ self.old.state) }
        ensures same { IsReadAs self.old.state self.new.state }
        ensures reads { Follow self.old.reads self.new.reads }
        ensures reads_tell { IfErr result (IsRefusalOfReads self.old.reads self.new.reads) }
        ensures loaded { self.new.loaded ≡ self.old.loaded }
        ensures looks { RisesAtMost self.old.looks self.new.looks (2 * length traces.now) }
        ensures memory { Rises (IsErrOf result Refusal.OutOfMemory) room.old room.new }
    {
        self.stands();
        let Some(first) = self.place_in_trace(first) else {
            unreachable!()
        };
        let Some(second) = self.place_in_trace(second) else {
            unreachable!()
        };
        let bytes = match self.swapped(room, traces, first, second) {
            Ok(bytes) => bytes,
            Err(refusal) => return Err(refusal),
        };
        self.put_swapped(room, traces, first, second, bytes.as_slice())
    }

    // The bytes of these traces where the two places lie together, with the numbers of the two in
    // the place of one another; or the first refusal: E03, E04, E06.
    fn swapped(
        &mut self,
        room: &mut Room,
        traces: &[u32],
        first: Place,
        second: Place,
    ) -> Result<Vec<u8>, Refusal>
        requires rising { AreRising 1 (count_of self.old.state.volume) traces.now }
        ensures none { OnOk result (HaveAgreed self.new.reads → first_at
            (λ p. swap_refusal self.old.state.volume.head (first, second)
            (trace_at self.old.state.volume p)) traces.now ≡ None) }
        ensures parts { IfOk result (λ bytes. HaveAgreed self.new.reads →
            AreSwapped self.old.state.volume (first, second) traces.now bytes.items) }
        ensures count { IfOk result (λ bytes.
            length bytes.items ≡ length traces.now * span_size (first, second)) }
        ensures inside { OnOk result
            (HaveSpan self.old.state.volume (first, second) traces.now) }
        ensures err { IfErr result (λ refusal. (refusal ≡ no_memory) ⊎
            IsReadRefusal self.old.state.on_disk refusal ⊎ (HaveAgreed self.new.reads → first_at
            (λ p. swap_refusal self.old.state.volume.head (first, second)
            (trace_at self.old.state.volume p)) traces.now ≡ Some refusal)) }
        ensures seen { OnlyLooks self.old self.new (length traces.now) }
        ensures reads_tell { IfErr result (IsRefusalOfReads self.old.reads self.new.reads) }
        ensures memory { Rises (IsErrOf result Refusal.OutOfMemory) room.old room.new }
    {
        swapped_bytes(room, &mut self.overlay, traces, first, second)
    }

    // Lays these bytes over the traces, which are brought to the front of the file for it, and
    // afterwards all back to where they stood: over all of them or none. Refused for want of
    // memory, or on disk where a trace could not be read.
    fn put_swapped(
        &mut self,
        room: &mut Room,
        traces: &[u32],
        first: Place,
        second: Place,
        bytes: &[u8],
    ) -> Result<(), Refusal>
        requires rising { AreRising 1 (count_of self.old.state.volume) traces.now }
        requires some { 0 < length traces.now }
        requires none { HaveAgreed self.old.reads → first_at
            (λ p. swap_refusal self.old.state.volume.head (first, second)
            (trace_at self.old.state.volume p)) traces.now ≡ None }
        requires parts { HaveAgreed self.old.reads →
            AreSwapped self.old.state.volume (first, second) traces.now bytes.now }
        requires count { length bytes.now ≡ length traces.now * span_size (first, second) }
        requires inside { HaveSpan self.old.state.volume (first, second) traces.now }
        ensures ok { OnOk result (HaveAgreed self.new.reads → self.new.state ≡ with_volume
            self.old.state (changed_each (swapped_in self.old.state.volume.head (first, second))
            self.old.state.volume traces.now)) }
        ensures err { IfErr result (λ refusal. IsOfMachine self.old.state.on_disk refusal ×
            (self.new.state ≡ self.old.state)) }
        ensures same { IsReadAs self.old.state self.new.state }
        ensures reads { Follow self.old.reads self.new.reads }
        ensures reads_tell { IfErr result (IsRefusalOfReads self.old.reads self.new.reads) }
        ensures loaded { self.new.loaded ≡ self.old.loaded }
        ensures looks { RisesAtMost self.old.looks self.new.looks (length traces.now) }
        ensures memory { Rises (IsErrOf result Refusal.OutOfMemory) room.old room.new }
    {
        self.stands();

        // Read for the proof alone, which learns that the traces are counted in 32 bits.
        let _count = self.count();
        let forth = exchanges_to_front(room, traces)?;
        let back = exchanges_back(room, traces)?;
        let (at, size) = span(first, second);
        self.exchange_pairs(forth);
        let done = self.put_each(room, 1, traces.len() as u32, u64::from(at), size, bytes);
        self.exchange_pairs(back);
        match done {
            Ok(_) => Ok(()),
            Err(refusal) => Err(refusal),
        }
    }
}
