// Edits of samples and of whole traces.
ghost use Rattle.std.specs.Prelude.{◌≡◌, length, None, IsTrue, IfOk, OnOk, IfErr, OnErr, IsErrOf, ◌≢◌, IfSome};
ghost use Rattle.room.specs.Refusals.{Rises};
ghost use Rattle.frame_cut.specs.Cuts.{IsTrace};
ghost use Rattle.frame_cut.specs.Traces.{is_trace, trace_at};
ghost use Rattle.bench_rules.specs.declared.edit.Edit.TheVariants as edits;
ghost use Rattle.bench_rules.specs.declared.refusal.Refusal.TheVariants.{OutOfMemory as no_memory};
ghost use Rattle.edit_overlay.specs.CountedVolume.{RisesAtMost};
ghost use Rattle.edit_overlay.specs.Reads.{Follow, HaveAgreed};
ghost use Rattle.bench_rules.specs.Looks.{trace_looks};
ghost use Rattle.bench_rules.specs.Refused.{first_refusal, no_trace};
ghost use Rattle.bench_rules.specs.Steps.{IsAfter, Step};
ghost use Rattle.live_volume.specs.Held.{sample_start, with_volume, IsReadAs, OnlyLooks};
ghost use Rattle.frame_cut.specs.Parts.{without};
ghost use Rattle.live_volume.specs.Refusals.{IsOfMachine};
ghost use Rattle.volume_answers.specs.Rooms.{HasSampleRoom};
ghost use Rattle.bench_rules.specs.ReadFaults.{IsRefusalOfNoRead, IsRefusalOfReads};

use crate::live_volume::LiveVolume;
use bench_rules::{Refusal, blank_length, joined, samples_bytes, zeros};
use record_table::Records;
use room::Room;
use volume_answers::{blank_refusal, copy_refusal, move_refusal, patch_place};
use volume_records::record_of_bytes;

impl LiveVolume {
    // The first refusal of a trace's number: E01.
    pub(crate) fn no_trace(&self, p: u32) -> Option<Refusal>
        ensures refusal { result ≡ no_trace self.now.state.volume p }
        ensures rule { IfSome result IsRefusalOfNoRead }
    {
        if self.has_trace(p) {
            None
        } else {
            Some(Refusal::NoTrace(p, self.count()))
        }
    }

    // The values over samples k, k + 1 and so on of trace p, or the first refusal: E01, E12, E04,
    // E05.
    pub(crate) fn patch(
        &mut self,
        room: &mut Room,
        p: u32,
        k: u32,
        values: &[i128],
    ) -> Result<(), Refusal>
        ensures step { HaveAgreed self.new.reads →
            Step self.old.state (edits.Patch p k values.now) result self.new.state }
        ensures err { OnErr result (self.new.state ≡ self.old.state) }
        ensures same { IsReadAs self.old.state self.new.state }
        ensures reads { Follow self.old.reads self.new.reads }
        ensures reads_tell { IfErr result (IsRefusalOfReads self.old.reads self.new.reads) }
        ensures loaded { self.new.loaded ≡ self.old.loaded }
        ensures looks { RisesAtMost self.old.looks self.new.looks
            (trace_looks self.old.state.volume p 2) }
        ensures memory { Rises (IsErrOf result Refusal.OutOfMemory) room.old room.new }
    {
        let at = patch_place(&mut self.overlay, p, k, values)?;
        self.put_values(room, p, k, at, values)
    }

    // The values over samples of trace p, where nothing but memory or a read refuses them.
    fn put_values(
        &mut self,
        room: &mut Room,
        p: u32,
        k: u32,
        at: u64,
        values: &[i128],
    ) -> Result<(), Refusal>
        requires room { HasSampleRoom self.old.state.volume p at values.now }
        requires none { HaveAgreed self.old.reads →
            first_refusal self.old.state (edits.Patch p k values.now) ≡ None }
        requires place { HaveAgreed self.old.reads → at ≡ sample_start self.old.state.volume p k }
        ensures ok { OnOk result (HaveAgreed self.new.reads →
            IsAfter self.old.state (edits.Patch p k values.now) self.new.state) }
        ensures err { IfErr result (λ refusal. IsOfMachine self.old.state.on_disk refusal ×
            (self.new.state ≡ self.old.state)) }
        ensures same { IsReadAs self.old.state self.new.state }
        ensures reads { Follow self.old.reads self.new.reads }
        ensures reads_tell { IfErr result (IsRefusalOfReads self.old.reads self.new.reads) }
        ensures loaded { self.new.loaded ≡ self.old.loaded }
        ensures looks { RisesAtMost self.old.looks self.new.looks 1 }
        ensures memory { Rises (IsErrOf result Refusal.OutOfMemory) room.old room.new }
    {
        let head = self.overlay.head();
        let Some(format) = head.format.values() else {
            unreachable!()
        };
        let bytes = samples_bytes(room, head.order, format, values)?;
        self.put(room, p, at, bytes.as_slice(), None)
    }

    // A blank trace in front of trace p, or behind the last, or the first refusal: E01, E09, E10.
    pub(crate) fn blank(&mut self, room: &mut Room, p: u32) -> Result<(), Refusal>
        ensures step { HaveAgreed self.new.reads →
            Step self.old.state (edits.Blank p) result self.new.state }
        ensures err { OnErr result (self.new.state ≡ self.old.state) }
        ensures same { IsReadAs self.old.state self.new.state }
        ensures reads { Follow self.old.reads self.new.reads }
        ensures reads_tell { IfErr result (IsRefusalOfReads self.old.reads self.new.reads) }
        ensures loaded { self.new.loaded ≡ self.old.loaded }
        ensures looks { self.new.looks ≡ self.old.looks }
        ensures memory { Rises (IsErrOf result Refusal.OutOfMemory) room.old room.new }
    {
        match blank_refusal(&self.overlay, self.limits, p) {
            Some(refusal) => Err(refusal),
            None => self.insert_blank(room, p),
        }
    }

    // A blank trace in front of trace p, or behind the last, where nothing but memory refuses it.
    fn insert_blank(&mut self, room: &mut Room, p: u32) -> Result<(), Refusal>
        requires { first_refusal self.old.state (edits.Blank p) ≡ None }
        ensures ok { OnOk result (HaveAgreed self.new.reads →
            IsAfter self.old.state (edits.Blank p) self.new.state) }
        ensures err { IfErr result (λ refusal. (refusal ≡ no_memory) ×
            (self.new.state ≡ self.old.state)) }
        ensures same { IsReadAs self.old.state self.new.state }
        ensures reads { Follow self.old.reads self.new.reads }
        ensures reads_tell { IfErr result (IsRefusalOfReads self.old.reads self.new.reads) }
        ensures loaded { self.new.loaded ≡ self.old.loaded }
        ensures looks { self.new.looks ≡ self.old.looks }
        ensures memory { Rises (IsErrOf result Refusal.OutOfMemory) room.old room.new }
    {
        let head = self.overlay.head();
        let bytes = zeros(room, blank_length(&head) as usize)?;
        let trace = record_of_bytes(&head, bytes.as_slice(), &self.fields);
        self.insert(room, p, bytes, &trace)
    }

    // A copy of trace q in front of trace p, or behind the last, or the first refusal: E01, E09,
    // E10.
    pub(crate) fn copy(&mut self, room: &mut Room, q: u32, p: u32) -> Result<(), Refusal>
        ensures step { HaveAgreed self.new.reads →
            Step self.old.state (edits.Copy q p) result self.new.state }
        ensures err { OnErr result (self.new.state ≡ self.old.state) }
        ensures same { IsReadAs self.old.state self.new.state }
        ensures reads { Follow self.old.reads self.new.reads }
        ensures reads_tell { IfErr result (IsRefusalOfReads self.old.reads self.new.reads) }
        ensures loaded { self.new.loaded ≡ self.old.loaded }
        ensures looks { RisesAtMost self.old.looks self.new.looks
            (trace_looks self.old.state.volume q 2) }
        ensures memory { Rises (IsErrOf result Refusal.OutOfMemory) room.old room.new }
    {
        match copy_refusal(&mut self.overlay, self.limits, q, p)? {
            Some(refusal) => Err(refusal),
            None => self.insert_copy(room, q, p),
        }
    }

    // The bytes of trace q, in one vector.
    fn trace_bytes(&mut self, room: &mut Room, q: u32) -> Result<Vec<u8>, Refusal>
        requires { IsTrue (is_trace self.old.state.volume q) }
        ensures ok { IfOk result (λ bytes. HaveAgreed self.new.reads →
            bytes.items ≡ trace_at self.old.state.volume q) }
        ensures whole { IfOk result (λ bytes. IsTrace self.old.state.volume.head bytes.items) }
        ensures long { IfOk result (λ bytes.
            length bytes.items ≡ length (trace_at self.old.state.volume q)) }
        ensures err { IfErr result (λ refusal. IsOfMachine self.old.state.on_disk refusal) }
        ensures seen { OnlyLooks self.old self.new 1 }
        ensures reads_tell { IfErr result (IsRefusalOfReads self.old.reads self.new.reads) }
        ensures memory { Rises (IsErrOf result Refusal.OutOfMemory) room.old room.new }
    {
        let Some(trace) = self.overlay.look(q)? else {
            unreachable!()
        };
        joined(room, &trace)
    }

    // A copy of trace q in front of trace p, or behind the last, where nothing but memory or a read
    // refuses it.
    fn insert_copy(&mut self, room: &mut Room, q: u32, p: u32) -> Result<(), Refusal>
        requires { first_refusal self.old.state (edits.Copy q p) ≡ None }
        ensures ok { OnOk result (HaveAgreed self.new.reads →
            IsAfter self.old.state (edits.Copy q p) self.new.state) }
        ensures err { IfErr result (λ refusal. IsOfMachine self.old.state.on_disk refusal ×
            (self.new.state ≡ self.old.state)) }
        ensures same { IsReadAs self.old.state self.new.state }
        ensures reads { Follow self.old.reads self.new.reads }
        ensures reads_tell { IfErr result (IsRefusalOfReads self.old.reads self.new.reads) }
        ensures loaded { self.new.loaded ≡ self.old.loaded }
        ensures looks { RisesAtMost self.old.looks self.new.looks 1 }
        ensures memory { Rises (IsErrOf result Refusal.OutOfMemory) room.old room.new }
    {
        let trace = self.overlay.payload(q).record();
        let bytes = self.trace_bytes(room, q)?;
        self.insert(room, p, bytes, &trace)
    }

    // Trace p out, or the refusal: E01.
    pub(crate) fn delete(&mut self, p: u32) -> Result<(), Refusal>
        ensures step { HaveAgreed self.new.reads →
            Step self.old.state (edits.Delete p) result self.new.state }
        ensures err { OnErr result (self.new.state ≡ self.old.state) }
        ensures same { IsReadAs self.old.state self.new.state }
        ensures reads { Follow self.old.reads self.new.reads }
        ensures reads_tell { IfErr result (IsRefusalOfReads self.old.reads self.new.reads) }
        ensures loaded { self.new.loaded ≡ self.old.loaded }
        ensures looks { self.new.looks ≡ self.old.looks }
        ensures other { IfErr result (λ refusal. refusal ≢ Refusal.OutOfMemory) }
    {
        match self.no_trace(p) {
            Some(refusal) => Err(refusal),
            None => {
                self.take_out(p);
                Ok(())
            }
        }
    }

    // Trace p out, where it is there.
    pub(crate) fn take_out(&mut self, p: u32)
        requires { first_refusal self.old.state (edits.Delete p) ≡ None }
        ensures state { self.new.state ≡ with_volume self.old.state
            (without self.old.state.volume p) }
        ensures after { HaveAgreed self.new.reads →
            IsAfter self.old.state (edits.Delete p) self.new.state }
        ensures same { IsReadAs self.old.state self.new.state }
        ensures reads { Follow self.old.reads self.new.reads }
        ensures loaded { self.new.loaded ≡ self.old.loaded }
        ensures looks { self.new.looks ≡ self.old.looks }
    {
        self.reports
            .remove(&Records::new(self.overlay.payloads()), p as usize - 1);
        self.overlay.delete(p);
    }

    // Trace a as trace b, or the first refusal: E01.
    pub(crate) fn move_trace(&mut self, room: &mut Room, a: u32, b: u32) -> Result<(), Refusal>
        ensures step { HaveAgreed self.new.reads →
            Step self.old.state (edits.Move a b) result self.new.state }
        ensures err { OnErr result (self.new.state ≡ self.old.state) }
        ensures same { IsReadAs self.old.state self.new.state }
        ensures reads { Follow self.old.reads self.new.reads }
        ensures reads_tell { IfErr result (IsRefusalOfReads self.old.reads self.new.reads) }
        ensures loaded { self.new.loaded ≡ self.old.loaded }
        ensures looks { self.new.looks ≡ self.old.looks }
        ensures memory { Rises (IsErrOf result Refusal.OutOfMemory) room.old room.new }
    {
        match move_refusal(&self.overlay, a, b) {
            Some(refusal) => Err(refusal),
            None => self.put_elsewhere(room, a, b),
        }
    }

    // Trace a as trace b, where nothing but memory refuses it.
    fn put_elsewhere(&mut self, room: &mut Room, a: u32, b: u32) -> Result<(), Refusal>
        requires { first_refusal self.old.state (edits.Move a b) ≡ None }
        ensures ok { OnOk result (HaveAgreed self.new.reads →
            IsAfter self.old.state (edits.Move a b) self.new.state) }
        ensures err { IfErr result (λ refusal. (refusal ≡ no_memory) ×
            (self.new.state ≡ self.old.state)) }
        ensures same { IsReadAs self.old.state self.new.state }
        ensures reads { Follow self.old.reads self.new.reads }
        ensures reads_tell { IfErr result (IsRefusalOfReads self.old.reads self.new.reads) }
        ensures loaded { self.new.loaded ≡ self.old.loaded }
        ensures looks { self.new.looks ≡ self.old.looks }
        ensures memory { Rises (IsErrOf result Refusal.OutOfMemory) room.old room.new }
    {
        self.overlay.move_to(room, a, b)?;
        Ok(())
    }
}
