// A field of many traces computed from numbers and other fields of each.
ghost use Rattle.std.specs.Prelude.{◌≡◌, ◌⊎◌, ◌+◌, ◌-◌, ◌*◌, ◌≤◌, ◌<◌, length, None, IfOk, IfErr, OnOk, OnErr, IsErrOf};
ghost use Rattle.room.specs.Refusals.{Rises};
ghost use Rattle.frame_cut.specs.Traces.{count_of};
ghost use Rattle.edit_overlay.specs.CountedVolume.{RisesAtMost};
ghost use Rattle.edit_overlay.specs.Reads.{Follow, HaveAgreed};
ghost use Rattle.bench_rules.specs.declared.edit.Edit.TheVariants as edits;
ghost use Rattle.bench_rules.specs.Computed.{compute_refusal_in};
ghost use Rattle.bench_rules.specs.Looks.{edit_looks, looks_at};
ghost use Rattle.bench_rules.specs.Steps.{Step};
ghost use Rattle.many_traces.specs.Formulas.{formula_at, number_bytes, IsRefusalFor};
ghost use Rattle.bench_rules.specs.ReadFaults.{IsReadRefusal, IsRefusalOfReads};
ghost use Rattle.live_volume.specs.Held.{any_moves, IsReadAs, OnlyLooks};
ghost use Rattle.live_volume.specs.Places.{EachHolds};

use crate::live_volume::LiveVolume;
use bench_rules::{Field, Operand, Operator, Refusal};
use field_map::Place;
use many_traces::computed_bytes;
use room::Room;

impl LiveVolume {
    /// The field of each of traces a to b computed from the source by the steps, on numbers of that
    /// trace as it was: done whole, and then whether a trace has another inline or crossline than
    /// before; or refused, and all is as it was. Looks twice at each of the traces at most, and at
    /// none where a or b is refused or a field has no place. Takes memory in step with the number
    /// of traces and of steps. Refused, in this order: E01 for a, E01 for b, E02, then the first
    /// refusal of the lowest trace that has one, E03, E13, E04 or E06; else E11 alone. On disk also
    /// where a trace could not be read (E14, E15).
    pub fn compute(
        &mut self,
        room: &mut Room,
        a: u32,
        b: u32,
        field: &Field,
        source: &Operand,
        steps: &[(Operator, Operand)],
    ) -> Result<bool, Refusal>
        ensures step { HaveAgreed self.new.reads → Step self.old.state
            (edits.Compute a b field.now source.now steps.now) result self.new.state }
        ensures err { OnErr result (self.new.state ≡ self.old.state) }
        ensures same { IsReadAs self.old.state self.new.state }
        ensures reads { Follow self.old.reads self.new.reads }
        ensures reads_tell { IfErr result (IsRefusalOfReads self.old.reads self.new.reads) }
        ensures loaded { self.new.loaded ≡ self.old.loaded }
        ensures looks { RisesAtMost self.old.looks self.new.looks
            (edit_looks self.old.state (edits.Compute a b field.now source.now steps.now)) }
        ensures count { count_of self.new.state.volume ≡ count_of self.old.state.volume }
        ensures moved { IfOk result (λ moved. HaveAgreed self.new.reads →
            moved ≡ any_moves self.old.state self.new.state a b) }
        ensures memory { Rises (IsErrOf result Refusal.OutOfMemory) room.old room.new }
    {
        if let Some(refusal) = self.range_refusal(a, b) {
            return Err(refusal);
        }
        let Some(place) = self.place_in_trace(field) else {
            return Err(Refusal::NoField);
        };
        self.stands();
        let bytes = match self.computed(room, a, b, place, source, steps) {
            Ok(bytes) => bytes,
            Err(refusal) => return Err(refusal),
        };
        let at = u64::from(place.offset());
        self.put_each(
            room,
            a,
            b - a + 1,
            at,
            u32::from(place.kind.size),
            bytes.as_slice(),
        )
    }

    // The bytes of the numbers that are computed for traces a to b over the place, or the first
    // refusal: E02, E03, E13, E04, E06.
    fn computed(
        &mut self,
        room: &mut Room,
        a: u32,
        b: u32,
        place: Place,
        source: &Operand,
        steps: &[(Operator, Operand)],
    ) -> Result<Vec<u8>, Refusal>
        requires first { 1 ≤ a }
        requires range { a ≤ b }
        requires last { b ≤ count_of self.old.state.volume }
        ensures none { IfOk result (λ _. HaveAgreed self.new.reads →
            compute_refusal_in self.old.state.volume
            (formula_at self.old.state.fields place source.now steps.now) a b ≡ None) }
        ensures bytes { IfOk result (λ bytes. HaveAgreed self.new.reads →
            bytes.items ≡ number_bytes self.old.state.volume
            (formula_at self.old.state.fields place source.now steps.now) a b) }
        ensures each { IfOk result (λ _. EachHolds self.old.state.volume a (b + 1 - a) place) }
        ensures count { IfOk result (λ bytes.
            length bytes.items ≡ place.kind.size * (b + 1 - a)) }
        ensures looked { OnOk result (0 < looks_at
            (formula_at self.old.state.fields place source.now steps.now) (b + 1 - a)) }
        ensures err { IfErr result (λ refusal. (IsReadRefusal self.old.state.on_disk refusal
            × (0 < looks_at (formula_at self.old.state.fields place source.now steps.now)
            (b + 1 - a))) ⊎ (HaveAgreed self.new.reads → IsRefusalFor refusal (compute_refusal_in
            self.old.state.volume (formula_at self.old.state.fields place source.now steps.now)
            a b))) }
        ensures seen { OnlyLooks self.old self.new
            (looks_at (formula_at self.old.state.fields place source.now steps.now) (b + 1 - a)) }
        ensures reads_tell { IfErr result (IsRefusalOfReads self.old.reads self.new.reads) }
        ensures memory { Rises (IsErrOf result Refusal.OutOfMemory) room.old room.new }
    {
        computed_bytes(
            room,
            &mut self.overlay,
            &self.fields,
            a,
            b,
            place,
            source,
            steps,
        )
    }
}
