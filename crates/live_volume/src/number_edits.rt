// Another number of samples of a trace, a field of many traces counted up, and the places of
// numbers that tell no length, over which a value is judged without a look.
ghost use Rattle.std.specs.Prelude.{◌≡◌, ◌≢◌, ◌⊎◌, ◌+◌, ◌-◌, ◌≤◌, ◌<◌, ◌&&◌, false, ℕ, nat_abs, None, Some, IsTrue, IfOk, IfErr, IfSome, OnOk, OnErr, if◌then◌else◌, IsErrOf};
ghost use Rattle.std.specs.Bool.{OnTrue};
ghost use Rattle.std.specs.Option.{option_or};
ghost use Rattle.room.specs.Refusals.{Rises};
ghost use Rattle.num_order.specs.Number.{IsSize, fits};
ghost use Rattle.field_map.specs.Places.{offset_of};
ghost use Rattle.frame_cut.specs.Traces.{count_of, is_trace, trace_at};
ghost use Rattle.trace_record.specs.Told.{tells_record};
ghost use Rattle.edit_overlay.specs.CountedVolume.{RisesAtMost};
ghost use Rattle.edit_overlay.specs.Reads.{Follow, HaveAgreed, IsFaultOfLook};
ghost use Rattle.bench_rules.specs.declared.edit.Edit.TheVariants as edits;
ghost use Rattle.bench_rules.specs.declared.field.Field.TheVariants as fields;
ghost use Rattle.bench_rules.specs.declared.refusal.Refusal.TheVariants.{OutOfMemory as no_memory};
ghost use Rattle.bench_rules.specs.Looks.{edit_looks, trace_looks};
ghost use Rattle.bench_rules.specs.Places.{leaves_length as leaves_length_of};
ghost use Rattle.bench_rules.specs.ReadFaults.{IsRefusalOfNoRead, IsReadRefusal, IsRefusalOfReads};
ghost use Rattle.bench_rules.specs.Refused.{first_refusal, first_refusal_among, no_trace, no_trace_from, set_refusal};
ghost use Rattle.bench_rules.specs.Steps.{IsAfter, Step};
ghost use Rattle.bench_rules.specs.TraceEdits.{counted, numbers, resized as bytes_resized};
ghost use Rattle.many_traces.specs.Fields.{HoldsPlace};
ghost use Rattle.many_traces.specs.Formulas.{IsRefusalFor};
ghost use Rattle.live_volume.specs.Held.{any_moves, IsReadAs, OnlyLooks};
ghost use Rattle.live_volume.specs.Places.{EachHolds, MayReplace};
ghost use Rattle.live_volume.specs.Refusals.{IsOfMachine};

use crate::live_volume::LiveVolume;
use bench_rules::{
    Field, Refusal, count_refusal, counted_up, renumber_refusal, resized, values_bytes,
};
use edit_overlay::ReadFault;
use field_map::Place;
use num_order::{Kind, fits};
use room::Room;
use volume_records::record_of_bytes;

impl LiveVolume {
    // Trace p with so many samples, or the first refusal: E01, E04, E06, E09.
    pub(crate) fn resize(&mut self, room: &mut Room, p: u32, count: i128) -> Result<(), Refusal>
        ensures step { HaveAgreed self.new.reads →
            Step self.old.state (edits.Resize p count) result self.new.state }
        ensures err { OnErr result (self.new.state ≡ self.old.state) }
        ensures same { IsReadAs self.old.state self.new.state }
        ensures reads { Follow self.old.reads self.new.reads }
        ensures reads_tell { IfErr result (IsRefusalOfReads self.old.reads self.new.reads) }
        ensures loaded { self.new.loaded ≡ self.old.loaded }
        ensures looks { RisesAtMost self.old.looks self.new.looks
            (trace_looks self.old.state.volume p 2) }
        ensures memory { Rises (IsErrOf result Refusal.OutOfMemory) room.old room.new }
    {
        let head = self.overlay.head();
        let bytes = self.resized_bytes(room, p, count)?;
        let trace = record_of_bytes(&head, bytes.as_slice(), &self.fields);
        self.replace(room, p, bytes, &trace)
    }

    // The bytes of trace p with so many samples, or the first refusal, in one look: E01, E04, E06,
    // E09; else E11 alone.
    fn resized_bytes(&mut self, room: &mut Room, p: u32, count: i128) -> Result<Vec<u8>, Refusal>
        ensures none { IfOk result (λ _. HaveAgreed self.new.reads →
            first_refusal self.old.state (edits.Resize p count) ≡ None) }
        ensures bytes { IfOk result (λ bytes. HaveAgreed self.new.reads → bytes.items ≡
            bytes_resized self.old.state.volume.head (trace_at self.old.state.volume p)
            (nat_abs count)) }
        ensures fits { IfOk result (λ bytes. MayReplace self.old.state p bytes.items) }
        ensures err { IfErr result (λ refusal. (IsTrue (is_trace self.old.state.volume p) ×
            IsReadRefusal self.old.state.on_disk refusal)
            ⊎ (HaveAgreed self.new.reads → IsRefusalFor refusal
            (first_refusal self.old.state (edits.Resize p count)))) }
        ensures seen { OnlyLooks self.old self.new (trace_looks self.old.state.volume p 1) }
        ensures reads_tell { IfErr result (IsRefusalOfReads self.old.reads self.new.reads) }
        ensures memory { Rises (IsErrOf result Refusal.OutOfMemory) room.old room.new }
    {
        let length = self.overlay.length();
        let most = self.limits.bytes();
        let traces = self.count();
        let Some(trace) = self.overlay.look(p)? else {
            return Err(Refusal::NoTrace(p, traces));
        };
        if let Some(refusal) = count_refusal(&trace, length, most, count) {
            return Err(refusal);
        }
        resized(room, &trace, count as u32)
    }

    /// The field of traces a to b counted up from a first value by a step: done whole, and then
    /// whether a trace has another inline or crossline than before; or refused, and all is as it
    /// was. Looks at no trace where the records tell the number (`is_told`), nor where a or b is
    /// refused; else twice at each at most. Takes memory in step with the number of traces.
    /// Refused, in this order: E01 for a, E01 for b, then the first refusal of the lowest trace
    /// whose value is refused, E02, E03, E04 or E06; else E11 alone. On disk also where a trace
    /// that is looked at could not be read (E14, E15).
    pub fn renumber(
        &mut self,
        room: &mut Room,
        a: u32,
        b: u32,
        field: &Field,
        first: i128,
        step: i128,
    ) -> Result<bool, Refusal>
        ensures step { HaveAgreed self.new.reads → Step self.old.state
            (edits.Renumber a b field.now first step) result self.new.state }
        ensures err { OnErr result (self.new.state ≡ self.old.state) }
        ensures same { IsReadAs self.old.state self.new.state }
        ensures reads { Follow self.old.reads self.new.reads }
        ensures reads_tell { IfErr result (IsRefusalOfReads self.old.reads self.new.reads) }
        ensures loaded { self.new.loaded ≡ self.old.loaded }
        ensures looks { RisesAtMost self.old.looks self.new.looks
            (edit_looks self.old.state (edits.Renumber a b field.now first step)) }
        ensures count { count_of self.new.state.volume ≡ count_of self.old.state.volume }
        ensures moved { IfOk result (λ moved. HaveAgreed self.new.reads →
            moved ≡ any_moves self.old.state self.new.state a b) }
        ensures memory { Rises (IsErrOf result Refusal.OutOfMemory) room.old room.new }
    {
        if let Some(refusal) = self.range_refusal(a, b) {
            return Err(refusal);
        }
        let Some(place) = self.place_in_trace(field) else {
            return Err(Refusal::NoField);
        };
        if let Some(refusal) = self.values_refusal(a, b, place, first, step)? {
            return Err(refusal);
        }
        self.count_up(room, a, b, place, first, step)
    }

    // The first refusal of a range of traces: E01.
    pub(crate) fn range_refusal(&self, a: u32, b: u32) -> Option<Refusal>
        ensures refusal { result ≡ option_or (no_trace self.now.state.volume a)
            (no_trace_from self.now.state.volume a b) }
        ensures rule { IfSome result IsRefusalOfNoRead }
    {
        match self.no_trace(a) {
            Some(refusal) => Some(refusal),
            None if b < a || b > self.count() => Some(Refusal::NoTrace(b, self.count())),
            None => None,
        }
    }

    // The first refusal of the values counted up over the place of traces a to b, each in the file
    // as it is: E03, E04, E06 of the lowest trace that has one. No look where each trace has the
    // place, and no value there gives it another length.
    fn values_refusal(
        &mut self,
        a: u32,
        b: u32,
        place: Place,
        first: i128,
        step: i128,
    ) -> Result<Option<Refusal>, ReadFault>
        requires first { 1 ≤ a }
        requires range { a ≤ b }
        requires last { b ≤ count_of self.old.state.volume }
        ensures refusal { IfOk result (λ refusal. HaveAgreed self.new.reads → refusal ≡
            first_refusal_among self.old.state.volume (Some place) (numbers a b first step)) }
        ensures each { IfOk result (λ refusal. refusal ≡ None →
            EachHolds self.old.state.volume a (b + 1 - a) place) }
        ensures fit { IfOk result (λ refusal. refusal ≡ None → (k : ℕ) → k < b + 1 - a →
            IsTrue (fits place.kind (counted first step k))) }
        ensures seen { OnlyLooks self.old self.new
            (if leaves_length_of place then 0 else b + 1 - a) }
        ensures reads_tell { IfErr result (IsFaultOfLook self.old.reads self.new.reads) }
        ensures other { IfOk result
            (λ refusal. IfSome refusal (λ r. r ≢ Refusal.OutOfMemory)) }
        ensures rule { IfOk result (λ refusal. IfSome refusal IsRefusalOfNoRead) }
        ensures read { IfErr result (λ _. IsTrue self.old.state.on_disk
            × (leaves_length_of place ≡ false)) }
    {
        if leaves_length(place) {
            return Ok(self.unseen_refusal(a, b, place, first, step));
        }
        for k in 0..b - a + 1 {
            let refusal = self.value_refusal(a + k, place, first, step, k)?;
            if refusal.is_some() {
                return Ok(refusal);
            }
        }
        Ok(None)
    }

    // The same where no look is needed: of the values only E04 may come, and all of them fit where
    // the first and the last do.
    fn unseen_refusal(
        &self,
        a: u32,
        b: u32,
        place: Place,
        first: i128,
        step: i128,
    ) -> Option<Refusal>
        requires first { 1 ≤ a }
        requires range { a ≤ b }
        requires last { b ≤ count_of self.now.state.volume }
        requires place { IsTrue (leaves_length_of place) }
        ensures refusal { HaveAgreed self.now.reads → result ≡
            first_refusal_among self.now.state.volume (Some place) (numbers a b first step) }
        ensures each { EachHolds self.now.state.volume a (b + 1 - a) place }
        ensures fit { result ≡ None → (k : ℕ) → k < b + 1 - a →
            IsTrue (fits place.kind (counted first step k)) }
        ensures other { IfSome result (λ r. r ≢ Refusal.OutOfMemory) }
        ensures rule { IfSome result IsRefusalOfNoRead }
    {
        self.stands();
        if ends_fit(place.kind, first, step, b - a) {
            None
        } else {
            Some(Refusal::DoesNotFit)
        }
    }

    // The refusal at the place of trace p of the value that stands k steps behind the first: E03,
    // E04, E06.
    fn value_refusal(
        &mut self,
        p: u32,
        place: Place,
        first: i128,
        step: i128,
        k: u32,
    ) -> Result<Option<Refusal>, ReadFault>
        requires { IsTrue (is_trace self.old.state.volume p) }
        ensures refusal { IfOk result (λ refusal. HaveAgreed self.new.reads →
            refusal ≡ set_refusal self.old.state.volume.head
            (trace_at self.old.state.volume p) (Some place) (counted first step k)) }
        ensures each { IfOk result (λ refusal. refusal ≡ None →
            HoldsPlace (trace_at self.old.state.volume p) place) }
        ensures fit { IfOk result (λ refusal. refusal ≡ None →
            IsTrue (fits place.kind (counted first step k))) }
        ensures seen { OnlyLooks self.old self.new 1 }
        ensures reads_tell { IfErr result (IsFaultOfLook self.old.reads self.new.reads) }
        ensures other { IfOk result
            (λ refusal. IfSome refusal (λ r. r ≢ Refusal.OutOfMemory)) }
        ensures rule { IfOk result (λ refusal. IfSome refusal IsRefusalOfNoRead) }
        ensures read { IfErr result (λ _. IsTrue self.old.state.on_disk) }
    {
        let order = self.overlay.head().order;
        let Some(trace) = self.overlay.look(p)? else {
            unreachable!()
        };
        Ok(renumber_refusal(order, &trace, place, first, step, k))
    }

    // The values counted up over the place of traces a to b, where nothing but memory or a read
    // refuses them; memory alone, and with no look, where the records tell the new ones. Whether a
    // trace has another inline or crossline then.
    fn count_up(
        &mut self,
        room: &mut Room,
        a: u32,
        b: u32,
        place: Place,
        first: i128,
        step: i128,
    ) -> Result<bool, Refusal>
        requires first { 1 ≤ a }
        requires range { a ≤ b }
        requires last { b ≤ count_of self.old.state.volume }
        requires each { EachHolds self.old.state.volume a (b + 1 - a) place }
        requires fit { (k : ℕ) → k < b + 1 - a →
            IsTrue (fits place.kind (counted first step k)) }
        requires none { HaveAgreed self.old.reads → first_refusal self.old.state
            (edits.Renumber a b (fields.Place place) first step) ≡ None }
        ensures ok { OnOk result (HaveAgreed self.new.reads → IsAfter self.old.state
            (edits.Renumber a b (fields.Place place) first step) self.new.state) }
        ensures err { IfErr result (λ refusal. IsOfMachine self.old.state.on_disk refusal ×
            (self.new.state ≡ self.old.state)) }
        ensures same { IsReadAs self.old.state self.new.state }
        ensures reads { Follow self.old.reads self.new.reads }
        ensures reads_tell { IfErr result (IsRefusalOfReads self.old.reads self.new.reads) }
        ensures loaded { self.new.loaded ≡ self.old.loaded }
        ensures looks { RisesAtMost self.old.looks self.new.looks (b + 1 - a) }
        ensures told { IsTrue (tells_record self.old.state.fields (offset_of place)
            place.kind.size) → (self.new.looks ≡ self.old.looks)
            × IfErr result (λ refusal. refusal ≡ no_memory) }
        ensures count { count_of self.new.state.volume ≡ count_of self.old.state.volume }
        ensures moved { IfOk result (λ moved. HaveAgreed self.new.reads →
            moved ≡ any_moves self.old.state self.new.state a b) }
        ensures memory { Rises (IsErrOf result Refusal.OutOfMemory) room.old room.new }
    {
        let count = b - a + 1;
        let order = self.overlay.head().order;
        let bytes = values_bytes(room, order, place.kind, first, step, count)?;
        let at = u64::from(place.offset());
        self.put_each(
            room,
            a,
            count,
            at,
            u32::from(place.kind.size),
            bytes.as_slice(),
        )
    }
}

// Whether it is the place of a number inside the main header that shares no byte with bytes
// 115-116: no other bytes of that header tell how long the trace is.
pub(crate) fn leaves_length(place: Place) -> bool
    ensures place { result ≡ leaves_length_of place }
    ensures size { OnTrue result (IsSize place.kind.size) }
{
    let end = u32::from(place.byte) + u32::from(place.kind.size);
    place.extension == 0
        && place.kind.has_known_size()
        && 0 < place.byte
        && end < 242
        && (end <= 115 || 117 <= place.byte)
}

// Whether the first value and the one that stands k steps behind it fit: then so do those between.
fn ends_fit(kind: Kind, first: i128, step: i128, k: u32) -> bool
    requires { IsSize kind.size }
    ensures { result ≡ (fits kind first && fits kind (counted first step k)) }
{
    if !fits(kind, first) {
        return false;
    }
    match counted_up(first, step, k) {
        Some(last) => fits(kind, last),
        None => false,
    }
}
