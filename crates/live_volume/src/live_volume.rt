ghost use Rattle.std.specs.Prelude.{◌≡◌, ◌≤◌, ◌↔◌, [], true, false, length, None, Some, IsSome, IfSome, IsTrue, IfOk, IfErr, OnOk, OnErr, MatchResult, IsErrOf, ◌≢◌};
ghost use Rattle.std.specs.Borrow.{sem};
ghost use Rattle.std.specs.Io.KnownBytes.{Consumes, IsAtEnd};
ghost use Rattle.room.specs.Refusals.{Rises};
ghost use Rattle.field_map.specs.Binding.{geometry_at_load, is_geometry as is_geometry_name};
ghost use Rattle.field_map.specs.Places.{offset_of};
ghost use Rattle.frame_cut.specs.Cuts.{IsCut};
ghost use Rattle.frame_cut.specs.Traces.{count_of, is_trace};
ghost use Rattle.frame_cut.specs.Volume.{bytes_of};
ghost use Rattle.trace_record.specs.Told.{tells_record};
ghost use Rattle.volume_loading.specs.Loading.{IsLoadFault, FailuresAfterRefusal, TakesWithin};
ghost use Rattle.edit_overlay.specs.Saving.{CountsSaveFailure, Saves};
ghost use Rattle.bench_rules.specs.declared.edit.Edit.TheVariants as edits;
ghost use Rattle.bench_rules.specs.declared.field.Field.TheVariants as fields;
ghost use Rattle.bench_rules.specs.declared.refusal.Refusal.TheVariants.{OutOfMemory as no_memory};
ghost use Rattle.edit_overlay.specs.CountedVolume.{RisesAtMost};
ghost use Rattle.edit_overlay.specs.Reads.{Follow, HaveAgreed, IsFaultOfLook};
ghost use Rattle.bench_rules.specs.Looks.{load_looks, edit_looks, put_looks, query_looks, trace_looks};
ghost use Rattle.bench_rules.specs.Places.{leaves_length as leaves_length_of, place_in_trace};
ghost use Rattle.bench_rules.specs.Refused.{first_refusal};
ghost use Rattle.bench_rules.specs.Steps.{IsAfter, Step};
ghost use Rattle.bench_rules.specs.Answer.{IsReply};
ghost use Rattle.live_volume.specs.Held.{IsReadAs};
ghost use Rattle.live_volume.specs.Refusals.{IsOfMachine};
ghost use Rattle.volume_answers.specs.Rooms.{HasRoom};
ghost use Rattle.bench_rules.specs.ReadFaults.{IsFaultOfReads, IsRefusalOfReads};

use crate::number_edits::leaves_length;
use crate::volume_edits::refusal_of_records;
use bench_rules::{
    Answer, AskFault, Edit, Field, Query, Refusal, Text, binary_offset, is_line, place_in_binary,
    place_in_trace, set_bin_refusal,
};
use chosen_traces::chosen_answer;
use device_io::{Sink, Source};
use edit_overlay::{Overlay, ReadFault, SaveFault};
use field_map::{FieldMap, Place, is_geometry};
use frame_cut::{Limits, LoadFault, Reading};
use header_answers::{extremes_answer, found_answer, header_answer};
use live_reports::LiveReports;
use many_traces::table_answer;
use num_order::{fits, write};
use problem_answers::{problems_answer, survey_answer};
use room::Room;
use std::io::{Read, Write};
use std::marker::Model;
use std::mem;
use text_block::{code_of, encode_line};
use time_slice::slice_answer;
use trace_record::PackedRecord;
use trace_view::TraceView;
use volume_answers::{
    cells, code_answer, count_answer, crosslines, faults_answer, fields_answer, fold,
    geometry_answer, get_answer, get_bin_answer, histogram, info_answer, inlines, line_answer,
    lines_answer, range, sample_answer, stanzas_answer, stat_answer, totals_answer, value_refusal,
};
use volume_loading::Loading;
use volume_records::{remake, with_records};

/// One volume: a file that was loaded, with the edits that were accepted since.
#[derive(Drop)]
pub struct LiveVolume {
    pub(crate) overlay: Overlay<PackedRecord>,
    pub(crate) fields: FieldMap,
    pub(crate) reading: Reading,
    pub(crate) limits: Limits,
    pub(crate) reports: LiveReports,
}

impl Model for LiveVolume {
    ghost use Rattle.bench_rules.specs.State.{Session};

    ghost Value = { Session };

    ghost use Rattle.live_volume.specs.Held.{session_of, IsHeld};

    ghost view = { session_of };

    ghost invariant = { IsHeld };
}

impl LiveVolume {
    ghost use Rattle.edit_overlay.specs.CountedVolume.{HasShapeOf};
    ghost use Rattle.live_volume.specs.Looked.{EndsLooked};

    /// Reads a whole file and cuts it; the field map is then the six geometry names at their
    /// standard places. Looks at each trace once at most, for its record. Takes memory. Refused:
    /// L01 where a read failed in this call, L02 to L15 or L17 for the first reason that the file
    /// gives, L16 where a growth was refused in this call. A refused load has taken at most one
    /// byte above the limit.
    pub fn load<R: Read>(
        room: &mut Room,
        reader: &mut Source<R>,
        reading: Reading,
        limits: Limits,
    ) -> Result<LiveVolume, LoadFault>
        ensures taken { IfOk result (λ b. Consumes (R.remaining reader.old.inner)
            (R.remaining reader.new.inner) (bytes_of b.state.volume)) }
        ensures all { IfOk result (λ _. IsAtEnd (R.remaining reader.new.inner)) }
        ensures looks { IfOk result (λ b. b.looks ≤ load_looks b.state.volume) }
        ensures cut { IfOk result (λ b. IsCut (bytes_of b.state.volume) reading limits
            b.state.volume) }
        ensures fields { IfOk result (λ b. b.state.fields ≡ geometry_at_load) }
        ensures reading { IfOk result (λ b. b.state.reading ≡ reading) }
        ensures limits { IfOk result (λ b. b.state.limits ≡ limits) }
        ensures in_memory { IfOk result (λ b. b.state.on_disk ≡ false) }
        ensures loaded { IfOk result (λ b. b.loaded ≡ bytes_of b.state.volume) }
        ensures reads { IfOk result (λ b. HaveAgreed b.reads) }
        ensures refused { IfErr result (λ fault. IsLoadFault (R.remaining reader.old.inner) reading
            limits fault) }
        ensures read { IfErr result (λ _. TakesWithin (R.remaining reader.old.inner)
            (R.remaining reader.new.inner) limits) }
        ensures failures { MatchResult result (λ _. reader.new.failures ≡ reader.old.failures)
            (λ fault. FailuresAfterRefusal fault reader.old.failures reader.new.failures) }
        ensures memory { Rises (IsErrOf result LoadFault.OutOfMemory) room.old room.new }
    {
        let loading = Loading::load(room, reader, reading, limits)?;
        let fields = match FieldMap::standard(room, loading.head().extensions) {
            Ok(fields) => fields,
            Err(_refused) => {
                loading.close();
                return Err(LoadFault::OutOfMemory);
            }
        };
        match with_records(room, loading, &fields) {
            Ok((overlay, reports)) => Ok(LiveVolume {
                overlay,
                fields,
                reading,
                limits,
                reports,
            }),
            Err(_refused) => Err(LoadFault::OutOfMemory),
        }
    }

    /// One edit: done, and the reports follow it; or refused, and all is as it was. `Set`, `Map`,
    /// `MapAs`, `Patch`, `Blank`, `Copy`, `Move`, `MoveBlock`, `Resize`, `Renumber`, `Compute`,
    /// `Sort` and `OfChosen` take memory, and are refused for want of it, E11, only where nothing
    /// else refuses them; `OfChosen`, whose traces have to be listed first, in the place of any
    /// refusal but E01. On disk an edit that looks is also refused where a trace could not be
    /// read: E14, only where a read failed in this call; E15, only where one since the load gave
    /// other bytes.
    pub fn apply(&mut self, room: &mut Room, edit: &Edit) -> Result<(), Refusal>
        ensures step { HaveAgreed self.new.reads →
            Step self.old.state edit.now result self.new.state }
        ensures err { OnErr result (self.new.state ≡ self.old.state) }
        ensures same { IsReadAs self.old.state self.new.state }
        ensures reads { Follow self.old.reads self.new.reads }
        ensures reads_tell { IfErr result (IsRefusalOfReads self.old.reads self.new.reads) }
        ensures loaded { self.new.loaded ≡ self.old.loaded }
        ensures looks { RisesAtMost self.old.looks self.new.looks
            (edit_looks self.old.state edit.now) }
        ensures memory { Rises (IsErrOf result Refusal.OutOfMemory) room.old room.new }
    {
        match edit {
            Edit::Set(p, field, value) => self.set_field(room, *p, field, *value),
            Edit::SetBin(field, value) => self.set_bin(field, *value),
            Edit::Declare => self.declare(),
            Edit::DropTail => {
                self.drop_tail();
                Ok(())
            }
            Edit::SetText(q, text) => self.set_text(*q, text),
            Edit::Map(name, field) => self.bind(room, name, field),
            Edit::MapAs(mapping) => self.map_as(room, *mapping),
            Edit::Unmap(name) => self.unbind(name),
            Edit::Patch(p, k, values) => self.patch(room, *p, *k, values.as_slice()),
            Edit::Blank(p) => self.blank(room, *p),
            Edit::Copy(q, p) => self.copy(room, *q, *p),
            Edit::Delete(p) => self.delete(*p),
            Edit::Move(a, b) => self.move_trace(room, *a, *b),
            Edit::MoveBlock(a, b, to) => self.move_block(room, *a, *b, *to),
            Edit::Resize(p, count) => self.resize(room, *p, *count),
            Edit::Renumber {
                first_trace: a,
                last_trace: b,
                field,
                first_value: first,
                step,
            } => {
                self.renumber(room, *a, *b, field, *first, *step)?;
                Ok(())
            }
            Edit::Compute {
                first_trace: a,
                last_trace: b,
                field,
                source,
                steps,
            } => {
                self.compute(room, *a, *b, field, source, steps.as_slice())?;
                Ok(())
            }
            Edit::Sort {
                first_trace: a,
                last_trace: b,
                fields,
                falling,
            } => { self.sort(room, *a, *b, fields.as_slice(), falling.as_slice()) }
            Edit::OfChosen(chosen, edit) => {
                self.apply_chosen(room, chosen, edit)?;
                Ok(())
            }
        }
    }

    // The place of a trace's field, where it has one.
    pub(crate) fn place_in_trace(&self, field: &Field) -> Option<Place>
        ensures { result ≡ place_in_trace self.now.state.fields field.now }
    {
        place_in_trace(&self.fields, field)
    }

    // Whether there is a trace p.
    pub(crate) fn has_trace(&self, p: u32) -> bool
        ensures { result ≡ is_trace self.now.state.volume p }
    {
        p >= 1 && p <= self.overlay.count()
    }

    // The value into the field of trace p, or the first refusal: E01, E02, E03, E04, E06.
    fn set_field(
        &mut self,
        room: &mut Room,
        p: u32,
        field: &Field,
        value: i128,
    ) -> Result<(), Refusal>
        ensures step { HaveAgreed self.new.reads →
            Step self.old.state (edits.Set p field.now value) result self.new.state }
        ensures err { OnErr result (self.new.state ≡ self.old.state) }
        ensures same { IsReadAs self.old.state self.new.state }
        ensures reads { Follow self.old.reads self.new.reads }
        ensures reads_tell { IfErr result (IsRefusalOfReads self.old.reads self.new.reads) }
        ensures loaded { self.new.loaded ≡ self.old.loaded }
        ensures looks { RisesAtMost self.old.looks self.new.looks
            (edit_looks self.old.state (edits.Set p field.now value)) }
        ensures memory { Rises (IsErrOf result Refusal.OutOfMemory) room.old room.new }
    {
        match self.place_in_trace(field) {
            Some(place) => self.set(room, p, place, value),
            None if self.has_trace(p) => Err(Refusal::NoField),
            None => Err(Refusal::NoTrace(p, self.overlay.count())),
        }
    }

    // The value into the place of trace p, or the first refusal. Where each trace has the place,
    // and no value there gives it another length, of the value only E04 may come, and no look is
    // needed for it.
    fn set(&mut self, room: &mut Room, p: u32, place: Place, value: i128) -> Result<(), Refusal>
        ensures step { HaveAgreed self.new.reads →
            Step self.old.state (edits.Set p (fields.Place place) value) result self.new.state }
        ensures err { OnErr result (self.new.state ≡ self.old.state) }
        ensures same { IsReadAs self.old.state self.new.state }
        ensures reads { Follow self.old.reads self.new.reads }
        ensures reads_tell { IfErr result (IsRefusalOfReads self.old.reads self.new.reads) }
        ensures loaded { self.new.loaded ≡ self.old.loaded }
        ensures looks { RisesAtMost self.old.looks self.new.looks (put_looks self.old.state.fields
            (Some place) (trace_looks self.old.state.volume p 2)) }
        ensures memory { Rises (IsErrOf result Refusal.OutOfMemory) room.old room.new }
    {
        self.stands();
        if !self.has_trace(p) || !leaves_length(place) {
            return self.set_seen(room, p, place, value);
        }
        if !fits(place.kind, value) {
            return Err(Refusal::DoesNotFit);
        }
        self.put_value(room, p, place, value)
    }

    // The same where there is no trace p, or more than E04 may come: the trace, if there is one, is
    // looked at for the first refusal.
    fn set_seen(
        &mut self,
        room: &mut Room,
        p: u32,
        place: Place,
        value: i128,
    ) -> Result<(), Refusal>
        requires { IsTrue (is_trace self.old.state.volume p) → leaves_length_of place ≡ false }
        ensures step { HaveAgreed self.new.reads →
            Step self.old.state (edits.Set p (fields.Place place) value) result self.new.state }
        ensures err { OnErr result (self.new.state ≡ self.old.state) }
        ensures same { IsReadAs self.old.state self.new.state }
        ensures reads { Follow self.old.reads self.new.reads }
        ensures reads_tell { IfErr result (IsRefusalOfReads self.old.reads self.new.reads) }
        ensures loaded { self.new.loaded ≡ self.old.loaded }
        ensures looks { RisesAtMost self.old.looks self.new.looks
            (trace_looks self.old.state.volume p 2) }
        ensures memory { Rises (IsErrOf result Refusal.OutOfMemory) room.old room.new }
    {
        match value_refusal(&mut self.overlay, p, place, value)? {
            Some(refusal) => Err(refusal),
            None => self.put_value(room, p, place, value),
        }
    }

    // The value into the place of trace p, where nothing but memory or a read refuses it; memory
    // alone, and with no look, where the record of the trace tells the new one.
    fn put_value(
        &mut self,
        room: &mut Room,
        p: u32,
        place: Place,
        value: i128,
    ) -> Result<(), Refusal>
        requires room { HasRoom self.old.state.volume p place value }
        requires none { HaveAgreed self.old.reads →
            first_refusal self.old.state (edits.Set p (fields.Place place) value) ≡ None }
        ensures ok { OnOk result (HaveAgreed self.new.reads → IsAfter self.old.state
            (edits.Set p (fields.Place place) value) self.new.state) }
        ensures err { IfErr result (λ refusal. IsOfMachine self.old.state.on_disk refusal ×
            (self.new.state ≡ self.old.state)) }
        ensures same { IsReadAs self.old.state self.new.state }
        ensures reads { Follow self.old.reads self.new.reads }
        ensures reads_tell { IfErr result (IsRefusalOfReads self.old.reads self.new.reads) }
        ensures loaded { self.new.loaded ≡ self.old.loaded }
        ensures looks { RisesAtMost self.old.looks self.new.looks 1 }
        ensures told { IsTrue (tells_record self.old.state.fields (offset_of place)
            place.kind.size) → (self.new.looks ≡ self.old.looks)
            × IfErr result (λ refusal. refusal ≡ no_memory) }
        ensures memory { Rises (IsErrOf result Refusal.OutOfMemory) room.old room.new }
    {
        let mut buffer = [0u8; 8];
        let new = &mut buffer[..usize::from(place.kind.size)];
        write(self.overlay.head().order, place.kind, value, new);
        let known = self.held(p);
        self.put(room, p, u64::from(place.offset()), new, Some(known))
    }

    // The value into the field of the binary header, or the first refusal: E02, E03, E04, E06.
    fn set_bin(&mut self, field: &Field, value: i128) -> Result<(), Refusal>
        ensures step { HaveAgreed self.new.reads →
            Step self.old.state (edits.SetBin field.now value) result self.new.state }
        ensures err { OnErr result (self.new.state ≡ self.old.state) }
        ensures same { IsReadAs self.old.state self.new.state }
        ensures reads { Follow self.old.reads self.new.reads }
        ensures reads_tell { IfErr result (IsRefusalOfReads self.old.reads self.new.reads) }
        ensures loaded { self.new.loaded ≡ self.old.loaded }
        ensures looks { self.new.looks ≡ self.old.looks }
        ensures other { IfErr result (λ refusal. refusal ≢ Refusal.OutOfMemory) }
    {
        let Some(place) = place_in_binary(field) else {
            return Err(Refusal::NoField);
        };
        match set_bin_refusal(place, value) {
            Some(refusal) => Err(refusal),
            None => {
                self.put_in_binary(place, value);
                Ok(())
            }
        }
    }

    // The value into the place of the binary header, where nothing refuses it.
    fn put_in_binary(&mut self, place: Place, value: i128)
        requires { first_refusal self.old.state (edits.SetBin (fields.Place place) value) ≡ None }
        ensures after { HaveAgreed self.new.reads → IsAfter self.old.state
            (edits.SetBin (fields.Place place) value) self.new.state }
        ensures same { IsReadAs self.old.state self.new.state }
        ensures reads { Follow self.old.reads self.new.reads }
        ensures loaded { self.new.loaded ≡ self.old.loaded }
        ensures looks { self.new.looks ≡ self.old.looks }
    {
        let mut buffer = [0u8; 8];
        let new = &mut buffer[..usize::from(place.kind.size)];
        write(self.overlay.head().order, place.kind, value, new);
        self.overlay.put_head(u32::from(binary_offset(place)), new);
    }

    // The text as line q of the textual header, or the first refusal: E03, E07.
    fn set_text(&mut self, q: u32, text: &Text) -> Result<(), Refusal>
        ensures step { HaveAgreed self.new.reads →
            Step self.old.state (edits.SetText q text.now) result self.new.state }
        ensures err { OnErr result (self.new.state ≡ self.old.state) }
        ensures same { IsReadAs self.old.state self.new.state }
        ensures reads { Follow self.old.reads self.new.reads }
        ensures reads_tell { IfErr result (IsRefusalOfReads self.old.reads self.new.reads) }
        ensures loaded { self.new.loaded ≡ self.old.loaded }
        ensures looks { self.new.looks ≡ self.old.looks }
        ensures other { IfErr result (λ refusal. refusal ≢ Refusal.OutOfMemory) }
    {
        if !is_line(q) {
            return Err(Refusal::NoPlace);
        }
        let line = encode_line(code_of(self.overlay.text()), text.as_str())?;
        self.overlay.put_text(q, &line);
        Ok(())
    }

    // The name bound to the place of the field, or the first refusal: E02, E08.
    fn bind(&mut self, room: &mut Room, name: &Text, field: &Field) -> Result<(), Refusal>
        ensures step { HaveAgreed self.new.reads →
            Step self.old.state (edits.Map name.now field.now) result self.new.state }
        ensures err { OnErr result (self.new.state ≡ self.old.state) }
        ensures same { IsReadAs self.old.state self.new.state }
        ensures reads { Follow self.old.reads self.new.reads }
        ensures reads_tell { IfErr result (IsRefusalOfReads self.old.reads self.new.reads) }
        ensures loaded { self.new.loaded ≡ self.old.loaded }
        ensures looks { RisesAtMost self.old.looks self.new.looks
            (edit_looks self.old.state (edits.Map name.now field.now)) }
        ensures memory { Rises (IsErrOf result Refusal.OutOfMemory) room.old room.new }
    {
        match self.place_in_trace(field) {
            Some(place) => self.bind_to(room, name, place),
            None => Err(Refusal::NoField),
        }
    }

    // The name bound to the place, or the first refusal.
    fn bind_to(&mut self, room: &mut Room, name: &Text, place: Place) -> Result<(), Refusal>
        ensures step { HaveAgreed self.new.reads →
            Step self.old.state (edits.Map name.now (fields.Place place)) result self.new.state }
        ensures err { OnErr result (self.new.state ≡ self.old.state) }
        ensures same { IsReadAs self.old.state self.new.state }
        ensures reads { Follow self.old.reads self.new.reads }
        ensures reads_tell { IfErr result (IsRefusalOfReads self.old.reads self.new.reads) }
        ensures loaded { self.new.loaded ≡ self.old.loaded }
        ensures looks { RisesAtMost self.old.looks self.new.looks
            (edit_looks self.old.state (edits.Map name.now (fields.Place place))) }
        ensures memory { Rises (IsErrOf result Refusal.OutOfMemory) room.old room.new }
    {
        if is_geometry(name.as_str()) {
            self.bind_geometry(room, name, place)
        } else {
            self.bind_name(room, name, place)
        }
    }

    // A geometry name bound to the place, or the first refusal. Each trace is looked at for its new
    // record, and the reports are made anew beside the old ones; where that is refused, for want of
    // memory or because a trace could not be read, the records are as they were, and the name gets
    // its old place again, which takes no memory.
    fn bind_geometry(&mut self, room: &mut Room, name: &Text, place: Place) -> Result<(), Refusal>
        requires { is_geometry_name name.now ≡ true }
        ensures step { HaveAgreed self.new.reads →
            Step self.old.state (edits.Map name.now (fields.Place place)) result self.new.state }
        ensures err { OnErr result (self.new.state ≡ self.old.state) }
        ensures same { IsReadAs self.old.state self.new.state }
        ensures reads { Follow self.old.reads self.new.reads }
        ensures reads_tell { IfErr result (IsRefusalOfReads self.old.reads self.new.reads) }
        ensures loaded { self.new.loaded ≡ self.old.loaded }
        ensures looks { RisesAtMost self.old.looks self.new.looks
            (count_of self.old.state.volume) }
        ensures memory { Rises (IsErrOf result Refusal.OutOfMemory) room.old room.new }
    {
        let text = name.as_str();
        self.fields.geometry_stands();
        if let Some(fault) = self.fields.binding_refusal(text, place) {
            return Err(Refusal::Map(fault));
        }
        let Some(old) = self.fields.place(text) else {
            unreachable!()
        };
        self.fields.set_geometry(text, place);
        match remake(room, &mut self.overlay, &self.fields) {
            Ok(reports) => {
                mem::replace(&mut self.reports, reports).close();
                Ok(())
            }
            Err(fault) => {
                self.fields.set_geometry(text, old);
                Err(refusal_of_records(fault))
            }
        }
    }

    // Another name bound to the place, or the first refusal.
    fn bind_name(&mut self, room: &mut Room, name: &Text, place: Place) -> Result<(), Refusal>
        requires { is_geometry_name name.now ≡ false }
        ensures step { HaveAgreed self.new.reads →
            Step self.old.state (edits.Map name.now (fields.Place place)) result self.new.state }
        ensures err { OnErr result (self.new.state ≡ self.old.state) }
        ensures same { IsReadAs self.old.state self.new.state }
        ensures reads { Follow self.old.reads self.new.reads }
        ensures reads_tell { IfErr result (IsRefusalOfReads self.old.reads self.new.reads) }
        ensures loaded { self.new.loaded ≡ self.old.loaded }
        ensures looks { self.new.looks ≡ self.old.looks }
        ensures memory { Rises (IsErrOf result Refusal.OutOfMemory) room.old room.new }
    {
        self.fields.bind(room, name.as_str(), place)?;
        Ok(())
    }

    // The name no longer bound, or the first refusal.
    fn unbind(&mut self, name: &Text) -> Result<(), Refusal>
        ensures step { HaveAgreed self.new.reads →
            Step self.old.state (edits.Unmap name.now) result self.new.state }
        ensures err { OnErr result (self.new.state ≡ self.old.state) }
        ensures same { IsReadAs self.old.state self.new.state }
        ensures reads { Follow self.old.reads self.new.reads }
        ensures reads_tell { IfErr result (IsRefusalOfReads self.old.reads self.new.reads) }
        ensures loaded { self.new.loaded ≡ self.old.loaded }
        ensures looks { self.new.looks ≡ self.old.looks }
        ensures other { IfErr result (λ refusal. refusal ≢ Refusal.OutOfMemory) }
    {
        self.fields.unbind(name.as_str())?;
        Ok(())
    }

    /// The answer to a query, which leaves the state as it is. Takes memory where the answer is a
    /// text or a list, and is refused for want of it, E11, only where nothing else refuses it. On
    /// disk a query that looks is also refused where a trace could not be read (E14, E15, only as
    /// an edit is).
    pub fn ask(&mut self, room: &mut Room, query: &Query) -> Result<Answer, AskFault>
        ensures reply { HaveAgreed self.new.reads → IsReply self.old.state query.now result }
        ensures unchanged { self.new.state ≡ self.old.state }
        ensures reads { Follow self.old.reads self.new.reads }
        ensures reads_tell { IfErr result (IsFaultOfReads self.old.reads self.new.reads) }
        ensures loaded { self.new.loaded ≡ self.old.loaded }
        ensures looks { RisesAtMost self.old.looks self.new.looks
            (query_looks self.old.state [] query.now) }
        ensures memory { Rises (IsErrOf result AskFault.OutOfMemory) room.old room.new }
    {
        match query {
            Query::Count => Ok(count_answer(&self.overlay)),
            Query::Info => Ok(info_answer(&self.overlay, self.reading)),
            Query::Get(p, field) => get_answer(&mut self.overlay, &self.fields, *p, field),
            Query::GetBin(field) => get_bin_answer(&self.overlay, field),
            Query::Line(b, q) => line_answer(room, &self.overlay, *b, *q),
            Query::Code(b) => code_answer(&self.overlay, *b),
            Query::Stanzas => stanzas_answer(room, &self.overlay),
            Query::Fields => fields_answer(room, &self.fields),
            Query::Sample(p, k) => sample_answer(&mut self.overlay, *p, *k),
            Query::Geometry(p) => geometry_answer(self.record(*p), &self.overlay, *p),
            Query::Stat(p) => stat_answer(self.record(*p), &mut self.overlay, *p),
            Query::Fold(inline, crossline) => Ok(fold(self.grid(), *inline, *crossline)),
            Query::Grid => cells(room, self.grid()),
            Query::Inlines => inlines(room, self.grid()),
            Query::Crosslines => crosslines(room, self.grid()),
            Query::Histogram => histogram(room, self.grid()),
            Query::Range(quantity) => Ok(range(self.ranges(), *quantity)),
            Query::Totals => totals_answer(&self.overlay, self.reports.totals()),
            Query::Slice(k) => slice_answer(room, &mut self.overlay, *k),
            Query::Faults => faults_answer(room, &self.overlay, self.reports.triples()),
            Query::Problems => {
                let grid = self.reports.grid();
                let triples = self.reports.triples();
                let overlay = &mut self.overlay;
                problems_answer(room, overlay, &self.fields, grid, triples)
            }
            Query::Survey => survey_answer(room, &self.overlay, self.reports.grid()),
            Query::Lines(b) => lines_answer(room, &self.overlay, *b),
            Query::Table(a, b, fields) => {
                let overlay = &mut self.overlay;
                table_answer(room, overlay, &self.fields, *a, *b, fields.as_slice())
            }
            Query::Find(a, b, field, low, high) => {
                let overlay = &mut self.overlay;
                found_answer(room, overlay, &self.fields, *a, *b, field, *low, *high)
            }
            Query::Header(p) => header_answer(room, &mut self.overlay, &self.fields, *p),
            Query::Extremes(a, b) => {
                extremes_answer(room, &mut self.overlay, &self.fields, *a, *b)
            }
            Query::OfChosen(chosen, query) => {
                chosen_answer(room, &mut self.overlay, &self.fields, chosen, query)
            }
        }
    }

    /// Trace p, counted from 1, and one look more; None where there is none, and then no look. On
    /// disk the trace is read, and refused where the file fails or gives other bytes than it gave
    /// when it was loaded, as far as its length tells: only where a read failed, or gave others.
    /// Takes no memory.
    pub fn look(&mut self, p: u32) -> Result<Option<TraceView<'_>>, ReadFault>
        ensures* ends { sem 𝓛 (EndsLooked self.entry p result) }
        ensures there { IfOk result
            (λ view. IsSome view ↔ IsTrue (is_trace self.old.state.volume p)) }
        ensures shape { IfOk result (λ view. IfSome view (HasShapeOf self.old.state.volume p)) }
        ensures read { IfErr result (λ _. IsTrue (is_trace self.old.state.volume p)
            × IsTrue self.old.state.on_disk) }
    {
        self.overlay.look(p)
    }

    /// Ends the volume: gives back its memory, and closes a file on disk. Who owns one ends it by
    /// this, since each crate that drops one proves anew how its parts are dropped.
    pub fn close(self) {
        self.overlay.close();
        self.reports.close();
    }

    /// Writes the file as it is now. Refused where the writer failed, or on disk where a read of
    /// the loaded bytes did; `written` is then the length of the prefix that the writer took. Takes
    /// no memory.
    pub fn save<W: Write>(&mut self, writer: &mut Sink<W>) -> Result<(), SaveFault>
        ensures saved { HaveAgreed self.new.reads → Saves (W.contents writer.old.inner)
            (W.contents writer.new.inner) (bytes_of self.old.state.volume) result }
        ensures read { IfErr result
            (λ fault. IsSome fault.read → IsTrue self.old.state.on_disk) }
        ensures reads_tell { IfErr result (λ fault. IfSome fault.read
            (IsFaultOfLook self.old.reads self.new.reads)) }
        ensures failures { CountsSaveFailure result writer.old.failures writer.new.failures }
        ensures unchanged { self.new.state ≡ self.old.state }
        ensures reads { Follow self.old.reads self.new.reads }
        ensures loaded { self.new.loaded ≡ self.old.loaded }
        ensures looks { self.new.looks ≡ self.old.looks }
    {
        self.overlay.write_to(writer)
    }

    /// The loaded file with the edits over it. Takes no memory, and looks at no trace.
    pub fn overlay(&self) -> &Overlay<PackedRecord>
        ensures volume { result.now.volume ≡ self.now.state.volume }
        ensures loaded { result.now.loaded.bytes ≡ self.now.loaded }
        ensures place { result.now.loaded.on_disk ≡ self.now.state.on_disk }
    {
        &self.overlay
    }

    /// The number of traces.
    pub fn count(&self) -> u32
        ensures { result ≡ count_of self.now.state.volume }
    {
        self.overlay.count()
    }

    /// How often traces were looked at since the file was loaded; stays at `u64::MAX` once there.
    /// Takes no memory.
    pub fn looks(&self) -> u64
        ensures { result ≡ self.now.looks }
    {
        self.overlay.looks()
    }

    /// The file's length in bytes.
    pub fn length(&self) -> u64
        ensures { result ≡ length (bytes_of self.now.state.volume) }
    {
        self.overlay.length()
    }
}
