// Edits of the traces that conditions choose. Numbers are given to them by the edits of traces that
// follow one another: they are brought to the front of the file, in their order, and afterwards all
// back to where they stood.
ghost use Rattle.std.specs.Prelude.{◌≡◌, ◌*◌, ◌<◌, [], length, true, None, is_some, IfOk, IfErr, OnOk, OnErr, IsErrOf, ◌≢◌, IfSome};
ghost use Rattle.room.specs.Refusals.{Rises};
ghost use Rattle.frame_cut.specs.Cuts.{IsCut};
ghost use Rattle.frame_cut.specs.Traces.{count_of};
ghost use Rattle.edit_overlay.specs.CountedVolume.{RisesAtMost};
ghost use Rattle.edit_overlay.specs.Reads.{Follow, HaveAgreed};
ghost use Rattle.bench_rules.specs.declared.chosen_edit.ChosenEdit.TheVariants as chosen_edits;
ghost use Rattle.bench_rules.specs.declared.edit.Edit.TheVariants as edits;
ghost use Rattle.bench_rules.specs.ChosenEdits.{bytes_after_each, count_told, has_fields as has_fields_of, refusal_of_edit, without_each};
ghost use Rattle.bench_rules.specs.Computed.{formula_of, term_of as term_of_operand};
ghost use Rattle.bench_rules.specs.Conditions.{AreRising};
ghost use Rattle.bench_rules.specs.Looks.{edit_looks, each_looks};
ghost use Rattle.bench_rules.specs.Places.{place_in_trace as place_of_field};
ghost use Rattle.bench_rules.specs.RangeRefusals.{range_refusal};
ghost use Rattle.bench_rules.specs.Steps.{Step};
ghost use Rattle.live_volume.specs.Chosen.{IsRefusedFor};
ghost use Rattle.live_volume.specs.Held.{with_volume, IsReadAs};
ghost use Rattle.bench_rules.specs.ReadFaults.{IsRefusalOfNoRead, IsRefusalOfReads};

use crate::live_volume::LiveVolume;
use bench_rules::{Chosen, ChosenEdit, Field, Operand, Operator, Refusal, term_of};
use chosen_traces::{choose, exchanges_back, exchanges_to_front, retold};
use many_traces::{have_places, have_terms, refusal_for};
use record_table::Records;
use room::Room;

impl LiveVolume {
    /// An edit of the traces that are chosen: done whole, and then how many they were, where there
    /// is a condition; or refused, and all is as it was. Refused, in this order: E01 for the first
    /// trace of the range, E01 for its last, E02, E12 and E03 of a condition, then what the edit
    /// refuses; E11 may come in the place of any but E01. On disk also where a trace could not be
    /// read (E14, E15).
    pub fn apply_chosen(
        &mut self,
        room: &mut Room,
        chosen: &Chosen,
        edit: &ChosenEdit,
    ) -> Result<Option<u32>, Refusal>
        ensures step { HaveAgreed self.new.reads →
            Step self.old.state (edits.OfChosen chosen.now edit.now) result self.new.state }
        ensures told { IfOk result (λ told. HaveAgreed self.new.reads → told ≡ count_told
            self.old.state.volume self.old.state.fields chosen.now) }
        ensures err { OnErr result (self.new.state ≡ self.old.state) }
        ensures same { IsReadAs self.old.state self.new.state }
        ensures reads { Follow self.old.reads self.new.reads }
        ensures reads_tell { IfErr result (IsRefusalOfReads self.old.reads self.new.reads) }
        ensures loaded { self.new.loaded ≡ self.old.loaded }
        ensures looks { RisesAtMost self.old.looks self.new.looks
            (edit_looks self.old.state (edits.OfChosen chosen.now edit.now)) }
        ensures memory { Rises (IsErrOf result Refusal.OutOfMemory) room.old room.new }
    {
        if let Some(refusal) = self.no_range(chosen.traces) {
            return Err(refusal);
        }
        if !self.has_fields(edit) {
            return Err(Refusal::NoField);
        }
        self.stands();
        let traces = match choose(room, &mut self.overlay, &self.fields, chosen) {
            Ok(traces) => traces,
            Err(fault) => return Err(refusal_for(fault)),
        };
        self.edit_each(room, traces.as_slice(), edit)?;
        if chosen.conditions.as_slice().is_empty() {
            Ok(None)
        } else {
            Ok(Some(traces.len() as u32))
        }
    }

    // The refusal of a range of traces: E01. Of none there is none.
    fn no_range(&self, traces: Option<(u32, u32)>) -> Option<Refusal>
        ensures refusal { result ≡ range_refusal self.now.state.volume traces }
        ensures rule { IfSome result IsRefusalOfNoRead }
    {
        let (first, last) = traces?;
        self.range_refusal(first, last)
    }

    // Whether each field of the edit has a place.
    fn has_fields(&self, edit: &ChosenEdit) -> bool
        ensures { result ≡ has_fields_of self.now.state.fields edit.now }
    {
        match edit {
            ChosenEdit::Nothing(fields) => have_places(&self.fields, fields.as_slice()),
            ChosenEdit::Renumber { field, .. } => self.place_in_trace(field).is_some(),
            ChosenEdit::Compute {
                field,
                source,
                steps,
            } => {
                self.place_in_trace(field).is_some()
                    && self.has_term(source)
                    && have_terms(&self.fields, steps.as_slice())
            }
            ChosenEdit::Delete => true,
            ChosenEdit::Swap(first, second) => {
                self.place_in_trace(first).is_some() && self.place_in_trace(second).is_some()
            }
            ChosenEdit::Fill { .. } => true,
        }
    }

    // The edit of these traces, which rise: done whole, or refused, and all is as it was.
    fn edit_each(
        &mut self,
        room: &mut Room,
        traces: &[u32],
        edit: &ChosenEdit,
    ) -> Result<(), Refusal>
        requires rising { AreRising 1 (count_of self.old.state.volume) traces.now }
        requires fields { has_fields_of self.old.state.fields edit.now ≡ true }
        ensures none { OnOk result (HaveAgreed self.new.reads → refusal_of_edit
            self.old.state.volume self.old.state.fields edit.now traces.now ≡ None) }
        ensures cut { OnOk result (HaveAgreed self.new.reads → IsCut (bytes_after_each
            self.old.state.volume self.old.state.fields edit.now traces.now)
            self.old.state.reading self.old.state.limits self.new.state.volume) }
        ensures fields { OnOk result (HaveAgreed self.new.reads →
            self.new.state.fields ≡ self.old.state.fields) }
        ensures err { IfErr result (λ refusal. HaveAgreed self.new.reads →
            IsRefusedFor self.old.state edit.now traces.now refusal) }
        ensures unchanged { OnErr result (self.new.state ≡ self.old.state) }
        ensures same { IsReadAs self.old.state self.new.state }
        ensures reads { Follow self.old.reads self.new.reads }
        ensures reads_tell { IfErr result (IsRefusalOfReads self.old.reads self.new.reads) }
        ensures loaded { self.new.loaded ≡ self.old.loaded }
        ensures looks { RisesAtMost self.old.looks self.new.looks
            (each_looks self.old.state.fields edit.now (length traces.now)) }
        ensures memory { Rises (IsErrOf result Refusal.OutOfMemory) room.old room.new }
    {
        self.stands();
        if traces.is_empty() {
            return match self.refusal_of_none(edit) {
                Some(refusal) => Err(refusal),
                None => Ok(()),
            };
        }
        match edit {
            ChosenEdit::Nothing(_) => Ok(()),
            ChosenEdit::Renumber {
                field,
                first_value,
                step,
            } => self.renumber_each(room, traces, field, *first_value, *step),
            ChosenEdit::Compute {
                field,
                source,
                steps,
            } => self.compute_each(room, traces, field, source, steps.as_slice()),
            ChosenEdit::Delete => {
                self.delete_each(traces);
                Ok(())
            }
            ChosenEdit::Swap(first, second) => self.swap_each(room, traces, first, second),
            ChosenEdit::Fill {
                first_sample,
                last_sample,
                value,
            } => self.fill_each(room, traces, *first_sample, *last_sample, *value),
        }
    }

    // What the edit refuses where no trace is chosen: a value for samples, E12 and E04.
    fn refusal_of_none(&self, edit: &ChosenEdit) -> Option<Refusal>
        ensures refusal { result ≡ refusal_of_edit self.now.state.volume self.now.state.fields
            edit.now [] }
        ensures other { IfSome result (λ refusal. refusal ≢ Refusal.OutOfMemory) }
        ensures rule { IfSome result IsRefusalOfNoRead }
    {
        match edit {
            ChosenEdit::Fill { value, .. } => self.sample_value_refusal(*value),
            _ => None,
        }
    }

    // Whether the operand is a number, or its field has a place.
    fn has_term(&self, operand: &Operand) -> bool
        ensures { result ≡ is_some (term_of_operand self.now.state.fields operand.now) }
    {
        term_of(&self.fields, operand).is_some()
    }

    // The field of these traces counted up, in their order.
    fn renumber_each(
        &mut self,
        room: &mut Room,
        traces: &[u32],
        field: &Field,
        first: i128,
        step: i128,
    ) -> Result<(), Refusal>
        requires rising { AreRising 1 (count_of self.old.state.volume) traces.now }
        requires some { 0 < length traces.now }
        requires field { is_some (place_of_field self.old.state.fields field.now) ≡ true }
        ensures none { OnOk result (HaveAgreed self.new.reads → refusal_of_edit
            self.old.state.volume self.old.state.fields
            (chosen_edits.Renumber field.now first step) traces.now ≡ None) }
        ensures cut { OnOk result (HaveAgreed self.new.reads → IsCut (bytes_after_each
            self.old.state.volume self.old.state.fields
            (chosen_edits.Renumber field.now first step) traces.now)
            self.old.state.reading self.old.state.limits self.new.state.volume) }
        ensures fields { OnOk result (HaveAgreed self.new.reads →
            self.new.state.fields ≡ self.old.state.fields) }
        ensures err { IfErr result (λ refusal. HaveAgreed self.new.reads → IsRefusedFor
            self.old.state (chosen_edits.Renumber field.now first step) traces.now refusal) }
        ensures unchanged { OnErr result (self.new.state ≡ self.old.state) }
        ensures same { IsReadAs self.old.state self.new.state }
        ensures reads { Follow self.old.reads self.new.reads }
        ensures reads_tell { IfErr result (IsRefusalOfReads self.old.reads self.new.reads) }
        ensures loaded { self.new.loaded ≡ self.old.loaded }
        ensures looks { RisesAtMost self.old.looks self.new.looks (each_looks
            self.old.state.fields (chosen_edits.Renumber field.now first step)
            (length traces.now)) }
        ensures memory { Rises (IsErrOf result Refusal.OutOfMemory) room.old room.new }
    {
        self.stands();

        // Read for the proof alone, which learns that the traces are counted in 32 bits.
        let _count = self.count();
        let forth = exchanges_to_front(room, traces)?;
        let back = exchanges_back(room, traces)?;
        self.exchange_pairs(forth);
        let done = self.renumber(room, 1, traces.len() as u32, field, first, step);
        self.exchange_pairs(back);
        match done {
            Ok(_) => Ok(()),
            Err(refusal) => Err(refusal),
        }
    }

    // The field of these traces computed.
    fn compute_each(
        &mut self,
        room: &mut Room,
        traces: &[u32],
        field: &Field,
        source: &Operand,
        steps: &[(Operator, Operand)],
    ) -> Result<(), Refusal>
        requires rising { AreRising 1 (count_of self.old.state.volume) traces.now }
        requires some { 0 < length traces.now }
        requires fields { is_some (formula_of self.old.state.fields field.now source.now steps.now)
            ≡ true }
        ensures none { OnOk result (HaveAgreed self.new.reads → refusal_of_edit
            self.old.state.volume self.old.state.fields
            (chosen_edits.Compute field.now source.now steps.now) traces.now ≡ None) }
        ensures cut { OnOk result (HaveAgreed self.new.reads → IsCut (bytes_after_each
            self.old.state.volume self.old.state.fields
            (chosen_edits.Compute field.now source.now steps.now) traces.now)
            self.old.state.reading self.old.state.limits self.new.state.volume) }
        ensures fields { OnOk result (HaveAgreed self.new.reads →
            self.new.state.fields ≡ self.old.state.fields) }
        ensures err { IfErr result (λ refusal. HaveAgreed self.new.reads → IsRefusedFor
            self.old.state (chosen_edits.Compute field.now source.now steps.now) traces.now
            refusal) }
        ensures unchanged { OnErr result (self.new.state ≡ self.old.state) }
        ensures same { IsReadAs self.old.state self.new.state }
        ensures reads { Follow self.old.reads self.new.reads }
        ensures reads_tell { IfErr result (IsRefusalOfReads self.old.reads self.new.reads) }
        ensures loaded { self.new.loaded ≡ self.old.loaded }
        ensures looks { RisesAtMost self.old.looks self.new.looks (2 * length traces.now) }
        ensures memory { Rises (IsErrOf result Refusal.OutOfMemory) room.old room.new }
    {
        self.stands();

        // Read for the proof alone, which learns that the traces are counted in 32 bits.
        let _count = self.count();
        let forth = exchanges_to_front(room, traces)?;
        let back = exchanges_back(room, traces)?;
        self.exchange_pairs(forth);
        let done = self.compute(room, 1, traces.len() as u32, field, source, steps);
        self.exchange_pairs(back);
        match done {
            Ok(_) => Ok(()),
            Err(refusal) => Err(retold(traces, refusal)),
        }
    }

    // These traces out, as if the last of them went first.
    fn delete_each(&mut self, traces: &[u32])
        requires { AreRising 1 (count_of self.old.state.volume) traces.now }
        ensures volume { self.new.state ≡ with_volume self.old.state
            (without_each self.old.state.volume traces.now) }
        ensures reads { Follow self.old.reads self.new.reads }
        ensures loaded { self.new.loaded ≡ self.old.loaded }
        ensures looks { self.new.looks ≡ self.old.looks }
    {
        self.reports
            .remove_each(&Records::new(self.overlay.payloads()), traces);
        self.overlay.delete_each(traces);
    }
}
