// The geometry names bound to several places at once.
ghost use Rattle.std.specs.Prelude.{◌≡◌, ◌≤◌, ◌<◌, ◌^◌, ℕ, [], length, map, slice_index_or, IsTrue, IfOk, IfErr, OnOk, OnErr, IsErrOf};
ghost use Rattle.room.specs.Refusals.{Rises};
ghost use Rattle.field_map.specs.Pairs.{rows_shown};
ghost use Rattle.frame_cut.specs.Traces.{count_of};
ghost use Rattle.frame_cut.specs.Volume.{bytes_of};
ghost use Rattle.trace_record.specs.Facts.{facts_of};
ghost use Rattle.trace_record.specs.Packed.{record_in};
ghost use Rattle.edit_overlay.specs.CountedVolume.{RisesAtMost};
ghost use Rattle.edit_overlay.specs.Reads.{Follow, HaveAgreed};
ghost use Rattle.live_reports.specs.OfRecords.{AreReportsOf};
ghost use Rattle.volume_records.specs.Faults.{IsFaultOfRecords, IsOfRead};
ghost use Rattle.volume_records.specs.OfVolume.{numbers_of, records_of};
ghost use Rattle.bench_rules.specs.declared.edit.Edit.TheVariants as edits;
ghost use Rattle.bench_rules.specs.Mappings.{MayBeBound, all_bound};
ghost use Rattle.bench_rules.specs.Steps.{Step};
ghost use Rattle.live_volume.specs.Held.{IsReadAs};
ghost use Rattle.bench_rules.specs.ReadFaults.{IsRefusalOfReads};

use crate::live_volume::LiveVolume;
use crate::volume_edits::refusal_of_records;
use bench_rules::{Mapping, Refusal, bindings};
use edit_overlay::Overlay;
use field_map::{FieldMap, Place};
use live_reports::LiveReports;
use room::Room;
use std::mem;
use trace_record::PackedRecord;
use volume_records::{RecordsFault, remake};

impl LiveVolume {
    // The names of the mapping bound to its places, one after another: done whole, or refused, and
    // all is as it was. Each trace is looked at once for its new record. Refused for want of memory
    // (E11), or on disk where a trace could not be read (E14, E15).
    pub(crate) fn map_as(&mut self, room: &mut Room, mapping: Mapping) -> Result<(), Refusal>
        ensures step { HaveAgreed self.new.reads →
            Step self.old.state (edits.MapAs mapping) result self.new.state }
        ensures err { OnErr result (self.new.state ≡ self.old.state) }
        ensures same { IsReadAs self.old.state self.new.state }
        ensures reads { Follow self.old.reads self.new.reads }
        ensures reads_tell { IfErr result (IsRefusalOfReads self.old.reads self.new.reads) }
        ensures loaded { self.new.loaded ≡ self.old.loaded }
        ensures looks { RisesAtMost self.old.looks self.new.looks
            (count_of self.old.state.volume) }
        ensures memory { Rises (IsErrOf result Refusal.OutOfMemory) room.old room.new }
    {
        self.fields.geometry_stands();
        let names = bindings(mapping);
        match remake_under(room, &mut self.overlay, &mut self.fields, names) {
            Ok(reports) => {
                mem::replace(&mut self.reports, reports).close();
                Ok(())
            }
            Err(fault) => Err(refusal_of_records(fault)),
        }
    }
}

// These geometry names bound to their places, one after another, and then the record of each trace
// made anew under them, and the reports of all. Where the records are refused, they are as they
// were, and each name gets the place again that it had, which takes no memory.
fn remake_under(
    room: &mut Room,
    overlay: &mut Overlay<PackedRecord>,
    fields: &mut FieldMap,
    names: &[(&str, Place)],
) -> Result<LiveReports, RecordsFault>
    requires small { length (bytes_of overlay.old.volume) ≤ 2 ^ 40 }
    requires each { length overlay.old.payloads ≡ count_of overlay.old.volume }
    requires none { overlay.old.prepared ≡ overlay.old.volume }
    requires fields { fields.old.extensions ≡ overlay.old.volume.head.extensions }
    requires names { MayBeBound fields.old.extensions (rows_shown names.now) }
    ensures bound { OnOk result
        (fields.new.pairs ≡ all_bound fields.old.pairs (rows_shown names.now)) }
    ensures kept { OnErr result (fields.new.pairs ≡ fields.old.pairs) }
    ensures extensions { fields.new.extensions ≡ fields.old.extensions }
    ensures records { OnOk result (HaveAgreed overlay.new.reads →
        map facts_of (map record_in overlay.new.payloads) ≡
        records_of overlay.old.volume fields.new.pairs) }
    ensures reports { IfOk result (λ r. AreReportsOf r (map record_in overlay.new.payloads)) }
    ensures within { OnOk result ((j : ℕ) → j < count_of overlay.old.volume →
        slice_index_or (numbers_of overlay.new.payloads) j 0 ≤
        length (slice_index_or overlay.old.volume.traces j [])) }
    ensures err { OnErr result
        (map record_in overlay.new.payloads ≡ map record_in overlay.old.payloads) }
    ensures read { IfErr result (λ fault. IsOfRead fault → IsTrue overlay.old.loaded.on_disk
        × (0 < count_of overlay.old.volume)) }
    ensures payloads { length overlay.new.payloads ≡ count_of overlay.old.volume }
    ensures volume { overlay.new.volume ≡ overlay.old.volume }
    ensures prepared { overlay.new.prepared ≡ overlay.old.volume }
    ensures loaded { overlay.new.loaded ≡ overlay.old.loaded }
    ensures looks { RisesAtMost overlay.old.looks overlay.new.looks (count_of overlay.old.volume) }
    ensures reads { Follow overlay.old.reads overlay.new.reads }
    ensures reads_tell { IfErr result (IsFaultOfRecords overlay.old.reads overlay.new.reads) }
    ensures memory { Rises (IsErrOf result RecordsFault.OutOfMemory) room.old room.new }
{
    let Some(((name, place), rest)) = names.split_first() else {
        return remake(room, overlay, fields);
    };
    fields.geometry_stands();
    let Some(old) = fields.place(name) else {
        unreachable!()
    };
    fields.set_geometry(name, *place);
    match remake_under(room, overlay, fields, rest) {
        Ok(reports) => Ok(reports),
        Err(fault) => {
            fields.set_geometry(name, old);
            Err(fault)
        }
    }
}
