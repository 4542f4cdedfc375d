// Other records beside the traces of a volume.
ghost use Rattle.std.specs.Prelude.{◌≡◌, ◌+◌, ◌-◌, ◌^◌, ◌<◌, ◌≤◌, ℕ, [], IfOk, IfErr, OnOk, OnErr, IsTrue, length, map, slice_index_or, IsErr, IsErrOf};
ghost use Rattle.room.specs.Refusals.{Rises};
ghost use Rattle.frame_cut.specs.Traces.{count_of, is_trace, trace_at};
ghost use Rattle.frame_cut.specs.Volume.{bytes_of};
ghost use Rattle.trace_record.specs.Facts.{facts_of};
ghost use Rattle.trace_record.specs.OfTrace.{record_of as record_of_trace};
ghost use Rattle.trace_record.specs.Packed.{record_in};
ghost use Rattle.edit_overlay.specs.CountedVolume.{RisesAtMost, after_look};
ghost use Rattle.edit_overlay.specs.Reads.{Follow, HaveAgreed, IsFaultOfLook};
ghost use Rattle.live_reports.specs.Exchanged.{with_records};
ghost use Rattle.live_reports.specs.OfRecords.{AreReportsOf};
ghost use Rattle.volume_records.specs.Faults.{IsFaultOfRecords, IsOfRead};
ghost use Rattle.volume_records.specs.OfVolume.{numbers_of, records_of};

use crate::RecordsFault;
use edit_overlay::{Overlay, ReadFault};
use field_map::FieldMap;
use live_reports::LiveReports;
use record_table::{RecordList, Records};
use room::{OutOfMemory, Room};
use trace_record::{PackedRecord, Record, record_of};

/// Puts the records beside the traces from trace a on, which counts from 1, in place of those that
/// stand there. Nothing is prepared. Looks at no trace, and takes no memory.
pub fn set_records(overlay: &mut Overlay<PackedRecord>, a: u32, records: &RecordList)
    requires first { 1 ≤ a }
    requires last { a - 1 + length records.now ≤ count_of overlay.old.volume }
    requires held { a - 1 + length records.now ≤ length overlay.old.payloads }
    requires none { overlay.old.prepared ≡ overlay.old.volume }
    ensures records { map record_in overlay.new.payloads ≡ with_records
        (map record_in overlay.old.payloads) (a - 1) records.now }
    ensures volume { overlay.new.volume ≡ overlay.old.volume }
    ensures prepared { overlay.new.prepared ≡ overlay.old.volume }
    ensures looks { overlay.new.looks ≡ overlay.old.looks }
    ensures loaded { overlay.new.loaded ≡ overlay.old.loaded }
    ensures reads { overlay.new.reads ≡ overlay.old.reads }
{
    // Read for the proof alone, which learns that the traces are counted in 32 bits.
    let _count = overlay.count();
    for k in 0..records.len() {
        let Some(record) = records.packed(k) else {
            unreachable!()
        };
        overlay.set_payload(a + k as u32, record);
    }
}

/// Makes the record of each trace anew, under another map for the file, and the reports that have
/// counted them. Nothing is prepared. One look at each trace. Takes memory for a copy of the
/// records and for what the reports hold; refused for want of it, or on disk where a trace could
/// not be read, and then the records are as they were. The volume stays as
/// it is in any case.
pub fn remake(
    room: &mut Room,
    overlay: &mut Overlay<PackedRecord>,
    fields: &FieldMap,
) -> Result<LiveReports, RecordsFault>
    requires small { length (bytes_of overlay.old.volume) ≤ 2 ^ 40 }
    requires each { length overlay.old.payloads ≡ count_of overlay.old.volume }
    requires none { overlay.old.prepared ≡ overlay.old.volume }
    requires fields { fields.now.extensions ≡ overlay.old.volume.head.extensions }
    ensures records { OnOk result (HaveAgreed overlay.new.reads →
        map facts_of (map record_in overlay.new.payloads) ≡
        records_of overlay.old.volume fields.now.pairs) }
    ensures reports { IfOk result (λ r. AreReportsOf r (map record_in overlay.new.payloads)) }
    ensures within { OnOk result ((j : ℕ) → j < count_of overlay.old.volume →
        slice_index_or (numbers_of overlay.new.payloads) j 0 ≤
        length (slice_index_or overlay.old.volume.traces j [])) }
    ensures err { OnErr result
        (map record_in overlay.new.payloads ≡ map record_in overlay.old.payloads) }
    ensures read { IfErr result (λ fault. IsOfRead fault → IsTrue overlay.old.loaded.on_disk
        × (0 < count_of overlay.old.volume)) }
    ensures fault { IfErr result (IsFaultOfRecords overlay.old.reads overlay.new.reads) }
    ensures each { length overlay.new.payloads ≡ count_of overlay.old.volume }
    ensures volume { overlay.new.volume ≡ overlay.old.volume }
    ensures prepared { overlay.new.prepared ≡ overlay.old.volume }
    ensures loaded { overlay.new.loaded ≡ overlay.old.loaded }
    ensures looks { RisesAtMost overlay.old.looks overlay.new.looks (count_of overlay.old.volume) }
    ensures reads { Follow overlay.old.reads overlay.new.reads }
    ensures memory { Rises (IsErrOf result RecordsFault.OutOfMemory) room.old room.new }
{
    let held = copied(room, overlay)?;
    match remade(room, overlay, fields) {
        Ok(reports) => Ok(reports),
        Err(fault) => {
            set_records(overlay, 1, &held);
            Err(fault)
        }
    }
}

// Makes the records anew, and the reports of them.
fn remade(
    room: &mut Room,
    overlay: &mut Overlay<PackedRecord>,
    fields: &FieldMap,
) -> Result<LiveReports, RecordsFault>
    requires small { length (bytes_of overlay.old.volume) ≤ 2 ^ 40 }
    requires each { length overlay.old.payloads ≡ count_of overlay.old.volume }
    requires none { overlay.old.prepared ≡ overlay.old.volume }
    requires fields { fields.now.extensions ≡ overlay.old.volume.head.extensions }
    ensures records { OnOk result (HaveAgreed overlay.new.reads →
        map facts_of (map record_in overlay.new.payloads) ≡
        records_of overlay.old.volume fields.now.pairs) }
    ensures reports { IfOk result (λ r. AreReportsOf r (map record_in overlay.new.payloads)) }
    ensures within { OnOk result ((j : ℕ) → j < count_of overlay.old.volume →
        slice_index_or (numbers_of overlay.new.payloads) j 0 ≤
        length (slice_index_or overlay.old.volume.traces j [])) }
    ensures read { IfErr result (λ fault. IsOfRead fault → IsTrue overlay.old.loaded.on_disk
        × (0 < count_of overlay.old.volume)) }
    ensures fault { IfErr result (IsFaultOfRecords overlay.old.reads overlay.new.reads) }
    ensures each { length overlay.new.payloads ≡ count_of overlay.old.volume }
    ensures volume { overlay.new.volume ≡ overlay.old.volume }
    ensures prepared { overlay.new.prepared ≡ overlay.old.volume }
    ensures loaded { overlay.new.loaded ≡ overlay.old.loaded }
    ensures looks { RisesAtMost overlay.old.looks overlay.new.looks (count_of overlay.old.volume) }
    ensures reads { Follow overlay.old.reads overlay.new.reads }
    ensures memory { Rises (IsErrOf result RecordsFault.OutOfMemory) room.old room.new }
{
    renew(overlay, fields)?;
    Ok(LiveReports::from_records(room, &Records::new(overlay.payloads()))?)
}

// A copy of all records.
fn copied(room: &mut Room, overlay: &Overlay<PackedRecord>) -> Result<RecordList, OutOfMemory>
    ensures records { IfOk result (λ list. list ≡ map record_in overlay.now.payloads) }
    ensures memory { Rises (IsErr result) room.old room.new }
{
    let mut records = RecordList::with_capacity(room, overlay.count() as usize)?;
    for packed in overlay.payloads().iter() {
        records.push(room, &packed.record())?;
    }
    Ok(records)
}

// The record of each trace, under this map. Where a trace could not be read, the records of those
// in front of it are new.
fn renew(overlay: &mut Overlay<PackedRecord>, fields: &FieldMap) -> Result<(), ReadFault>
    requires each { length overlay.old.payloads ≡ count_of overlay.old.volume }
    requires none { overlay.old.prepared ≡ overlay.old.volume }
    requires fields { fields.now.extensions ≡ overlay.old.volume.head.extensions }
    ensures records { OnOk result (HaveAgreed overlay.new.reads →
        map facts_of (map record_in overlay.new.payloads) ≡
        records_of overlay.old.volume fields.now.pairs) }
    ensures within { OnOk result ((j : ℕ) → j < count_of overlay.old.volume →
        slice_index_or (numbers_of overlay.new.payloads) j 0 ≤
        length (slice_index_or overlay.old.volume.traces j [])) }
    ensures few { count_of overlay.old.volume < 2 ^ 32 }
    ensures read { IfErr result (λ _. IsTrue overlay.old.loaded.on_disk
        × (0 < count_of overlay.old.volume)) }
    ensures fault { IfErr result (IsFaultOfLook overlay.old.reads overlay.new.reads) }
    ensures each { length overlay.new.payloads ≡ count_of overlay.old.volume }
    ensures volume { overlay.new.volume ≡ overlay.old.volume }
    ensures prepared { overlay.new.prepared ≡ overlay.old.volume }
    ensures loaded { overlay.new.loaded ≡ overlay.old.loaded }
    ensures looks { RisesAtMost overlay.old.looks overlay.new.looks (count_of overlay.old.volume) }
    ensures reads { Follow overlay.old.reads overlay.new.reads }
{
    for k in 0..overlay.count() {
        let record = seen_record(overlay, fields, k + 1)?;
        overlay.set_payload(k + 1, PackedRecord::of(record));
    }
    Ok(())
}

// The record of trace p as it is. One look.
fn seen_record(
    overlay: &mut Overlay<PackedRecord>,
    fields: &FieldMap,
    p: u32,
) -> Result<Record, ReadFault>
    requires trace { IsTrue (is_trace overlay.old.volume p) }
    requires fields { fields.now.extensions ≡ overlay.old.volume.head.extensions }
    ensures record { IfOk result (λ r. HaveAgreed overlay.new.reads →
        facts_of r ≡ record_of_trace overlay.old.volume.head fields.now.pairs
        (trace_at overlay.old.volume p)) }
    ensures few { IfOk result (λ r. r.number ≤ length (trace_at overlay.old.volume p)) }
    ensures looked { overlay.new ≡ after_look overlay.old overlay.new.reads }
    ensures reads { Follow overlay.old.reads overlay.new.reads }
    ensures read { IfErr result (λ _. IsTrue overlay.old.loaded.on_disk) }
    ensures fault { IfErr result (IsFaultOfLook overlay.old.reads overlay.new.reads) }
{
    fields.geometry_stands();
    let Some(trace) = overlay.look(p)? else {
        unreachable!()
    };
    Ok(record_of(&trace, fields))
}
