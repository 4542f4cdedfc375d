// An edit that is prepared, made with the records of its traces and with the reports.
ghost use Rattle.std.specs.Prelude.{◌≡◌, ◌+◌, ◌-◌, ◌≤◌, OnErr, OnOk, length, map, slice_set, IsErr};
ghost use Rattle.room.specs.Refusals.{Rises};
ghost use Rattle.frame_cut.specs.Traces.{count_of};
ghost use Rattle.trace_record.specs.Packed.{record_in};
ghost use Rattle.edit_overlay.specs.CountedVolume.{with_volume};
ghost use Rattle.live_reports.specs.Exchanged.{with_records};
ghost use Rattle.live_reports.specs.OfRecords.{AreReportsOf};
ghost use Rattle.live_reports.specs.Reports.{AreFew};

use crate::set_records;
use edit_overlay::Overlay;
use live_reports::LiveReports;
use record_table::{RecordList, Records};
use room::{OutOfMemory, Room};
use trace_record::{PackedRecord, Record};

/// Makes the edit of trace p, counted from 1, that is prepared, puts this record beside the trace,
/// and counts it in the reports in the place of the one that stood there; or drops the edit where
/// memory is refused, and all is as it was. Looks at no trace.
pub fn commit_with_record(
    room: &mut Room,
    overlay: &mut Overlay<PackedRecord>,
    reports: &mut LiveReports,
    p: u32,
    trace: &Record,
) -> Result<(), OutOfMemory>
    requires first { 1 ≤ p }
    requires last { p ≤ count_of overlay.old.volume }
    requires held { p ≤ length overlay.old.payloads }
    requires stay { overlay.old.payloads_prepared ≡ overlay.old.payloads }
    requires counted { AreReportsOf reports.old (map record_in overlay.old.payloads) }
    requires few { AreFew (slice_set (map record_in overlay.old.payloads) (p - 1) trace.now) }
    ensures records { OnOk result (map record_in overlay.new.payloads ≡
        slice_set (map record_in overlay.old.payloads) (p - 1) trace.now) }
    ensures reports { OnOk result (AreReportsOf reports.new (map record_in overlay.new.payloads)) }
    ensures volume { OnOk result (overlay.new.volume ≡ overlay.old.prepared) }
    ensures err { OnErr result ((overlay.new ≡ with_volume overlay.old overlay.old.volume)
        × AreReportsOf reports.new (map record_in overlay.old.payloads)) }
    ensures prepared { overlay.new.prepared ≡ overlay.new.volume }
    ensures loaded { overlay.new.loaded ≡ overlay.old.loaded }
    ensures reads { overlay.new.reads ≡ overlay.old.reads }
    ensures looks { overlay.new.looks ≡ overlay.old.looks }
    ensures memory { Rises (IsErr result) room.old room.new }
{
    match reports.exchange(
        room,
        &Records::new(overlay.payloads()),
        p as usize - 1,
        trace,
    ) {
        Ok(()) => {
            overlay.commit_with(p, PackedRecord::of(*trace));
            Ok(())
        }
        Err(_) => {
            overlay.discard();
            Err(OutOfMemory)
        }
    }
}

/// The same of as many traces as there are records, from trace a on.
pub fn commit_with_records(
    room: &mut Room,
    overlay: &mut Overlay<PackedRecord>,
    reports: &mut LiveReports,
    a: u32,
    records: &RecordList,
) -> Result<(), OutOfMemory>
    requires first { 1 ≤ a }
    requires last { a - 1 + length records.now ≤ count_of overlay.old.prepared }
    requires held { a - 1 + length records.now ≤ length overlay.old.payloads }
    requires stay { overlay.old.payloads_prepared ≡ overlay.old.payloads }
    requires counted { AreReportsOf reports.old (map record_in overlay.old.payloads) }
    requires few { AreFew (with_records (map record_in overlay.old.payloads) (a - 1)
        records.now) }
    ensures records { OnOk result (map record_in overlay.new.payloads ≡
        with_records (map record_in overlay.old.payloads) (a - 1) records.now) }
    ensures reports { OnOk result (AreReportsOf reports.new (map record_in overlay.new.payloads)) }
    ensures volume { OnOk result (overlay.new.volume ≡ overlay.old.prepared) }
    ensures err { OnErr result ((overlay.new ≡ with_volume overlay.old overlay.old.volume)
        × AreReportsOf reports.new (map record_in overlay.old.payloads)) }
    ensures prepared { overlay.new.prepared ≡ overlay.new.volume }
    ensures loaded { overlay.new.loaded ≡ overlay.old.loaded }
    ensures reads { overlay.new.reads ≡ overlay.old.reads }
    ensures looks { overlay.new.looks ≡ overlay.old.looks }
    ensures memory { Rises (IsErr result) room.old room.new }
{
    match reports.exchange_each(
        room,
        &Records::new(overlay.payloads()),
        a as usize - 1,
        records,
    ) {
        Ok(()) => {
            overlay.commit();
            set_records(overlay, a, records);
            Ok(())
        }
        Err(_) => {
            overlay.discard();
            Err(OutOfMemory)
        }
    }
}
