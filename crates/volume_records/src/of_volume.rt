ghost use Rattle.std.specs.Prelude.{◌≡◌, ◌<◌, ◌+◌, ◌^◌, [], IfOk, OnOk, length, map, IsErr};
ghost use Rattle.room.specs.Refusals.{Rises};
ghost use Rattle.frame_cut.specs.Traces.{count_of, trace_at};
ghost use Rattle.frame_cut.specs.Volume.{bytes_of};
ghost use Rattle.trace_record.specs.Facts.{facts_of};
ghost use Rattle.trace_record.specs.OfTrace.{record_of as record_of_trace};
ghost use Rattle.trace_record.specs.Packed.{record_in};
ghost use Rattle.edit_overlay.specs.CountedVolume.{RisesAtMost};
ghost use Rattle.volume_loading.specs.LoadedVolume.{with_next_look};
ghost use Rattle.live_reports.specs.OfRecords.{AreReportsOf};
ghost use Rattle.volume_records.specs.OfVolume.{IsOfFile, records_of};

use edit_overlay::Overlay;
use field_map::FieldMap;
use live_reports::LiveReports;
use record_table::Records;
use room::{OutOfMemory, Room};
use trace_record::{PackedRecord, Record, record_of};
use volume_loading::Loading;

/// The volume of a file that is being loaded, of which no trace has a record yet, under a map for
/// the file: the record of each of its traces stands beside the trace then, and the reports have
/// counted them. One look at each trace. Takes memory for the order of the traces and for what the
/// reports hold; refused for want of it alone.
pub fn with_records(
    room: &mut Room,
    loading: Loading<PackedRecord>,
    fields: &FieldMap,
) -> Result<(Overlay<PackedRecord>, LiveReports), OutOfMemory>
    requires file { IsOfFile loading.volume }
    requires none { loading.payloads ≡ [] }
    requires fields { fields.now.extensions ≡ loading.volume.head.extensions }
    ensures records { IfOk result (λ r. map facts_of (map record_in r.0.payloads) ≡
        records_of loading.volume fields.now.pairs) }
    ensures reports { IfOk result (λ r. AreReportsOf r.1 (map record_in r.0.payloads)) }
    ensures volume { IfOk result (λ r. r.0.volume ≡ loading.volume) }
    ensures bytes { IfOk result (λ r. r.0.loaded.bytes ≡ bytes_of r.0.volume) }
    ensures prepared { IfOk result (λ r. r.0.prepared ≡ loading.volume) }
    ensures looks { IfOk result
        (λ r. RisesAtMost loading.looks r.0.looks (count_of loading.volume)) }
    ensures standing { IfOk result (λ r. (r.0.loaded ≡ loading.loaded) ×
        (r.0.reads ≡ loading.reads)) }
    ensures memory { Rises (IsErr result) room.old room.new }
{
    let mut loading = loading;
    match push_records(room, &mut loading, fields) {
        Ok(()) => {}
        Err(refused) => {
            loading.close();
            return Err(refused);
        }
    }
    let overlay = loading.finish();
    match LiveReports::from_records(room, &Records::new(overlay.payloads())) {
        Ok(reports) => Ok((overlay, reports)),
        Err(_refused) => {
            overlay.close();
            Err(OutOfMemory)
        }
    }
}

// Gives each trace its record.
fn push_records(
    room: &mut Room,
    loading: &mut Loading<PackedRecord>,
    fields: &FieldMap,
) -> Result<(), OutOfMemory>
    requires none { loading.old.payloads ≡ [] }
    requires fields { fields.now.extensions ≡ loading.old.volume.head.extensions }
    ensures records { OnOk result (map facts_of (map record_in loading.new.payloads) ≡
        records_of loading.old.volume fields.now.pairs) }
    ensures few { count_of loading.old.volume < 2 ^ 32 }
    ensures volume { loading.new.volume ≡ loading.old.volume }
    ensures looks { RisesAtMost loading.old.looks loading.new.looks (count_of loading.old.volume) }
    ensures loaded { loading.new.loaded ≡ loading.old.loaded }
    ensures reads { loading.new.reads ≡ loading.old.reads }
    ensures memory { Rises (IsErr result) room.old room.new }
{
    for _k in 0..loading.count() {
        let record = next_record(loading, fields);
        loading.push(room, PackedRecord::of(record))?;
    }
    Ok(())
}

// The record of the first trace that has none yet.
fn next_record(loading: &mut Loading<PackedRecord>, fields: &FieldMap) -> Record
    requires left { length loading.old.payloads < count_of loading.old.volume }
    requires fields { fields.now.extensions ≡ loading.old.volume.head.extensions }
    ensures record { facts_of result ≡ record_of_trace loading.old.volume.head fields.now.pairs
        (trace_at loading.old.volume (length loading.old.payloads + 1)) }
    ensures loading { loading.new ≡ with_next_look loading.old }
{
    fields.geometry_stands();
    let Some(trace) = loading.next_trace() else {
        unreachable!()
    };
    record_of(&trace, fields)
}
