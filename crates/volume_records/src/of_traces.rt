ghost use Rattle.std.specs.Prelude.{◌≡◌, ◌+◌, ◌-◌, ◌/◌, ◌%◌, ◌<◌, ◌≤◌, ℕ, IfOk, IfErr, IsTrue, get_or, length, map, take, drop, IsErrOf};
ghost use Rattle.room.specs.Refusals.{Rises};
ghost use Rattle.frame_cut.specs.Traces.{count_of, trace_at};
ghost use Rattle.trace_record.specs.Facts.{facts_of};
ghost use Rattle.trace_record.specs.Packed.{record_in};
ghost use Rattle.trace_record.specs.Told.{tells_record};
ghost use Rattle.edit_overlay.specs.CountedVolume.{IsSeen};
ghost use Rattle.edit_overlay.specs.Reads.{HaveAgreed};
ghost use Rattle.volume_records.specs.Faults.{IsFaultOfRecords, IsOfRead};
ghost use Rattle.volume_records.specs.Laid.{AreLaid};
ghost use Rattle.volume_records.specs.OfVolume.{headers_of, records_of};

use crate::RecordsFault;
use crate::of_trace::{laid_headers, prepared_record};
use edit_overlay::Overlay;
use field_map::FieldMap;
use record_table::RecordList;
use room::Room;
use trace_record::PackedRecord;
use trace_store::part;

/// The records of so many traces from trace a on, counted from 1, as they would be with the edit
/// that is prepared, which lays the bytes over their headers, `size` of them over each, from place
/// `at` on, counted from 0 in the trace; but for the least, greatest, sum and number of their
/// samples, which are those of the records that stand beside them now.
///
/// No look where the record tells (`tells_record`): the bytes over each share none with the
/// coordinate scalar and with bytes 89-90, 115-118 and 233-240; and with each of inline, crossline,
/// offset, x, y and the sequence number (bytes 5-8) they share none, or are exactly its bytes. Else
/// at most one look at each trace, which reads no sample. Takes memory for the records; refused for
/// want of it, or on disk where a trace that is looked at could not be read, and the volume and
/// what is prepared stay as they are in any case.
pub fn prepared_records(
    room: &mut Room,
    overlay: &mut Overlay<PackedRecord>,
    fields: &FieldMap,
    a: u32,
    count: u32,
    at: u64,
    size: u32,
    bytes: &[u8],
) -> Result<RecordList, RecordsFault>
    requires first { 1 ≤ a }
    requires last { a - 1 + count ≤ count_of overlay.old.prepared }
    requires held { a - 1 + count ≤ count_of overlay.old.volume }
    requires fields { fields.now.extensions ≡ overlay.old.prepared.head.extensions }
    requires some { 0 < size }
    requires exact { length bytes.now % size ≡ 0 }
    requires parts { length bytes.now / size ≡ count }
    requires laid { HaveAgreed overlay.old.reads →
        AreLaid overlay.old fields.now.pairs a count at size bytes.now }
    ensures records { IfOk result (λ records. HaveAgreed overlay.new.reads →
        map facts_of records ≡ take count (drop (a - 1)
        (headers_of overlay.old.prepared fields.now.pairs
        (map facts_of (map record_in overlay.old.payloads))))) }
    ensures many { IfOk result (λ records. length records ≡ count) }
    ensures numbers { IfOk result (λ records. map (λ r. r.number) records ≡ take count (drop (a - 1)
        (map (λ r. r.number) (map record_in overlay.old.payloads)))) }
    ensures seen { IsSeen overlay.old overlay.new count }
    ensures told { IsTrue (tells_record fields.now.pairs at size) →
        (overlay.new ≡ overlay.old) × IfErr result (λ fault. IsOfRead fault → ⊥) }
    ensures read { IfErr result (λ fault. IsOfRead fault → IsTrue overlay.old.loaded.on_disk) }
    ensures fault { IfErr result (IsFaultOfRecords overlay.old.reads overlay.new.reads) }
    ensures memory { Rises (IsErrOf result RecordsFault.OutOfMemory) room.old room.new }
{
    // Read for the proof alone, which learns that the traces are counted in 32 bits.
    let _count = overlay.count();
    let mut records = RecordList::with_capacity(room, count as usize)?;
    for k in 0..count {
        let known = overlay.payload(a + k).record();
        let part = part(bytes, size, k as usize);
        let record = laid_headers(overlay, fields, a + k, &known, at, part)?;
        records.push(room, &record)?;
    }
    Ok(records)
}

/// The records of so many traces from trace a on, counted from 1, as they would be with the edit
/// that is prepared, whatever it is. One look at each trace, which reads its samples. Takes memory
/// for the records; refused for want of it, or on disk where a trace could not be read, and the
/// volume and what is prepared stay as they are in any case.
pub fn prepared_whole_records(
    room: &mut Room,
    overlay: &mut Overlay<PackedRecord>,
    fields: &FieldMap,
    a: u32,
    count: u32,
) -> Result<RecordList, RecordsFault>
    requires first { 1 ≤ a }
    requires last { a - 1 + count ≤ count_of overlay.old.prepared }
    requires held { a - 1 + count ≤ count_of overlay.old.volume }
    requires fields { fields.now.extensions ≡ overlay.old.prepared.head.extensions }
    ensures records { IfOk result (λ records. HaveAgreed overlay.new.reads →
        map facts_of records ≡ take count (drop (a - 1)
        (records_of overlay.old.prepared fields.now.pairs))) }
    ensures many { IfOk result (λ records. length records ≡ count) }
    ensures few { IfOk result (λ records. (k : ℕ) → k < count →
        get_or (map (λ r. r.number) records) k 0 ≤
        length (trace_at overlay.old.prepared (a + k))) }
    ensures seen { IsSeen overlay.old overlay.new count }
    ensures read { IfErr result (λ fault. IsOfRead fault → IsTrue overlay.old.loaded.on_disk) }
    ensures fault { IfErr result (IsFaultOfRecords overlay.old.reads overlay.new.reads) }
    ensures memory { Rises (IsErrOf result RecordsFault.OutOfMemory) room.old room.new }
{
    // Read for the proof alone, which learns that the traces are counted in 32 bits.
    let _count = overlay.count();
    let mut records = RecordList::with_capacity(room, count as usize)?;
    for k in 0..count {
        let record = prepared_record(overlay, fields, a + k)?;
        records.push(room, &record)?;
    }
    Ok(records)
}
