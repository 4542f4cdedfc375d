ghost use Rattle.std.specs.Prelude.{◌≡◌, ◌≤◌, length, IfOk, IfErr, IfSome, IsOk, IsSome, IsTrue};
ghost use Rattle.frame_cut.specs.Cuts.{IsTrace};
ghost use Rattle.frame_cut.specs.Traces.{is_trace, trace_at};
ghost use Rattle.trace_record.specs.Facts.{facts_of, with_samples_of};
ghost use Rattle.trace_record.specs.OfTrace.{record_of as record_of_trace};
ghost use Rattle.trace_record.specs.Told.{tells_record};
ghost use Rattle.edit_overlay.specs.CountedVolume.{after_look, IsSeen};
ghost use Rattle.edit_overlay.specs.Reads.{Follow, HaveAgreed, IsFaultOfLook};
ghost use Rattle.volume_records.specs.Laid.{HasSamplesOf, IsLaid};

use crate::laid::laid_record;
use edit_overlay::{Overlay, ReadFault};
use field_map::FieldMap;
use frame_cut::Head;
use trace_record::{PackedRecord, Record, record_of, record_with_samples_of};
use trace_view::TraceView;

/// The record of trace p, counted from 1, as it would be with the edit that is prepared, under a
/// map for the file. One look, which may be refused where the volume's bytes are on disk. Takes no
/// memory.
pub fn prepared_record(
    overlay: &mut Overlay<PackedRecord>,
    fields: &FieldMap,
    p: u32,
) -> Result<Record, ReadFault>
    requires trace { IsTrue (is_trace overlay.old.prepared p) }
    requires fields { fields.now.extensions ≡ overlay.old.prepared.head.extensions }
    ensures record { IfOk result (λ r. HaveAgreed overlay.new.reads →
        facts_of r ≡ record_of_trace overlay.old.prepared.head fields.now.pairs
        (trace_at overlay.old.prepared p)) }
    ensures few { IfOk result (λ r. r.number ≤ length (trace_at overlay.old.prepared p)) }
    ensures looked { overlay.new ≡ after_look overlay.old overlay.new.reads }
    ensures reads { Follow overlay.old.reads overlay.new.reads }
    ensures read { IfErr result (λ _. IsTrue overlay.old.loaded.on_disk) }
    ensures fault { IfErr result (IsFaultOfLook overlay.old.reads overlay.new.reads) }
{
    fields.geometry_stands();
    let Some(trace) = overlay.look_prepared(p)? else {
        unreachable!()
    };
    Ok(record_of(&trace, fields))
}

/// The record of trace p, counted from 1, as it would be with the edit that is prepared, but for
/// the amplitudes and the number of its samples, which are those of another record. For an
/// edit of headers alone. One look, which reads no sample, and may be refused where the volume's
/// bytes are on disk. Takes no memory.
pub fn prepared_headers(
    overlay: &mut Overlay<PackedRecord>,
    fields: &FieldMap,
    p: u32,
    samples: &Record,
) -> Result<Record, ReadFault>
    requires trace { IsTrue (is_trace overlay.old.prepared p) }
    requires fields { fields.now.extensions ≡ overlay.old.prepared.head.extensions }
    ensures record { IfOk result (λ r. HaveAgreed overlay.new.reads → facts_of r ≡ with_samples_of
        (record_of_trace overlay.old.prepared.head fields.now.pairs
        (trace_at overlay.old.prepared p)) (facts_of samples.now)) }
    ensures number { IfOk result (λ r. r.number ≡ samples.now.number) }
    ensures looked { overlay.new ≡ after_look overlay.old overlay.new.reads }
    ensures reads { Follow overlay.old.reads overlay.new.reads }
    ensures read { IfErr result (λ _. IsTrue overlay.old.loaded.on_disk) }
    ensures fault { IfErr result (IsFaultOfLook overlay.old.reads overlay.new.reads) }
{
    fields.geometry_stands();
    let Some(headers) = overlay.look_prepared(p)? else {
        unreachable!()
    };
    Ok(record_with_samples_of(&headers, fields, samples))
}

/// The record of trace p, counted from 1, as it would be with the edit that is prepared, which lays
/// these bytes over its headers from place `at` on, counted from 0, but for the amplitudes and the
/// number of its samples, which are those of the record that it had.
///
/// No look where the record tells (`tells_record`): the bytes share none with the coordinate scalar
/// and with bytes 89-90, 115-118 and 233-240; and with each of inline, crossline, offset, x, y and
/// the sequence number (bytes 5-8) they share none, or are exactly its bytes. Else one look, which
/// reads no sample, and may be refused where the volume's bytes are on disk. Takes no memory.
pub fn laid_headers(
    overlay: &mut Overlay<PackedRecord>,
    fields: &FieldMap,
    p: u32,
    known: &Record,
    at: u64,
    bytes: &[u8],
) -> Result<Record, ReadFault>
    requires trace { IsTrue (is_trace overlay.old.prepared p) }
    requires fields { fields.now.extensions ≡ overlay.old.prepared.head.extensions }
    requires laid { HaveAgreed overlay.old.reads → IsLaid overlay.old.volume overlay.old.prepared
        fields.now.pairs p at bytes.now known.now }
    ensures record { IfOk result (λ r. HaveAgreed overlay.new.reads → facts_of r ≡ with_samples_of
        (record_of_trace overlay.old.prepared.head fields.now.pairs
        (trace_at overlay.old.prepared p)) (facts_of known.now)) }
    ensures number { IfOk result (λ r. r.number ≡ known.now.number) }
    ensures seen { IsSeen overlay.old overlay.new 1 }
    ensures told { IsTrue (tells_record fields.now.pairs at (length bytes.now)) →
        IsOk result × (overlay.new ≡ overlay.old) }
    ensures read { IfErr result (λ _. IsTrue overlay.old.loaded.on_disk) }
    ensures fault { IfErr result (IsFaultOfLook overlay.old.reads overlay.new.reads) }
{
    let order = overlay.head().order;
    match laid_record(known, order, fields, at, bytes) {
        Some(record) => Ok(record),
        None => prepared_headers(overlay, fields, p, known),
    }
}

/// The record of trace p, counted from 1, as it would be with the edit that is prepared, which lays
/// these bytes over it from place `at` on, counted from 0. `known` is the record that the trace
/// had, given only where the edit leaves its samples: then no sample is read, and no look is taken
/// where it tells the new one, as for [`laid_headers`]. Else one look, which may be refused where
/// the volume's bytes are on disk. Takes no memory.
pub fn record_after(
    overlay: &mut Overlay<PackedRecord>,
    fields: &FieldMap,
    p: u32,
    at: u64,
    bytes: &[u8],
    known: Option<Record>,
) -> Result<Record, ReadFault>
    requires trace { IsTrue (is_trace overlay.old.prepared p) }
    requires fields { fields.now.extensions ≡ overlay.old.prepared.head.extensions }
    requires laid { HaveAgreed overlay.old.reads → IfSome known (IsLaid overlay.old.volume
        overlay.old.prepared fields.now.pairs p at bytes.now) }
    requires samples { HaveAgreed overlay.old.reads → IfSome known (HasSamplesOf
        overlay.old.prepared.head fields.now.pairs (trace_at overlay.old.prepared p)) }
    requires few { IfSome known (λ r. r.number ≤ length (trace_at overlay.old.prepared p)) }
    ensures record { IfOk result (λ r. HaveAgreed overlay.new.reads →
        facts_of r ≡ record_of_trace overlay.old.prepared.head fields.now.pairs
        (trace_at overlay.old.prepared p)) }
    ensures few { IfOk result (λ r. r.number ≤ length (trace_at overlay.old.prepared p)) }
    ensures seen { IsSeen overlay.old overlay.new 1 }
    ensures read { IfErr result (λ _. IsTrue overlay.old.loaded.on_disk) }
    ensures fault { IfErr result (IsFaultOfLook overlay.old.reads overlay.new.reads) }
    ensures told { IsSome known → IsTrue (tells_record fields.now.pairs at (length bytes.now)) →
        IsOk result × (overlay.new ≡ overlay.old) }
{
    match known {
        Some(known) => laid_headers(overlay, fields, p, &known, at, bytes),
        None => prepared_record(overlay, fields, p),
    }
}

/// The record of a whole trace in memory that no volume holds yet, under the head of a file and a
/// map for the file. No look. Takes no memory.
pub fn record_of_bytes(head: &Head, bytes: &[u8], fields: &FieldMap) -> Record
    requires whole { IsTrace head.now bytes.now }
    requires fields { fields.now.extensions ≡ head.now.extensions }
    ensures { facts_of result ≡ record_of_trace head.now fields.now.pairs bytes.now }
{
    fields.geometry_stands();
    let whole = TraceView::new(head, bytes, &[]);
    record_of(&whole, fields)
}
