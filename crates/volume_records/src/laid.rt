// The record of a trace with bytes laid over its headers, from the record that it had. No byte of
// the trace is needed where they leave alone what is seldom edited, and each of inline, crossline,
// offset, x, y and the sequence number (bytes 5-8) they leave alone or are exactly its bytes.
ghost use Rattle.std.specs.Prelude.{◌≡◌, ◌==◌, ◌&&◌, ◌⊎◌, length, true, is_some, IfSome};
ghost use Rattle.field_map.specs.Pairs.{signed_at};
ghost use Rattle.field_map.specs.Places.{offset_of};
ghost use Rattle.key_counts.specs.Parts.{FitsCoordinate};
ghost use Rattle.num_order.specs.Number.{num};
ghost use Rattle.num_order.specs.declared.kind.Kind.{Kind};
ghost use Rattle.trace_record.specs.NumberPlaces.{IsNumber};
ghost use Rattle.trace_record.specs.Told.{are_apart as are_apart_of, leaves, leaves_or_covers, tells_record};
ghost use Rattle.volume_records.specs.Laid.{IsCoordinateAfter, IsNumberAfter, IsNumberLaid, IsRecordAfter};

use field_map::{FieldMap, Place};
use key_counts::Ratio;
use num_order::{Kind, Order, i16_at, i32_at};
use trace_record::Record;

// The trace sequence number within the file, bytes 5-8.
const SEQUENCE: Place = Place {
    extension: 0,
    byte: 5,
    kind: Kind {
        size: 4,
        signed: true,
    },
};

// The record of a trace with the bytes laid over it from place `at` on, counted from 0, from the
// record that it had; the samples are those of the known record. None where the bytes share some
// bytes with a number's place and are not exactly its bytes, of inline, crossline, offset, x, y and
// the sequence number (bytes 5-8); or share some with what is seldom edited: the coordinate scalar,
// without which x and y are not known, bytes 89-90, 115-118 and 233-240.
pub(crate) fn laid_record(
    known: &Record,
    order: Order,
    fields: &FieldMap,
    at: u64,
    bytes: &[u8],
) -> Option<Record>
    ensures record { IfSome result
        (IsRecordAfter order fields.now.pairs at bytes.now known.now) }
    ensures number { IfSome result (λ r. r.number ≡ known.now.number) }
    ensures told { is_some result ≡ tells_record fields.now.pairs at (length bytes.now) }
{
    let places = fields.geometry();
    if !leave_rest(places.scalar, at, bytes) {
        return None;
    }
    let x = coordinate_after(order, places.x, known.x, known.scalar, at, bytes)?;
    let y = coordinate_after(order, places.y, known.y, known.scalar, at, bytes)?;
    let inline = number_after(order, places.inline, known.inline, at, bytes)?;
    let crossline = number_after(order, places.crossline, known.crossline, at, bytes)?;
    let offset = number_after(order, places.offset, known.offset, at, bytes)?;
    let sequence = number_after(order, SEQUENCE, known.sequence, at, bytes)?;
    Some(Record {
        amplitudes: known.amplitudes,
        x,
        y,
        inline,
        crossline,
        offset,
        sequence,
        number: known.number,
        scalar: known.scalar,
        units: known.units,
        interval: known.interval,
        samples_field: known.samples_field,
        has_known_name: known.has_known_name,
    })
}

// Whether the bytes leave the coordinate scalar alone, and bytes 89-90, 115-118 and 233-240 of the
// main header.
fn leave_rest(scalar: Place, at: u64, bytes: &[u8]) -> bool
    requires { IsNumber scalar }
    ensures { result ≡ (leaves at (length bytes.now) scalar
        && leaves at (length bytes.now) (signed_at 89 2)
        && leaves at (length bytes.now) (signed_at 115 2)
        && leaves at (length bytes.now) (signed_at 117 2)
        && leaves at (length bytes.now) (signed_at 233 8)) }
{
    let count = bytes.len() as u64;
    are_apart(at, count, scalar.offset(), scalar.kind.size)
        && are_apart(at, count, 89 - 1, 2)
        && are_apart(at, count, 115 - 1, 2)
        && are_apart(at, count, 117 - 1, 2)
        && are_apart(at, count, 233 - 1, 8)
}

// Whether so many bytes from place `at` on share none with so many others.
fn are_apart(at: u64, count: u64, start: u32, size: u8) -> bool
    ensures { result ≡ are_apart_of at count start size }
{
    let from = u64::from(start);
    from + u64::from(size) <= at || (at <= from && count <= from - at)
}

// The number at a place with the bytes laid over the trace, which had this one there; none where
// they share some bytes with the number's place and are not exactly its bytes.
fn number_after(order: Order, place: Place, known: i32, at: u64, bytes: &[u8]) -> Option<i32>
    requires { IsNumber place }
    ensures number { IfSome result (IsNumberAfter order place at bytes.now known) }
    ensures told { is_some result ≡ leaves_or_covers at (length bytes.now) place }
{
    if are_apart(at, bytes.len() as u64, place.offset(), place.kind.size) {
        return Some(known);
    }
    number_laid(order, place, at, bytes)
}

// The coordinate at a place, under a scalar that the bytes leave alone, with the bytes laid over
// the trace, which had this one there; none where they share some bytes with the number's place and
// are not exactly its bytes.
fn coordinate_after(
    order: Order,
    place: Place,
    known: Ratio,
    scalar: i16,
    at: u64,
    bytes: &[u8],
) -> Option<Ratio>
    requires { IsNumber place }
    ensures value { IfSome result (IsCoordinateAfter order place at bytes.now scalar known) }
    ensures size { FitsCoordinate known → IfSome result FitsCoordinate }
    ensures told { is_some result ≡ leaves_or_covers at (length bytes.now) place }
{
    if are_apart(at, bytes.len() as u64, place.offset(), place.kind.size) {
        return Some(known);
    }
    let number = number_laid(order, place, at, bytes)?;
    Some(Ratio::scaled(number, scalar))
}

// The number of the bytes, where they are exactly those of the place.
fn number_laid(order: Order, place: Place, at: u64, bytes: &[u8]) -> Option<i32>
    requires { IsNumber place }
    ensures number { IfSome result (IsNumberLaid order place at bytes.now) }
    ensures exact { is_some result ≡
        (at == offset_of place && length bytes.now == place.kind.size) }
{
    if at == u64::from(place.offset()) && bytes.len() == usize::from(place.kind.size) {
        Some(signed_number(order, bytes))
    } else {
        None
    }
}

// The signed number of two or four bytes.
fn signed_number(order: Order, bytes: &[u8]) -> i32
    requires { (length bytes.now ≡ 2) ⊎ (length bytes.now ≡ 4) }
    ensures { result ≡ num order (record { size = length bytes.now; signed = true }) bytes.now }
{
    if bytes.len() == 2 {
        i32::from(i16_at(order, bytes, 0))
    } else {
        i32_at(order, bytes, 0)
    }
}
