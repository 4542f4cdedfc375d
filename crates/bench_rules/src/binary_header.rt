// A number in the binary header, by its place.
ghost use Rattle.std.specs.Prelude.{◌≡◌, ◌-◌, ◌≤◌, Some, None, if◌then◌else◌};
ghost use Rattle.num_order.specs.Number.{num};
ghost use Rattle.frame_cut.specs.BinaryHeader.{bin_bytes};
ghost use Rattle.bench_rules.specs.Places.{place_in_binary as binary_place_of, is_in_binary as is_in_binary_place, touches_frame as touches_frame_fields};
ghost use Rattle.bench_rules.specs.Refused.{set_bin_refusal as refusal_of_set_bin};

use crate::field::Field;
use crate::refusal::Refusal;
use field_map::{Place, bin_field};
use frame_cut::BINARY_HEADER_BYTES;
use num_order::{Order, fits, read};

/// The place of a field of the binary header, where it has one.
pub fn place_in_binary(field: &Field) -> Option<Place>
    ensures { result ≡ binary_place_of field.now }
{
    match field {
        Field::Place(place) => Some(*place),
        Field::Name(name) => bin_field(name.as_str()),
    }
}

// Whether it is the place of a number inside the binary header.
fn is_in_binary(place: Place) -> bool
    ensures { result ≡ is_in_binary_place place }
{
    place.kind.has_known_size()
        && place.extension == 0
        && place.byte >= 3201
        && u32::from(place.byte) + u32::from(place.kind.size) <= 3601
}

// Whether the place has a byte of a field that says how the file is cut.
fn touches_frame(place: Place) -> bool
    ensures { result ≡ touches_frame_fields place }
{
    let end = u32::from(place.byte) + u32::from(place.kind.size);
    (place.byte <= 3222 && end > 3221)
        || (place.byte <= 3226 && end > 3225)
        || (place.byte <= 3272 && end > 3269)
        || (place.byte <= 3300 && end > 3297)
        || (place.byte <= 3510 && end > 3501)
        || (place.byte <= 3532 && end > 3521)
}

/// Where the place lies in the binary header, counted from 0.
pub fn binary_offset(place: Place) -> u16
    requires { 3201 ≤ place.byte }
    ensures { result ≡ place.byte - 3201 }
{
    place.byte - 3201
}

/// The first refusal of a value at the place: E03, E04, E06.
pub fn set_bin_refusal(place: Place, value: i128) -> Option<Refusal>
    ensures { result ≡ refusal_of_set_bin (Some place) value }
{
    if !is_in_binary(place) {
        return Some(Refusal::NoPlace);
    }
    if !fits(place.kind, value) {
        return Some(Refusal::DoesNotFit);
    }
    if touches_frame(place) {
        return Some(Refusal::Frame);
    }
    None
}

/// The value at the place, where the binary header has the place.
pub fn binary_value(order: Order, bin: &[u8; BINARY_HEADER_BYTES], place: Place) -> Option<i128>
    ensures { result ≡ (if is_in_binary_place place then Some
        (num order place.kind (bin_bytes place.byte place.kind.size bin.now)) else None) }
{
    if !is_in_binary(place) {
        return None;
    }
    let at = usize::from(binary_offset(place));
    Some(read(
        order,
        place.kind,
        &bin[at..at + usize::from(place.kind.size)],
    ))
}
