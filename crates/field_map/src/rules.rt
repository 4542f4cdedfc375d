// What may be bound to what.
ghost use Rattle.std.specs.Prelude.{◌≡◌};
ghost use Rattle.std.specs.List.{list_all};
ghost use Rattle.field_map.specs.Binding.{begins_with_letter as begins_with_letter_of, is_name_character, is_name as is_name_of, is_geometry as is_geometry_name, last_extension as last_extension_of, is_outside as is_outside_of, is_geometry_kind as is_geometry_kind_of, is_bad_kind as is_bad_kind_of};

use crate::place::{Place, TRACE_HEADER_BYTES};
use num_order::Kind;

/// Whether the name is one of the six geometry names, which are always bound: `inline`,
/// `crossline`, `offset`, `x`, `y` and `scalar`. Takes no memory.
pub fn is_geometry(name: &str) -> bool
    ensures { result ≡ is_geometry_name name.now }
{
    matches!(
        name,
        "inline" | "crossline" | "offset" | "x" | "y" | "scalar"
    )
}

// A letter, a digit or `_`.
fn is_name_byte(byte: u8) -> bool
    ensures { result ≡ is_name_character byte }
{
    byte.is_ascii_lowercase() || byte.is_ascii_digit() || byte == b'_'
}

fn begins_with_letter(name: &[u8]) -> bool
    ensures { result ≡ begins_with_letter_of name.now }
{
    match name.first() {
        Some(byte) => byte.is_ascii_lowercase(),
        None => false,
    }
}

fn are_name_bytes(bytes: &[u8]) -> bool
    ensures { result ≡ list_all is_name_character bytes.now }
{
    bytes.iter().all(|byte| is_name_byte(*byte))
}

// 1 to 24 letters, digits and `_`, beginning with a letter.
pub(crate) fn is_name(name: &str) -> bool
    ensures { result ≡ is_name_of name.now }
{
    let bytes = name.as_bytes();
    begins_with_letter(bytes) && are_name_bytes(bytes) && bytes.len() <= 24
}

// The last extension that the name may stand in: a geometry name stands where each trace has bytes.
fn last_extension(name: &str, extensions: u8) -> u8
    ensures { result ≡ last_extension_of name.now extensions }
{
    if is_geometry(name) && extensions > 1 {
        1
    } else {
        extensions
    }
}

// Whether the place goes past a header of 240 bytes, or stands in none that the name may stand in.
pub(crate) fn is_outside(extensions: u8, name: &str, place: Place) -> bool
    ensures { result ≡ is_outside_of extensions name.now place }
{
    place.byte == 0
        || u32::from(place.byte) + u32::from(place.kind.size) - 1 > TRACE_HEADER_BYTES as u32
        || place.extension > u16::from(last_extension(name, extensions))
}

fn is_geometry_kind(name: &str, kind: Kind) -> bool
    ensures { result ≡ is_geometry_kind_of name.now kind }
{
    kind.signed && (kind.size == 2 || (kind.size == 4 && name != "scalar"))
}

// Whether the kind is none that the name may have.
pub(crate) fn is_bad_kind(name: &str, kind: Kind) -> bool
    ensures { result ≡ is_bad_kind_of name.now kind }
{
    !kind.has_known_size() || (is_geometry(name) && !is_geometry_kind(name, kind))
}
