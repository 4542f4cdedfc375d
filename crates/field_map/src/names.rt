// The names of the fields of the binary header and of the trace header.
ghost use Rattle.std.specs.Prelude.{◌≡◌};
ghost use Rattle.field_map.specs.Pairs.{signed_at as signed_place, unsigned_at as unsigned_place, unsigned_in_first_extension as extension_place};
ghost use Rattle.field_map.specs.StandardNames.{standard_place, binary_place};

use crate::place::Place;
use num_order::Kind;

/// The place of a trace's field by one of the product's own names, which is never bound anew: the
/// fields of the trace header that repairs need most, and two of its first extension. Takes no
/// memory.
pub fn standard(name: &str) -> Option<Place>
    ensures { result ≡ standard_place name.now }
{
    match name {
        "sequence_line" => Some(signed_at(1, 4)),
        "sequence_file" => Some(signed_at(5, 4)),
        "field_record" => Some(signed_at(9, 4)),
        "trace_in_record" => Some(signed_at(13, 4)),
        "source_point" => Some(signed_at(17, 4)),
        "ensemble" => Some(signed_at(21, 4)),
        "trace_in_ensemble" => Some(signed_at(25, 4)),
        "trace_code" => Some(signed_at(29, 2)),
        "distance" => Some(signed_at(37, 4)),
        "receiver_elevation" => Some(signed_at(41, 4)),
        "source_elevation" => Some(signed_at(45, 4)),
        "elevation_scalar" => Some(signed_at(69, 2)),
        "coordinate_scalar" => Some(signed_at(71, 2)),
        "source_x" => Some(signed_at(73, 4)),
        "source_y" => Some(signed_at(77, 4)),
        "group_x" => Some(signed_at(81, 4)),
        "group_y" => Some(signed_at(85, 4)),
        "coordinate_units" => Some(signed_at(89, 2)),
        "delay" => Some(signed_at(109, 2)),
        "samples" => Some(unsigned_at(115, 2)),
        "interval" => Some(unsigned_at(117, 2)),
        "year" => Some(signed_at(157, 2)),
        "day" => Some(signed_at(159, 2)),
        "hour" => Some(signed_at(161, 2)),
        "minute" => Some(signed_at(163, 2)),
        "second" => Some(signed_at(165, 2)),
        "ensemble_x" => Some(signed_at(181, 4)),
        "ensemble_y" => Some(signed_at(185, 4)),
        "inline_number" => Some(signed_at(189, 4)),
        "crossline_number" => Some(signed_at(193, 4)),
        "shotpoint" => Some(signed_at(197, 4)),
        "shotpoint_scalar" => Some(signed_at(201, 2)),
        "ext_samples" => Some(unsigned_in_first_extension(137, 4)),
        "ext_count" => Some(unsigned_in_first_extension(157, 2)),
        _ => None,
    }
}

/// The place of a binary header field (bytes 3201 to 3600) by its name. Takes no memory.
pub fn bin_field(name: &str) -> Option<Place>
    ensures { result ≡ binary_place name.now }
{
    match name {
        "job" => Some(signed_at(3201, 4)),
        "line" => Some(signed_at(3205, 4)),
        "reel" => Some(signed_at(3209, 4)),
        "traces_per_ensemble" => Some(signed_at(3213, 2)),
        "auxiliary_per_ensemble" => Some(signed_at(3215, 2)),
        "interval" => Some(unsigned_at(3217, 2)),
        "samples" => Some(unsigned_at(3221, 2)),
        "format" => Some(unsigned_at(3225, 2)),
        "ensemble_fold" => Some(signed_at(3227, 2)),
        "sorting" => Some(signed_at(3229, 2)),
        "measurement" => Some(signed_at(3255, 2)),
        "extended_samples" => Some(unsigned_at(3269, 4)),
        "byte_order" => Some(unsigned_at(3297, 4)),
        "major" => Some(unsigned_at(3501, 1)),
        "minor" => Some(unsigned_at(3502, 1)),
        "fixed_flag" => Some(signed_at(3503, 2)),
        "text_count" => Some(signed_at(3505, 2)),
        "extensions" => Some(signed_at(3507, 4)),
        "trace_count" => Some(unsigned_at(3513, 8)),
        "first_trace" => Some(unsigned_at(3521, 8)),
        "trailer" => Some(signed_at(3529, 4)),
        _ => None,
    }
}

// A signed number of the main header, or of the binary header.
pub(crate) fn signed_at(byte: u16, size: u8) -> Place
    ensures { result ≡ signed_place byte size }
{
    place_of(0, byte, size, true)
}

fn unsigned_at(byte: u16, size: u8) -> Place
    ensures { result ≡ unsigned_place byte size }
{
    place_of(0, byte, size, false)
}

fn unsigned_in_first_extension(byte: u16, size: u8) -> Place
    ensures { result ≡ extension_place byte size }
{
    place_of(1, byte, size, false)
}

fn place_of(extension: u16, byte: u16, size: u8, signed: bool) -> Place
    ensures { result ≡ record {
      extension = extension;
      byte = byte;
      kind = record
          { size = size; signed = signed };
    } }
{
    Place {
        extension,
        byte,
        kind: Kind { size, signed },
    }
}
