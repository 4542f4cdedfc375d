// What edits and queries first ask of a volume and its field map.
ghost use Rattle.std.specs.Prelude.{◌≡◌, ◌≤◌, None, is_none};
ghost use Rattle.sample_codes.specs.Formats.{values};
ghost use Rattle.frame_cut.specs.Traces.{count_of, is_trace};
ghost use Rattle.trace_view.specs.Values.{has_floats};
ghost use Rattle.bench_rules.specs.Answer.{of_traces, Reply};
ghost use Rattle.bench_rules.specs.FloatStatistics.{float_format as float_format_of};
ghost use Rattle.bench_rules.specs.Places.{place_in_trace as place_of_field};
ghost use Rattle.bench_rules.specs.Problems.{is_shot_file as is_shot_file_of, stands_at as stands_at_of};
ghost use Rattle.bench_rules.specs.RangeFaults.{or_fault};

use crate::ask_fault::AskFault;
use crate::field::Field;
use edit_overlay::Overlay;
use field_map::{FieldMap, Place, named};
use float_codes::FloatFormat;
use sample_codes::{Format, ValueFormat};
use trace_record::PackedRecord;

/// Whether there is a trace p. Takes no memory and looks at no trace.
pub fn has_trace(overlay: &Overlay<PackedRecord>, p: u32) -> bool
    ensures { result ≡ is_trace overlay.now.volume p }
{
    p >= 1 && p <= overlay.count()
}

/// The first fault of traces a to b: E01. Takes no memory and looks at no trace.
pub fn range_fault(overlay: &Overlay<PackedRecord>, a: u32, b: u32) -> Option<AskFault>
    ensures told { (reply : Reply) → of_traces overlay.now.volume a b reply
        ≡ or_fault result reply }
    ensures first { result ≡ None → 1 ≤ a }
    ensures range { result ≡ None → a ≤ b }
    ensures last { result ≡ None → b ≤ count_of overlay.now.volume }
{
    if !has_trace(overlay, a) {
        Some(AskFault::NoTrace(a, overlay.count()))
    } else if b < a || b > overlay.count() {
        Some(AskFault::NoTrace(b, overlay.count()))
    } else {
        None
    }
}

/// Whether the samples of the file have no values. Takes no memory and looks at no trace.
pub fn has_opaque_samples(overlay: &Overlay<PackedRecord>) -> bool
    ensures { result ≡ is_none (values overlay.now.volume.head.format) }
{
    overlay.head().format.values().is_none()
}

/// Whether the samples of the file are floats. Takes no memory and looks at no trace.
pub fn has_float_samples(overlay: &Overlay<PackedRecord>) -> bool
    ensures { result ≡ has_floats overlay.now.volume.head }
{
    match overlay.head().format.values() {
        Some(format) => format.is_float(),
        None => false,
    }
}

/// The format of the samples of the file where they are floats. Takes no memory and looks at no
/// trace.
pub fn float_format(overlay: &Overlay<PackedRecord>) -> Option<FloatFormat>
    ensures { result ≡ float_format_of overlay.now.volume.head.format }
{
    match overlay.head().format {
        Format::Valued(ValueFormat::Float(format)) => Some(format),
        Format::Valued(ValueFormat::Integer(_)) | Format::Opaque(_) => None,
    }
}

/// Whether inline and crossline are bound to the places of the field record and of the trace in it,
/// so that a cell is a trace of a shot. Takes no memory.
pub fn is_shot_file(map: &FieldMap) -> bool
    ensures { result ≡ is_shot_file_of map.now.pairs }
{
    stands_at(map, "inline", 9) && stands_at(map, "crossline", 13)
}

// Whether the name is bound to this byte of the main header.
fn stands_at(map: &FieldMap, name: &str, byte: u16) -> bool
    ensures { result ≡ stands_at_of map.now.pairs name.now byte }
{
    match map.place(name) {
        Some(place) => place.extension == 0 && place.byte == byte,
        None => false,
    }
}

/// The place of a trace's field, where it has one: of a name the bound one, else that of a name
/// that is always known. Takes no memory.
pub fn place_in_trace(map: &FieldMap, field: &Field) -> Option<Place>
    ensures { result ≡ place_of_field map.now.pairs field.now }
{
    match field {
        Field::Place(place) => Some(*place),
        Field::Name(name) => match map.place(name.as_str()) {
            Some(place) => Some(place),
            None => named(name.as_str()),
        },
    }
}
