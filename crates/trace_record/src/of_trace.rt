ghost use Rattle.std.specs.Prelude.{◌≡◌, true};
ghost use Rattle.frame_cut.specs.Frames.{sample_count};
ghost use Rattle.trace_view.specs.Shown.{bytes_of, head_of};
ghost use Rattle.trace_view.specs.Values.{main_header, has_place, value_at as number_at, has_floats, samples_of};
ghost use Rattle.trace_record.specs.Facts.{facts_of, with_amplitudes, with_samples_of};
ghost use Rattle.trace_record.specs.NumberPlaces.{IsNumber, IsShort};
ghost use Rattle.trace_record.specs.OfTrace.{record_of as record_of_trace, has_geometry};
ghost use Rattle.trace_record.specs.Packable.{HaveRange};
ghost use Rattle.trace_record.specs.Statistics.{amplitudes_of as amplitudes_of_samples};

use crate::header_fields::{short_at, signed_at};
use crate::main_header::{has_known_name, short_in, signed_in};
use crate::of_samples::statistics_of;
use crate::{Amplitudes, Record};
use field_map::{FieldMap, Place, TRACE_HEADER_BYTES};
use key_counts::Ratio;
use num_order::{i16_at, i32_at, u16_at};
use trace_view::TraceView;

/// The record of a trace: its inline, crossline, offset, x, y and scalar at the places that the map
/// gives these names, x and y under the scalar, in the units that bytes 89-90 tell; other fields of
/// the main header; the number of its samples; and, where they have values, the least, greatest and
/// sum of these, in one pass over them. Where they have none no sample is read. Each of the six
/// names is bound to a place in the trace, as by a map for the trace's file; of any other map the
/// record tells nothing. Refuses nothing. Takes no memory.
pub fn record_of(view: &TraceView<'_>, fields: &FieldMap) -> Record
    ensures { has_geometry (head_of view.now) fields.now.pairs (bytes_of view.now) ≡ true →
        facts_of result ≡ record_of_trace (head_of view.now) fields.now.pairs (bytes_of view.now) }
{
    record_with(view, fields, amplitudes_of(view), view.sample_count())
}

/// The record of a trace but for the amplitudes and the number of its samples, which are those of
/// another record: that of the trace before its headers changed, say. Reads no sample. Each of the
/// six names is bound to a place in the trace, as by a map for the trace's file; of any other map
/// the record tells nothing. Refuses nothing. Takes no memory.
pub fn record_with_samples_of(view: &TraceView<'_>, fields: &FieldMap, samples: &Record) -> Record
    ensures { has_geometry (head_of view.now) fields.now.pairs (bytes_of view.now) ≡ true →
        facts_of result ≡ with_samples_of
        (record_of_trace (head_of view.now) fields.now.pairs (bytes_of view.now))
        (facts_of samples.now) }
{
    record_with(view, fields, samples.amplitudes, samples.number)
}

// What the headers give, with the amplitudes of so many samples. The main header is read from one
// slice.
fn record_with(
    view: &TraceView<'_>,
    fields: &FieldMap,
    amplitudes: Option<Amplitudes>,
    number: u32,
) -> Record
    requires { HaveRange amplitudes number }
    ensures { has_geometry (head_of view.now) fields.now.pairs (bytes_of view.now) ≡ true →
        facts_of result ≡ with_amplitudes
        (record_of_trace (head_of view.now) fields.now.pairs (bytes_of view.now)) amplitudes
        number }
{
    match view.plain(0, TRACE_HEADER_BYTES as u64) {
        Some(main) => record_by(view, main, fields, amplitudes, number),
        None => {
            let mut main = [0; TRACE_HEADER_BYTES];
            view.read(0, &mut main);
            record_by(view, &main, fields, amplitudes, number)
        }
    }
}

// The same, with the main header of the trace at hand.
fn record_by(
    view: &TraceView<'_>,
    main: &[u8],
    fields: &FieldMap,
    amplitudes: Option<Amplitudes>,
    number: u32,
) -> Record
    requires main { main.now ≡ main_header (bytes_of view.now) }
    requires range { HaveRange amplitudes number }
    ensures { has_geometry (head_of view.now) fields.now.pairs (bytes_of view.now) ≡ true →
        facts_of result ≡ with_amplitudes
        (record_of_trace (head_of view.now) fields.now.pairs (bytes_of view.now)) amplitudes
        number }
{
    let order = view.head().order;
    let places = fields.geometry();
    let scalar = scalar_at(view, main, places.scalar);
    let x = value_at(view, main, places.x);
    let y = value_at(view, main, places.y);
    Record {
        amplitudes,
        x: Ratio::scaled(x, scalar),
        y: Ratio::scaled(y, scalar),
        inline: value_at(view, main, places.inline),
        crossline: value_at(view, main, places.crossline),
        offset: value_at(view, main, places.offset),
        sequence: i32_at(order, main, 5 - 1),
        number,
        scalar,
        units: i16_at(order, main, 89 - 1),
        interval: u16_at(order, main, 117 - 1),
        samples_field: u16_at(order, main, 115 - 1),
        has_known_name: has_known_name(main),
    }
}

// The value at the place of a geometry name.
#[inline(always)]
fn value_at(view: &TraceView<'_>, main: &[u8], place: Place) -> i32
    requires main { main.now ≡ main_header (bytes_of view.now) }
    requires place { IsNumber place }
    ensures { has_place (head_of view.now) (bytes_of view.now) place ≡ true →
        result ≡ number_at (head_of view.now) (bytes_of view.now) place }
{
    if place.extension == 0 {
        return signed_in(view.head().order, main, place);
    }
    if place.extension > u16::from(view.extension_count()) {
        return 0;
    }
    signed_at(view, place)
}

// The coordinate scalar at its place.
#[inline(always)]
fn scalar_at(view: &TraceView<'_>, main: &[u8], place: Place) -> i16
    requires main { main.now ≡ main_header (bytes_of view.now) }
    requires place { IsShort place }
    ensures { has_place (head_of view.now) (bytes_of view.now) place ≡ true →
        result ≡ number_at (head_of view.now) (bytes_of view.now) place }
{
    if place.extension == 0 {
        return short_in(view.head().order, main, place);
    }
    if place.extension > u16::from(view.extension_count()) {
        return 0;
    }
    short_at(view, place)
}

// The amplitudes of the samples, where they have values and there are any.
fn amplitudes_of(view: &TraceView<'_>) -> Option<Amplitudes>
    ensures value { result ≡ amplitudes_of_samples
        (has_floats (head_of view.now)) (samples_of (head_of view.now) (bytes_of view.now)) }
    ensures range { HaveRange result (sample_count (head_of view.now) (bytes_of view.now)) }
{
    match statistics_of(view) {
        Some(statistics) => Some(statistics.amplitudes()),
        None => None,
    }
}
