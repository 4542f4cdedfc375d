// The statistics of the samples of a trace.
ghost use Rattle.std.specs.Prelude.{◌≡◌, ◌+◌, ◌*◌, ◌≤◌, IfSome, true, false, length, drop};
ghost use Rattle.sample_codes.specs.declared.value_format.ValueFormat.TheVariants.{Integer, Float};
ghost use Rattle.float_codes.specs.Values.{float_width};
ghost use Rattle.sample_codes.specs.Formats.{integer_width, value_width, width, is_float};
ghost use Rattle.frame_cut.specs.Frames.{sample_count};
ghost use Rattle.trace_view.specs.Shown.{bytes_of, head_of};
ghost use Rattle.trace_view.specs.Values.{has_floats, samples_in, samples_of, sample_bytes};
ghost use Rattle.trace_record.specs.Statistics.{statistics_of as statistics_of_samples, HasRange};

use crate::Statistics;
use crate::floats::float_statistics;
use crate::narrow::narrow_statistics;
use crate::reads_sample::{I24, Ibm, Ordered, U24};
use crate::unsigned::unsigned_statistics;
use crate::wide::wide_statistics;
use byteorder::{BigEndian, LittleEndian};
use field_map::TRACE_HEADER_BYTES;
use float_codes::FloatFormat;
use num_order::Order;
use sample_codes::{IntegerFormat, ValueFormat};
use trace_view::TraceView;

// Where a run lies in the samples, so many of them are gathered at a time.
const BLOCK: u32 = 512;

/// The statistics of the trace's samples, in one pass over them; none of a trace without samples,
/// or whose samples have no values, of which none is read. Takes no memory.
pub fn statistics_of(view: &TraceView<'_>) -> Option<Statistics>
    ensures value { result ≡ statistics_of_samples
        (has_floats (head_of view.now)) (samples_of (head_of view.now) (bytes_of view.now)) }
    ensures range { IfSome result HasRange }
{
    let head = view.head();
    let format = head.format.values()?;
    match view.plain_samples() {
        Some(bytes) => slice_statistics(head.order, format, bytes, view.sample_count()),
        None => block_statistics(view, format),
    }
}

// Of all samples, a block at a time.
fn block_statistics(view: &TraceView<'_>, format: ValueFormat) -> Option<Statistics>
    requires { value_width format ≡ width (head_of view.now).format }
    ensures value { result ≡ statistics_of_samples (is_float format)
        (samples_in (head_of view.now).order format
        (sample_count (head_of view.now) (bytes_of view.now))
        (sample_bytes (head_of view.now) (bytes_of view.now))) }
    ensures range { IfSome result HasRange }
{
    let count = view.sample_count();
    let mut statistics = None;
    let mut from = 0;
    while from < count {
        let number = BLOCK.min(count - from);
        let block = gathered_statistics(view, format, from, number);
        statistics = Statistics::joined(statistics, block);
        from += number;
    }
    statistics
}

// Of so many samples, from this one on, gathered into one slice.
fn gathered_statistics(
    view: &TraceView<'_>,
    format: ValueFormat,
    from: u32,
    number: u32,
) -> Option<Statistics>
    requires width { value_width format ≡ width (head_of view.now).format }
    requires inside { from + number ≤ sample_count (head_of view.now) (bytes_of view.now) }
    requires few { number ≤ 512 }
    ensures value { result ≡ statistics_of_samples (is_float format)
        (samples_in (head_of view.now).order format number
        (drop (value_width format * from)
        (sample_bytes (head_of view.now) (bytes_of view.now)))) }
    ensures range { IfSome result HasRange }
{
    let width = format.width();
    let samples_at = TRACE_HEADER_BYTES as u64 * (1 + u64::from(view.extension_count()));
    let at = samples_at + u64::from(width) * u64::from(from);
    let mut block = [0; 8 * BLOCK as usize];
    read_statistics(
        view,
        format,
        at,
        &mut block[..width as usize * number as usize],
        number,
    )
}

// Of so many samples, read from this place of the trace on into the slice.
fn read_statistics(
    view: &TraceView<'_>,
    format: ValueFormat,
    at: u64,
    bytes: &mut [u8],
    number: u32,
) -> Option<Statistics>
    requires inside { at + length bytes.old ≤ length (bytes_of view.now) }
    requires whole { value_width format * number ≤ length bytes.old }
    ensures value { result ≡ statistics_of_samples (is_float format)
        (samples_in (head_of view.now).order format number (drop at (bytes_of view.now))) }
    ensures range { IfSome result HasRange }
{
    view.read(at, bytes);
    slice_statistics(view.head().order, format, bytes, number)
}

// Of the first samples of the bytes.
fn slice_statistics(
    order: Order,
    format: ValueFormat,
    bytes: &[u8],
    number: u32,
) -> Option<Statistics>
    requires { value_width format * number ≤ length bytes.now }
    ensures value { result ≡ statistics_of_samples (is_float format)
        (samples_in order format number bytes.now) }
    ensures range { IfSome result HasRange }
{
    match order {
        Order::Big => ordered_statistics::<BigEndian>(format, bytes, number),
        Order::Little => ordered_statistics::<LittleEndian>(format, bytes, number),
    }
}

// The same in the order O.
fn ordered_statistics<O: Ordered>(
    format: ValueFormat,
    bytes: &[u8],
    number: u32,
) -> Option<Statistics>
    requires { value_width format * number ≤ length bytes.now }
    ensures value { result ≡ statistics_of_samples (is_float format)
        (samples_in O.order format number bytes.now) }
    ensures range { IfSome result HasRange }
{
    match format {
        ValueFormat::Integer(format) => integer_statistics::<O>(format, bytes, number),
        ValueFormat::Float(format) => statistics_of_floats::<O>(format, bytes, number),
    }
}

// Of floats. Each format has a loop of its own.
fn statistics_of_floats<O: Ordered>(
    format: FloatFormat,
    bytes: &[u8],
    number: u32,
) -> Option<Statistics>
    requires { float_width format * number ≤ length bytes.now }
    ensures value { result ≡ statistics_of_samples true
        (samples_in O.order (Float format) number bytes.now) }
    ensures range { IfSome result HasRange }
{
    match format {
        FloatFormat::Ibm32 => float_statistics::<Ibm, O>(bytes, number),
        FloatFormat::Ieee32 => float_statistics::<f32, O>(bytes, number),
        FloatFormat::Ieee64 => float_statistics::<f64, O>(bytes, number),
    }
}

// Of whole numbers. Each format has a loop of its own.
fn integer_statistics<O: Ordered>(
    format: IntegerFormat,
    bytes: &[u8],
    number: u32,
) -> Option<Statistics>
    requires { integer_width format * number ≤ length bytes.now }
    ensures value { result ≡ statistics_of_samples false
        (samples_in O.order (Integer format) number bytes.now) }
    ensures range { IfSome result HasRange }
{
    match format {
        IntegerFormat::Signed8 => narrow_statistics::<i8, O>(bytes, number),
        IntegerFormat::Signed16 => narrow_statistics::<i16, O>(bytes, number),
        IntegerFormat::Signed24 => narrow_statistics::<I24, O>(bytes, number),
        IntegerFormat::Signed32 => narrow_statistics::<i32, O>(bytes, number),
        IntegerFormat::Signed64 => wide_statistics::<i64, O>(bytes, number),
        IntegerFormat::Unsigned8 => narrow_statistics::<u8, O>(bytes, number),
        IntegerFormat::Unsigned16 => narrow_statistics::<u16, O>(bytes, number),
        IntegerFormat::Unsigned24 => narrow_statistics::<U24, O>(bytes, number),
        IntegerFormat::Unsigned32 => unsigned_statistics::<O>(bytes, number),
        IntegerFormat::Unsigned64 => wide_statistics::<u64, O>(bytes, number),
    }
}
