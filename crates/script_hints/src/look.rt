// What the head of a file says, beside what its length says.
use frame_cut::{BINARY_HEADER_BYTES, FILE_HEADER_BYTES, Reading};
use num_order::{Order, i16_at, i32_at, u8_at, u16_at, u32_at, u64_at};
use sample_codes::Format;
use std::fmt;
use text_block::TEXT_BLOCK_BYTES;

/// Lines `look NAME VALUE ..`, each with its line feed: the fields of the binary header that say
/// how the file is cut, and how many traces of that length its bytes would be. A reading stands in
/// the place of a field for the last two lines alone. No trace is looked at.
#[derive(Drop)]
pub struct Look<'a> {
    /// How many bytes the file has.
    pub size: u64,
    /// Its binary header.
    pub bin: &'a [u8; BINARY_HEADER_BYTES],
    /// How the file is asked to be read.
    pub reading: Reading,
}

// The fields that say how the file is cut, as their bytes stand.
#[derive(Clone, Copy)]
struct Fields {
    order: Order,
    told: Option<Order>,
    major: u8,
    minor: u8,
    format: u16,
    interval: u16,
    short_samples: u16,
    wide_samples: u32,
    is_swapped: bool,
    fixed: u16,
    texts: i16,
    extensions: i32,
    trailer: i32,
    first_trace: u64,
}

impl fmt::Display for Look<'_> {
    fn fmt<W: fmt::Write>(&self, f: &mut fmt::Formatter<W>) -> fmt::Result {
        let fields = fields_of(self.bin, self.reading);
        let size = self.size;
        writeln!(f, "look bytes {size}")?;
        write_order(f, &fields, self.reading)?;
        write_fields(f, &fields)?;
        write_length(f, size, &fields, self.reading)
    }
}

// The fields in the order of bytes that the constant tells, else in the one that is asked for.
fn fields_of(bin: &[u8; BINARY_HEADER_BYTES], reading: Reading) -> Fields {
    let told = if bin[96..100] == [4, 3, 2, 1] {
        Some(Order::Little)
    } else if bin[96..100] == [1, 2, 3, 4] {
        Some(Order::Big)
    } else {
        None
    };
    let order = told.unwrap_or(reading.order.unwrap_or(Order::Big));
    Fields {
        order,
        told,
        major: u8_at(order, bin, 3501 - 3201),
        minor: u8_at(order, bin, 3502 - 3201),
        format: u16_at(order, bin, 3225 - 3201),
        interval: u16_at(order, bin, 3217 - 3201),
        short_samples: u16_at(order, bin, 3221 - 3201),
        wide_samples: u32_at(order, bin, 3269 - 3201),
        is_swapped: bin[96..100] == [2, 1, 4, 3],
        fixed: u16_at(order, bin, 3503 - 3201),
        texts: i16_at(order, bin, 3505 - 3201),
        extensions: i32_at(order, bin, 3507 - 3201),
        trailer: i32_at(order, bin, 3529 - 3201),
        first_trace: u64_at(order, bin, 3521 - 3201),
    }
}

fn write_order<W: fmt::Write>(
    f: &mut fmt::Formatter<W>,
    fields: &Fields,
    reading: Reading,
) -> fmt::Result {
    let name = match fields.order {
        Order::Big => "big",
        Order::Little => "little",
    };
    let how = match (fields.told, reading.order) {
        _ if fields.is_swapped => "swapped",
        (Some(_), _) => "told",
        (None, Some(_)) => "asked",
        (None, None) => "assumed",
    };
    writeln!(f, "look order {name} {how}")
}

fn write_fields<W: fmt::Write>(f: &mut fmt::Formatter<W>, fields: &Fields) -> fmt::Result {
    let (major, minor) = (fields.major, fields.minor);
    writeln!(f, "look revision {major}.{minor}")?;
    let (format, interval) = (fields.format, fields.interval);
    writeln!(f, "look format {format}\nlook interval {interval}")?;
    let (samples, wide) = (fields.short_samples, fields.wide_samples);
    writeln!(f, "look samples {samples}\nlook wide_samples {wide}")?;
    let (fixed, texts) = (fields.fixed, fields.texts);
    writeln!(f, "look fixed {fixed}\nlook texts {texts}")?;
    let (extensions, trailer) = (fields.extensions, fields.trailer);
    writeln!(f, "look extensions {extensions}\nlook trailer {trailer}")?;
    let first_trace = fields.first_trace;
    writeln!(f, "look first_trace {first_trace}")
}

// How many traces the bytes behind the head would be.
fn write_length<W: fmt::Write>(
    f: &mut fmt::Formatter<W>,
    size: u64,
    fields: &Fields,
    reading: Reading,
) -> fmt::Result {
    let Some(length) = trace_bytes(fields, reading) else {
        return f.write_str("look trace_bytes none\nlook traces none\n");
    };
    writeln!(f, "look trace_bytes {length}")?;
    match bytes_of_traces(size, fields, reading) {
        Some(all) if length > 0 => {
            let (traces, rest) = (all / length, all % length);
            writeln!(f, "look traces {traces} rest {rest}")
        }
        _ => f.write_str("look traces none\n"),
    }
}

// The length of a trace of the file's format and number of samples, with as many header extensions
// as it may have; none for a format that the standard leaves unassigned.
fn trace_bytes(fields: &Fields, reading: Reading) -> Option<u64> {
    let Ok(format) = Format::of(reading.format.unwrap_or(fields.format), true, true) else {
        return None;
    };
    let extensions = if fields.major == 2 && fields.extensions > 0 {
        u64::from(fields.extensions.unsigned_abs())
    } else {
        0
    };
    let written = if fields.major == 2 && fields.wide_samples != 0 {
        fields.wide_samples
    } else {
        u32::from(fields.short_samples)
    };
    let samples = u64::from(reading.samples.unwrap_or(written));
    Some(240 * (1 + extensions) + samples * u64::from(format.width()))
}

// How many bytes stand behind the extended textual headers and in front of the data trailer
// records; none where the text ends by itself, or there are not so many.
fn bytes_of_traces(size: u64, fields: &Fields, reading: Reading) -> Option<u64> {
    let written = if fields.major == 0 { 0 } else { fields.texts };
    let texts = reading.texts.unwrap_or(written);
    if texts < 0 {
        return None;
    }
    let trailer = if fields.major == 2 && fields.trailer > 0 {
        u64::from(fields.trailer.unsigned_abs())
    } else {
        0
    };
    let block = TEXT_BLOCK_BYTES as u64;
    let front = FILE_HEADER_BYTES as u64 + block * u64::from(texts.unsigned_abs());
    size.checked_sub(front + block * trailer)
}
