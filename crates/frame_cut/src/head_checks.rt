// The head of a file: the checks of the file headers, in their order.
ghost use Rattle.std.specs.Prelude.{◌≡◌, ◌<◌, ◌≤◌, ◌*◌, ◌^◌, ◌||◌, ◌&&◌, ◌==◌, not, false, pos, int_lt, nat_lt, ℕ, List, length, drop, Ok, None, IfOk, IsSome};
ghost use Rattle.frame_cut.specs.BinaryHeader.{extensions_field, trailer_field};
ghost use Rattle.frame_cut.specs.Fronts.{BeginsWith, Tells};
ghost use Rattle.frame_cut.specs.Heads.{head_of, head_from as head_from_parts, head_faults, first_fault_else, head_by, head_in as head_in_parts, blocks_in, format_in, format_refusal as format_refusal_of, is_trailer_refused as is_trailer_refused_at};

use crate::binary_header::{
    extensions, first_trace, format_code, is_fixed, is_other_order, is_pair_swapped, major, minor,
    order_of, samples, text_count, told_order, trailer,
};
use crate::file_head::Head;
use crate::limits::Limits;
use crate::load_fault::LoadFault;
use crate::reading::Reading;
use crate::sizes::{BINARY_HEADER_BYTES, FILE_HEADER_BYTES};
use crate::text_headers::blocks_told;
use num_order::Order;
use sample_codes::{Format, FormatFault};
use text_block::TEXT_BLOCK_BYTES;

/// The head of the file with these bytes, or the first of these that holds, in this order: more
/// bytes than the limit (L02), no whole file headers (L03), swapped pairs of bytes (L04), another
/// order of bytes than the one asked for (L17), an unknown revision (L05), a sample format that is
/// not read (L06, L07, L08), extended textual headers that are not there (L09), a number of trace
/// header extensions outside 0 to 255 (L10), data trailer records that are not there (L11), another
/// place of the first trace (L12). Reads the binary file header (bytes 3201 to 3600) alone and,
/// where the extended textual headers end by themselves, those. Takes no memory.
pub fn head(bytes: &[u8], reading: Reading, limits: Limits) -> Result<Head, LoadFault>
    ensures { result ≡ head_of bytes.now reading limits }
{
    match head_of_front(bytes, bytes.len() as u64, reading, limits) {
        Ok(Some(head)) => Ok(head),
        Ok(None) => unreachable!(),
        Err(fault) => Err(fault),
    }
}

/// The head of each file of so many bytes that begins with these, or the first refusal, as
/// [`head`]; None where it stands in the bytes behind them: where they are not the whole file
/// headers, or none of their extended textual headers ends the text, and the text count is -1
/// (bytes 3505-3506). Takes no memory.
pub fn head_of_front(
    front: &[u8],
    size: u64,
    reading: Reading,
    limits: Limits,
) -> Result<Option<Head>, LoadFault>
    requires { length front.now ≤ size }
    ensures told { (file : List ℕ) → BeginsWith front.now size file →
        Tells result (head_of file reading limits) }
    ensures more { result ≡ Ok None → length front.now < size }
{
    if size > limits.bytes() {
        return Err(LoadFault::TooLarge);
    }
    if size < FILE_HEADER_BYTES as u64 {
        return Err(LoadFault::Short(size));
    }
    if front.len() < FILE_HEADER_BYTES {
        return Ok(None);
    }
    head_from(
        reading,
        &front[TEXT_BLOCK_BYTES..FILE_HEADER_BYTES],
        &front[FILE_HEADER_BYTES..],
        size - FILE_HEADER_BYTES as u64,
    )
}

// The head of a file with this binary header, and so many bytes behind it that begin with these.
fn head_from(
    reading: Reading,
    bin: &[u8],
    rest: &[u8],
    left: u64,
) -> Result<Option<Head>, LoadFault>
    requires whole { length bin.now ≡ BINARY_HEADER_BYTES }
    requires inside { length rest.now ≤ left }
    requires small { left ≤ 2 ^ 40 }
    ensures told { (all : List ℕ) → BeginsWith rest.now left all →
        Tells result (head_from_parts reading bin.now all) }
    ensures more { result ≡ Ok None → length rest.now < left }
{
    if is_pair_swapped(bin) {
        return Err(LoadFault::PairSwapped);
    }
    if is_other_order(reading.order, told_order(bin)) {
        return Err(LoadFault::OtherOrder);
    }
    with_order(reading, order_of(reading, bin), bin, rest, left)
}

// The checks behind the order of bytes: the refusals but for the first two, L04 and L17.
fn with_order(
    reading: Reading,
    order: Order,
    bin: &[u8],
    rest: &[u8],
    left: u64,
) -> Result<Option<Head>, LoadFault>
    requires whole { length bin.now ≡ BINARY_HEADER_BYTES }
    requires inside { length rest.now ≤ left }
    requires small { left ≤ 2 ^ 40 }
    ensures told { (all : List ℕ) → BeginsWith rest.now left all → Tells result
        (first_fault_else (drop 2 (head_faults reading order bin.now all))
        (head_by reading order bin.now all)) }
    ensures more { result ≡ Ok None → length rest.now < left }
{
    let major = major(order, bin);
    let minor = minor(order, bin);
    if is_unknown_revision(major, minor) {
        return Err(LoadFault::Revision(major, minor));
    }
    with_revision(reading, order, bin, rest, left)
}

// Whether the revision is above 2.0.
fn is_unknown_revision(major: u8, minor: u8) -> bool
    ensures { result ≡ (nat_lt 2 major || (major == 2 && not (minor == 0))) }
{
    major > 2 || (major == 2 && minor != 0)
}

// The checks behind the revision: the refusals but for the first three, L04, L05 and L17.
fn with_revision(
    reading: Reading,
    order: Order,
    bin: &[u8],
    rest: &[u8],
    left: u64,
) -> Result<Option<Head>, LoadFault>
    requires whole { length bin.now ≡ BINARY_HEADER_BYTES }
    requires inside { length rest.now ≤ left }
    requires small { left ≤ 2 ^ 40 }
    ensures told { (all : List ℕ) → BeginsWith rest.now left all → Tells result
        (first_fault_else (drop 3 (head_faults reading order bin.now all))
        (head_by reading order bin.now all)) }
    ensures more { result ≡ Ok None → length rest.now < left }
{
    let code = format_code(reading, order, bin);
    match Format::of(code, reading.opaque, reading.floats) {
        Ok(format) => with_format(reading, order, bin, rest, left, format),
        Err(fault) => Err(format_refusal(fault, code)),
    }
}

// Why a sample format is refused.
fn format_refusal(fault: FormatFault, code: u16) -> LoadFault
    ensures { result ≡ format_refusal_of fault code }
{
    match fault {
        FormatFault::Float => LoadFault::FloatFormat(code),
        FormatFault::Gain => LoadFault::GainFormat,
        FormatFault::Unknown => LoadFault::UnknownFormat(code),
    }
}

// The checks behind the sample format: the refusals but for the first six, L04 to L08 and L17.
fn with_format(
    reading: Reading,
    order: Order,
    bin: &[u8],
    rest: &[u8],
    left: u64,
    format: Format,
) -> Result<Option<Head>, LoadFault>
    requires whole { length bin.now ≡ BINARY_HEADER_BYTES }
    requires inside { length rest.now ≤ left }
    requires small { left ≤ 2 ^ 40 }
    requires format { format ≡ format_in reading order bin.now }
    ensures told { (all : List ℕ) → BeginsWith rest.now left all → Tells result
        (first_fault_else (drop 6 (head_faults reading order bin.now all))
        (head_by reading order bin.now all)) }
    ensures more { result ≡ Ok None → length rest.now < left }
{
    let count = text_count(reading, order, major(order, bin), bin);
    match blocks_told(count, rest, left) {
        Some(Some(blocks)) => with_blocks(reading, order, bin, left, format, blocks),
        Some(None) => Err(LoadFault::TextCount(count)),
        None => Ok(None),
    }
}

// The checks behind the number of extended textual headers: the last three refusals, L10 to L12.
fn with_blocks(
    reading: Reading,
    order: Order,
    bin: &[u8],
    left: u64,
    format: Format,
    blocks: u32,
) -> Result<Option<Head>, LoadFault>
    requires whole { length bin.now ≡ BINARY_HEADER_BYTES }
    requires inside { TEXT_BLOCK_BYTES * blocks ≤ left }
    requires format { format ≡ format_in reading order bin.now }
    ensures told { (all : List ℕ) → length all ≡ left →
        blocks ≡ blocks_in reading order bin.now all →
        Tells result (first_fault_else (drop 7 (head_faults reading order bin.now all))
        (head_by reading order bin.now all)) }
    ensures known { IfOk result (λ head. IsSome head) }
{
    let major = major(order, bin);
    let extensions = extensions(order, major, bin);
    if is_extensions_refused(extensions) {
        return Err(LoadFault::Extensions(extensions));
    }
    let records = trailer(order, major, bin);
    if is_trailer_refused(records, left - TEXT_BLOCK_BYTES as u64 * u64::from(blocks)) {
        return Err(LoadFault::Trailer(records));
    }
    let first = first_trace(order, major, bin);
    if is_elsewhere(
        first,
        FILE_HEADER_BYTES as u64 + TEXT_BLOCK_BYTES as u64 * u64::from(blocks),
    ) {
        return Err(LoadFault::FirstTrace(first));
    }
    Ok(Some(head_in(reading, order, bin, format, blocks, extensions, records)))
}

// Whether the most header extensions of a trace are not 0 to 255.
fn is_extensions_refused(extensions: i32) -> bool
    ensures { result ≡ (int_lt extensions (pos 0) || int_lt (pos 255) extensions) }
{
    extensions < 0 || extensions > 255
}

// Whether there are no so many data trailer records in the bytes that are left.
fn is_trailer_refused(records: i32, left: u64) -> bool
    ensures { result ≡ is_trailer_refused_at records left }
{
    records < 0 || TEXT_BLOCK_BYTES as u64 * u64::from(records.unsigned_abs()) > left
}

// Whether the binary header names another place of the first trace than where the traces begin.
fn is_elsewhere(first: u64, traces_at: u64) -> bool
    ensures { result ≡ (not (first == 0) && not (first == traces_at)) }
{
    first != 0 && first != traces_at
}

// What the binary header says, when all checks are passed.
fn head_in(
    reading: Reading,
    order: Order,
    bin: &[u8],
    format: Format,
    blocks: u32,
    extensions: i32,
    records: i32,
) -> Head
    requires whole { length bin.now ≡ BINARY_HEADER_BYTES }
    requires extensions { extensions ≡ extensions_field order bin.now }
    requires few { (int_lt extensions (pos 0) || int_lt (pos 255) extensions) ≡ false }
    requires records { records ≡ trailer_field order bin.now }
    ensures { result ≡ head_in_parts reading order bin.now format blocks }
{
    let major = major(order, bin);
    Head {
        order,
        major,
        minor: minor(order, bin),
        format,
        samples: samples(reading, order, major, bin),
        fixed: is_fixed(reading, order, major, bin),
        extensions: extensions.unsigned_abs() as u8,
        blocks,
        trailer: records.unsigned_abs(),
        traces_at: FILE_HEADER_BYTES as u64 + TEXT_BLOCK_BYTES as u64 * u64::from(blocks),
    }
}
