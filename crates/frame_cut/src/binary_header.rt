// The fields of the binary file header (bytes 3201 to 3600 of a file) that say how the file is cut.
// Each takes the order of bytes and the header's bytes, and those that count in some revisions
// alone its major revision. A place is written as the field's first byte, counted from 1 over the
// file, less the header's.
ghost use Rattle.std.specs.Prelude.{◌≡◌, length};
ghost use Rattle.frame_cut.specs.BinaryHeader.{order_of as order_in, told_order as told_order_in, is_other_order as is_other_order_in, is_pair_swapped as is_pair_swapped_in, major_of, minor_of, format_code as format_code_in, text_count as text_count_in, extensions_field, trailer_field, first_trace as first_trace_in, written_samples as written_samples_in, samples_field, is_fixed as is_fixed_in};

use crate::reading::Reading;
use crate::sizes::BINARY_HEADER_BYTES;
use num_order::{Order, i16_at, i32_at, u8_at, u16_at, u32_at, u64_at};

pub(crate) fn is_pair_swapped(bin: &[u8]) -> bool
    requires { length bin.now ≡ BINARY_HEADER_BYTES }
    ensures { result ≡ is_pair_swapped_in bin.now }
{
    bin[3297 - 3201..3301 - 3201] == [2, 1, 4, 3]
}

// The order of bytes that the byte-order constant tells, where it tells one.
pub(crate) fn told_order(bin: &[u8]) -> Option<Order>
    requires { length bin.now ≡ BINARY_HEADER_BYTES }
    ensures { result ≡ told_order_in bin.now }
{
    if bin[3297 - 3201..3301 - 3201] == [4, 3, 2, 1] {
        Some(Order::Little)
    } else if bin[3297 - 3201..3301 - 3201] == [1, 2, 3, 4] {
        Some(Order::Big)
    } else {
        None
    }
}

// Whether one order is asked for, and the other is told.
pub(crate) fn is_other_order(asked: Option<Order>, told: Option<Order>) -> bool
    ensures { result ≡ is_other_order_in asked told }
{
    match (asked, told) {
        (Some(Order::Big), Some(Order::Little)) | (Some(Order::Little), Some(Order::Big)) => true,
        _ => false,
    }
}

// The order of bytes under the reading: big-endian where none is told and none is asked for.
pub(crate) fn order_of(reading: Reading, bin: &[u8]) -> Order
    requires { length bin.now ≡ BINARY_HEADER_BYTES }
    ensures { result ≡ order_in reading bin.now }
{
    match told_order(bin) {
        Some(order) => order,
        None => reading.order.unwrap_or(Order::Big),
    }
}

pub(crate) fn major(order: Order, bin: &[u8]) -> u8
    requires { length bin.now ≡ BINARY_HEADER_BYTES }
    ensures { result ≡ major_of order bin.now }
{
    u8_at(order, bin, 3501 - 3201)
}

pub(crate) fn minor(order: Order, bin: &[u8]) -> u8
    requires { length bin.now ≡ BINARY_HEADER_BYTES }
    ensures { result ≡ minor_of order bin.now }
{
    u8_at(order, bin, 3502 - 3201)
}

pub(crate) fn format_code(reading: Reading, order: Order, bin: &[u8]) -> u16
    requires { length bin.now ≡ BINARY_HEADER_BYTES }
    ensures { result ≡ format_code_in reading order bin.now }
{
    match reading.format {
        Some(code) => code,
        None => u16_at(order, bin, 3225 - 3201),
    }
}

pub(crate) fn text_count(reading: Reading, order: Order, major: u8, bin: &[u8]) -> i16
    requires whole { length bin.now ≡ BINARY_HEADER_BYTES }
    requires major { major ≡ major_of order bin.now }
    ensures { result ≡ text_count_in reading order bin.now }
{
    match reading.texts {
        Some(count) => count,
        None if major == 0 => 0,
        None => i16_at(order, bin, 3505 - 3201),
    }
}

pub(crate) fn extensions(order: Order, major: u8, bin: &[u8]) -> i32
    requires whole { length bin.now ≡ BINARY_HEADER_BYTES }
    requires major { major ≡ major_of order bin.now }
    ensures { result ≡ extensions_field order bin.now }
{
    if major == 2 {
        i32_at(order, bin, 3507 - 3201)
    } else {
        0
    }
}

pub(crate) fn trailer(order: Order, major: u8, bin: &[u8]) -> i32
    requires whole { length bin.now ≡ BINARY_HEADER_BYTES }
    requires major { major ≡ major_of order bin.now }
    ensures { result ≡ trailer_field order bin.now }
{
    if major == 2 {
        i32_at(order, bin, 3529 - 3201)
    } else {
        0
    }
}

pub(crate) fn first_trace(order: Order, major: u8, bin: &[u8]) -> u64
    requires whole { length bin.now ≡ BINARY_HEADER_BYTES }
    requires major { major ≡ major_of order bin.now }
    ensures { result ≡ first_trace_in order bin.now }
{
    if major == 2 {
        u64_at(order, bin, 3521 - 3201)
    } else {
        0
    }
}

pub(crate) fn samples(reading: Reading, order: Order, major: u8, bin: &[u8]) -> u32
    requires whole { length bin.now ≡ BINARY_HEADER_BYTES }
    requires major { major ≡ major_of order bin.now }
    ensures { result ≡ samples_field reading order bin.now }
{
    match reading.samples {
        Some(count) => count,
        None => written_samples(order, major, bin),
    }
}

// The number of samples of a trace in the fields: that of the wide one unless it is 0.
fn written_samples(order: Order, major: u8, bin: &[u8]) -> u32
    requires whole { length bin.now ≡ BINARY_HEADER_BYTES }
    requires major { major ≡ major_of order bin.now }
    ensures { result ≡ written_samples_in order bin.now }
{
    let wide = if major == 2 {
        u32_at(order, bin, 3269 - 3201)
    } else {
        0
    };
    if wide == 0 {
        u32::from(u16_at(order, bin, 3221 - 3201))
    } else {
        wide
    }
}

pub(crate) fn is_fixed(reading: Reading, order: Order, major: u8, bin: &[u8]) -> bool
    requires whole { length bin.now ≡ BINARY_HEADER_BYTES }
    requires major { major ≡ major_of order bin.now }
    ensures { result ≡ is_fixed_in reading order bin.now }
{
    reading.fixed
        || reading.samples.is_some()
        || (major != 0 && u16_at(order, bin, 3503 - 3201) != 0)
}
