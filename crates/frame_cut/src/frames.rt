// How long a trace is, from its headers alone. A place in them is written as the byte of its
// header, counted from 1.
ghost use Rattle.std.specs.Prelude.{◌≡◌, ◌≤◌, length};
ghost use Rattle.frame_cut.specs.Frames.{trace_length as trace_length_of, front_length as front_length_of, extension_count as extension_count_of, sample_count as sample_count_of, length_with as length_of, extensions_by as extensions_by_count, samples_by as samples_by_counts};

use crate::file_head::Head;
use field_map::TRACE_HEADER_BYTES;
use num_order::{u16_at, u32_at};

/// How many bytes at the front of a trace its length is read from: its main header, and where
/// traces have header extensions the first of them too. Takes no memory.
pub fn front_length(head: &Head) -> usize
    ensures { result ≡ front_length_of head.now }
{
    if head.extensions == 0 {
        TRACE_HEADER_BYTES
    } else {
        2 * TRACE_HEADER_BYTES
    }
}

/// The length in bytes of the trace with this front, or with these bytes: its main header, its
/// header extensions and its samples. None where its first header extension (bytes 157-158) says
/// that there are more extensions than the file allows. Takes no memory.
pub fn trace_length(head: &Head, front: &[u8]) -> Option<u64>
    requires { front_length_of head.now ≤ length front.now }
    ensures { result ≡ trace_length_of head.now front.now }
{
    let extensions = extension_count(head, front)?;
    let samples = sample_count(head, front);
    Some(length_with(head, extensions, samples))
}

/// How many header extensions the trace has: as many as its first says (bytes 157-158), and where
/// that says 0 as many as the file allows. None where it says more. Takes no memory.
pub fn extension_count(head: &Head, front: &[u8]) -> Option<u8>
    requires { front_length_of head.now ≤ length front.now }
    ensures { result ≡ extension_count_of head.now front.now }
{
    if head.extensions == 0 {
        return Some(0);
    }
    extensions_by(
        head,
        u32::from(u16_at(head.order, front, TRACE_HEADER_BYTES + 157 - 1)),
    )
}

/// How many header extensions a trace has whose first says this number of them (bytes 157-158); 0
/// means as many as the file allows. None where it says more. Takes no memory.
pub fn extensions_by(head: &Head, count: u32) -> Option<u8>
    ensures { result ≡ extensions_by_count head.now count }
{
    if head.extensions == 0 {
        Some(0)
    } else if count == 0 {
        Some(head.extensions)
    } else if count <= u32::from(head.extensions) {
        Some(count as u8)
    } else {
        None
    }
}

/// How many samples the trace has: the binary header's number where all traces have that one, else
/// the first that is not 0 of the number in its first header extension (bytes 137-140), that in its
/// main header (bytes 115-116), and the binary header's. Takes no memory.
pub fn sample_count(head: &Head, front: &[u8]) -> u32
    requires { front_length_of head.now ≤ length front.now }
    ensures { result ≡ sample_count_of head.now front.now }
{
    let wide = if head.extensions == 0 {
        0
    } else {
        u32_at(head.order, front, TRACE_HEADER_BYTES + 137 - 1)
    };
    let short = u32::from(u16_at(head.order, front, 115 - 1));
    samples_by(head, wide, short)
}

/// How many samples a trace has whose first header extension says `wide` (bytes 137-140; 0 where
/// there is none) and whose main header says `short` (bytes 115-116): the binary header's number
/// where all traces have that one, else the first of `wide`, `short` and the binary header's that
/// is not 0. Takes no memory.
pub fn samples_by(head: &Head, wide: u32, short: u32) -> u32
    ensures { result ≡ samples_by_counts head.now wide short }
{
    if head.fixed {
        head.samples
    } else if wide != 0 {
        wide
    } else if short != 0 {
        short
    } else {
        head.samples
    }
}

// Below 2^38 bytes, whatever the counts are.
pub(crate) fn length_with(head: &Head, extensions: u8, samples: u32) -> u64
    ensures { result ≡ length_of head.now extensions samples }
{
    TRACE_HEADER_BYTES as u64 * (1 + u64::from(extensions))
        + u64::from(head.format.width()) * u64::from(samples)
}
