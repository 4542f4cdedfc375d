// What a reading makes of the binary header, and when the file says it by itself then.
ghost use Rattle.std.specs.Prelude.{◌≡◌, ◌+◌, ◌≤◌, ◌&&◌, ◌==◌, not, length};
ghost use Rattle.num_order.specs.Number.{IsSize, InRange, bytes as bytes_of_number};
ghost use Rattle.frame_cut.specs.BinaryHeader.{asks_fixed as asks_fixed_in};
ghost use Rattle.frame_cut.specs.Frames.{or_else};
ghost use Rattle.frame_cut.specs.Splice.{splice};
ghost use Rattle.declared_frame.specs.Written.{declared as declared_header, holds_samples as holds_samples_in, holds_texts as holds_texts_in, with_flag, with_format, with_samples, with_texts};

use frame_cut::{BINARY_HEADER_BYTES, Head, Reading};
use num_order::{Kind, Order, write};

const TWO: Kind = Kind {
    size: 2,
    signed: false,
};

const FOUR: Kind = Kind {
    size: 4,
    signed: false,
};

const TWO_SIGNED: Kind = Kind {
    size: 2,
    signed: true,
};

/// The binary header with what the reading asks for where the revision has a place for it: the
/// number of samples in bytes 3221-3222 and, in revision 2, 3269-3272, the code of the format in
/// 3225-3226, the fixed length flag in 3503-3504, the number of extended textual headers in
/// 3505-3506.
pub fn declared(
    reading: Reading,
    head: Head,
    bin: &[u8; BINARY_HEADER_BYTES],
) -> [u8; BINARY_HEADER_BYTES]
    ensures { result ≡ declared_header reading head bin.now }
{
    let mut new = *bin;
    put_samples(head, reading.samples, &mut new);
    put_format(head, reading.format, &mut new);
    put_flag(head, asks_fixed(reading), &mut new);
    put_texts(head, reading.texts, &mut new);
    new
}

/// Whether the fields hold the numbers of the reading: above 65535 samples only those of revision 2
/// do, and revision 0 has none for extended textual headers.
pub fn fields_hold(reading: Reading, head: Head) -> bool
    ensures { result ≡ (holds_samples_in head reading.samples
        && holds_texts_in head reading.texts) }
{
    holds_samples(head, reading.samples) && holds_texts(head, reading.texts)
}

/// Whether each trace is asked to have one number of samples, and no field of the binary header can
/// say so: revision 0 has no fixed length flag.
pub fn needs_lengths(reading: Reading, head: Head) -> bool
    ensures { result ≡ (asks_fixed_in reading && (head.major == 0)) }
{
    asks_fixed(reading) && head.major == 0
}

/// Whether a trace whose main header says this number of samples (bytes 115-116) has that of the
/// head: it says it, or says 0 and leaves it to the head.
pub fn has_samples(head: Head, short: u16) -> bool
    ensures { result ≡ (or_else short head.samples == head.samples) }
{
    short == 0 || u32::from(short) == head.samples
}

// Whether each trace is asked to have one number of samples.
fn asks_fixed(reading: Reading) -> bool
    ensures { result ≡ asks_fixed_in reading }
{
    reading.fixed || reading.samples.is_some()
}

fn holds_samples(head: Head, samples: Option<u32>) -> bool
    ensures { result ≡ holds_samples_in head samples }
{
    match samples {
        Some(count) => head.major == 2 || count <= 65535,
        None => true,
    }
}

fn holds_texts(head: Head, texts: Option<i16>) -> bool
    ensures { result ≡ holds_texts_in head texts }
{
    match texts {
        Some(count) => head.major != 0 || count == 0,
        None => true,
    }
}

fn put_samples(head: Head, samples: Option<u32>, bin: &mut [u8; BINARY_HEADER_BYTES])
    ensures { bin.new ≡ with_samples head samples bin.old }
{
    let Some(count) = samples else {
        return;
    };
    let (short, wide) = if count > 65535 {
        (0, count)
    } else {
        (count, 0)
    };
    put(head.order, TWO, i128::from(short), bin, 3221 - 3201);
    if head.major == 2 {
        put(head.order, FOUR, i128::from(wide), bin, 3269 - 3201);
    }
}

fn put_format(head: Head, format: Option<u16>, bin: &mut [u8; BINARY_HEADER_BYTES])
    ensures { bin.new ≡ with_format head format bin.old }
{
    if let Some(code) = format {
        put(head.order, TWO, i128::from(code), bin, 3225 - 3201);
    }
}

fn put_flag(head: Head, asked: bool, bin: &mut [u8; BINARY_HEADER_BYTES])
    ensures { bin.new ≡ with_flag head asked bin.old }
{
    if asked && head.major != 0 {
        put(head.order, TWO, 1, bin, 3503 - 3201);
    }
}

fn put_texts(head: Head, texts: Option<i16>, bin: &mut [u8; BINARY_HEADER_BYTES])
    ensures { bin.new ≡ with_texts head texts bin.old }
{
    let Some(count) = texts else {
        return;
    };
    if head.major != 0 {
        put(head.order, TWO_SIGNED, i128::from(count), bin, 3505 - 3201);
    }
}

// Writes a number over the bytes of the header from a place on, counted from 0 in it.
fn put(order: Order, kind: Kind, number: i128, bin: &mut [u8; BINARY_HEADER_BYTES], at: usize)
    requires size { IsSize kind.size }
    requires fits { InRange kind number }
    requires inside { at + kind.size ≤ BINARY_HEADER_BYTES }
    ensures { bin.new ≡ splice bin.old at (length (bytes_of_number order kind number))
        (bytes_of_number order kind number) }
{
    let mut buffer = [0u8; 8];
    let new = &mut buffer[..usize::from(kind.size)];
    write(order, kind, number, new);
    overwrite(bin, at, new);
}

// Writes the new bytes over those from a place on.
fn overwrite(all: &mut [u8], at: usize, new: &[u8])
    requires { at + length new.now ≤ length all.old }
    ensures { all.new ≡ splice all.old at (length new.now) new.now }
{
    all[at..at + new.len()].copy_from_slice(new);
}
