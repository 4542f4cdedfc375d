// Samples read by index, of a format and in an order that are settled outside the loop.
ghost use Rattle.std.specs.Prelude.{◌≡◌, ℕ, List, ◌+◌, ◌*◌, ◌^◌, ◌<◌, ◌≤◌, ◌≤ℤ◌, ◌<ℤ◌, pos, neg_ℤ, take, drop, length};
ghost use Rattle.num_order.specs.Number.{unsigned};
ghost use Rattle.num_order.specs.declared.order.Order.{Order};
ghost use Rattle.num_order.specs.declared.order.Order.TheVariants.{Big, Little};
ghost use Rattle.num_order.proofs.NumberLemmas.{low_first-is, high_first-is};
ghost use Rattle.sample_codes.specs.declared.integer_format.IntegerFormat.{IntegerFormat};
ghost use Rattle.sample_codes.specs.declared.integer_format.IntegerFormat.TheVariants.{Signed32, Signed24, Signed16, Signed8, Signed64, Unsigned24, Unsigned16, Unsigned8, Unsigned64};
ghost use Rattle.sample_codes.specs.declared.value_format.ValueFormat.TheVariants.{Integer, Float};
ghost use Rattle.sample_codes.specs.Formats.{integer_width, sample_value};
ghost use Rattle.float_codes.specs.declared.float_format.FloatFormat.{FloatFormat};
ghost use Rattle.float_codes.specs.declared.float_format.FloatFormat.TheVariants.{Ibm32, Ieee32, Ieee64};
ghost use Rattle.float_codes.specs.Values.{float_width};

use byteorder::{BigEndian, ByteOrder, LittleEndian};
use float_codes::FloatFormat;

// An order that byteorder has, as an order of a file.
pub(crate) trait Ordered: ByteOrder {
    ghost order: { Order };

    ghost same: { (bs : List ℕ) → Self.number_of (length bs) bs ≡ unsigned order bs };
}

impl Ordered for BigEndian {
    ghost order = { Big };

    ghost same = { high_first-is };
}

impl Ordered for LittleEndian {
    ghost order = { Little };

    ghost same = { low_first-is };
}

// The number of the two bytes from this place on.
#[inline(always)]
fn two_bytes<O: Ordered>(bytes: &[u8], at: usize) -> u16
    requires { at + 2 ≤ length bytes.now }
    ensures { result ≡ unsigned O.order (take 2 (drop at bytes.now)) }
{
    O::read_u16(&bytes[at..at + 2])
}

// The number of the three bytes from this place on.
#[inline(always)]
fn three_bytes<O: Ordered>(bytes: &[u8], at: usize) -> u32
    requires { at + 3 ≤ length bytes.now }
    ensures value { result ≡ unsigned O.order (take 3 (drop at bytes.now)) }
    ensures small { result < 2 ^ 24 }
{
    O::read_u24(&bytes[at..at + 3])
}

// The number of the four bytes from this place on.
#[inline(always)]
pub(crate) fn four_bytes<O: Ordered>(bytes: &[u8], at: usize) -> u32
    requires { at + 4 ≤ length bytes.now }
    ensures { result ≡ unsigned O.order (take 4 (drop at bytes.now)) }
{
    O::read_u32(&bytes[at..at + 4])
}

// The number of the eight bytes from this place on.
#[inline(always)]
fn eight_bytes<O: Ordered>(bytes: &[u8], at: usize) -> u64
    requires { at + 8 ≤ length bytes.now }
    ensures { result ≡ unsigned O.order (take 8 (drop at bytes.now)) }
{
    O::read_u64(&bytes[at..at + 8])
}

// Samples of a format that fits an i32.
pub(crate) trait ReadsSample {
    ghost format: { IntegerFormat };

    // Sample i of the bytes, in the order O.
    fn at<O: Ordered>(bytes: &[u8], i: usize) -> i32
        requires { integer_width format * i + integer_width format ≤ length bytes.now }
        ensures { result ≡ sample_value O.order (Integer format)
            (take (integer_width format) (drop (integer_width format * i) bytes.now)) };
}

impl ReadsSample for i16 {
    ghost format = { Signed16 };

    #[inline(always)]
    fn at<O: Ordered>(bytes: &[u8], i: usize) -> i32 {
        i32::from(two_bytes::<O>(bytes, 2 * i).cast_signed())
    }
}

impl ReadsSample for u16 {
    ghost format = { Unsigned16 };

    #[inline(always)]
    fn at<O: Ordered>(bytes: &[u8], i: usize) -> i32 {
        i32::from(two_bytes::<O>(bytes, 2 * i))
    }
}

impl ReadsSample for i32 {
    ghost format = { Signed32 };

    #[inline(always)]
    fn at<O: Ordered>(bytes: &[u8], i: usize) -> i32 {
        four_bytes::<O>(bytes, 4 * i).cast_signed()
    }
}

impl ReadsSample for i8 {
    ghost format = { Signed8 };

    #[inline(always)]
    fn at<O: Ordered>(bytes: &[u8], i: usize) -> i32 {
        i32::from(bytes[i].cast_signed())
    }
}

impl ReadsSample for u8 {
    ghost format = { Unsigned8 };

    #[inline(always)]
    fn at<O: Ordered>(bytes: &[u8], i: usize) -> i32 {
        i32::from(bytes[i])
    }
}

// Samples of 24 bits in two's complement.
pub(crate) struct I24;

impl ReadsSample for I24 {
    ghost format = { Signed24 };

    #[inline(always)]
    fn at<O: Ordered>(bytes: &[u8], i: usize) -> i32 {
        let number = three_bytes::<O>(bytes, 3 * i) as i32;
        if number < 0x80_0000 {
            number
        } else {
            number - 0x100_0000
        }
    }
}

// Samples of 24 bits without a sign.
pub(crate) struct U24;

impl ReadsSample for U24 {
    ghost format = { Unsigned24 };

    #[inline(always)]
    fn at<O: Ordered>(bytes: &[u8], i: usize) -> i32 {
        three_bytes::<O>(bytes, 3 * i) as i32
    }
}

// Samples of 64 bits.
pub(crate) trait ReadsWide {
    ghost format: { IntegerFormat };

    // Sample i of the bytes, in the order O.
    fn at<O: Ordered>(bytes: &[u8], i: usize) -> i128
        requires { integer_width format * i + integer_width format ≤ length bytes.now }
        ensures value { result ≡ sample_value O.order (Integer format)
            (take (integer_width format) (drop (integer_width format * i) bytes.now)) }
        ensures low { neg_ℤ (pos (2 ^ 63)) ≤ℤ result }
        ensures high { result <ℤ pos (2 ^ 64) };
}

impl ReadsWide for i64 {
    ghost format = { Signed64 };

    #[inline(always)]
    fn at<O: Ordered>(bytes: &[u8], i: usize) -> i128 {
        i128::from(eight_bytes::<O>(bytes, 8 * i).cast_signed())
    }
}

impl ReadsWide for u64 {
    ghost format = { Unsigned64 };

    #[inline(always)]
    fn at<O: Ordered>(bytes: &[u8], i: usize) -> i128 {
        i128::from(eight_bytes::<O>(bytes, 8 * i))
    }
}

// Samples that are floats.
pub(crate) trait ReadsFloat {
    ghost format: { FloatFormat };

    // The rank of sample i of the bytes, in the order O.
    fn at<O: Ordered>(bytes: &[u8], i: usize) -> i64
        requires { float_width format * i + float_width format ≤ length bytes.now }
        ensures { result ≡ sample_value O.order (Float format)
            (take (float_width format) (drop (float_width format * i) bytes.now)) };
}

// Floats of 4 bytes as IBM has them.
pub(crate) struct Ibm;

impl ReadsFloat for Ibm {
    ghost format = { Ibm32 };

    #[inline(always)]
    fn at<O: Ordered>(bytes: &[u8], i: usize) -> i64 {
        FloatFormat::Ibm32.rank(u64::from(four_bytes::<O>(bytes, 4 * i)))
    }
}

impl ReadsFloat for f32 {
    ghost format = { Ieee32 };

    #[inline(always)]
    fn at<O: Ordered>(bytes: &[u8], i: usize) -> i64 {
        FloatFormat::Ieee32.rank(u64::from(four_bytes::<O>(bytes, 4 * i)))
    }
}

impl ReadsFloat for f64 {
    ghost format = { Ieee64 };

    #[inline(always)]
    fn at<O: Ordered>(bytes: &[u8], i: usize) -> i64 {
        FloatFormat::Ieee64.rank(eight_bytes::<O>(bytes, 8 * i))
    }
}
