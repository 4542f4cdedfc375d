ghost use Rattle.std.specs.Prelude.{◌≡◌, ◌≤◌, length, IsTrue};

use crate::integer_format::IntegerFormat;
use float_codes::FloatFormat;
use num_order::Order;

/// A sample format whose samples have values, each of which is a whole number here: that number, or
/// the rank of a float (`float_codes`), which is in the order of the values.
#[derive(Clone, Copy, Debug, PartialEq, Eq)]
pub enum ValueFormat {
    /// Samples are whole numbers.
    Integer(IntegerFormat),
    /// Samples are floats.
    Float(FloatFormat),
}

impl ValueFormat {
    ghost use Rattle.sample_codes.specs.Formats.{value_width, may_be_negative as may_be_below, is_float as is_float_format, sample_value, sample_bytes, sample_fits};

    /// How many bytes a sample has. Takes no memory.
    pub fn width(self) -> u8
        ensures width { result ≡ value_width self }
        ensures small { result ≤ 8 }
    {
        match self {
            ValueFormat::Integer(format) => format.width(),
            ValueFormat::Float(format) => format.width(),
        }
    }

    /// Whether the number of a sample may be below 0. Takes no memory.
    pub fn may_be_negative(self) -> bool
        ensures { result ≡ may_be_below self }
    {
        match self {
            ValueFormat::Integer(format) => format.kind().signed,
            ValueFormat::Float(_) => true,
        }
    }

    /// Whether samples are floats. Takes no memory.
    pub fn is_float(self) -> bool
        ensures { result ≡ is_float_format self }
    {
        match self {
            ValueFormat::Integer(_) => false,
            ValueFormat::Float(_) => true,
        }
    }

    /// The number of one sample's bytes. Takes no memory.
    #[inline]
    pub fn decode(self, order: Order, bytes: &[u8]) -> i128
        requires { length bytes.now ≡ value_width self }
        ensures { result ≡ sample_value order self bytes.now }
    {
        match self {
            ValueFormat::Integer(format) => format.decode(order, bytes),
            ValueFormat::Float(format) => i128::from(format.decode(order, bytes)),
        }
    }

    /// Whether the format has the number: whether one sample can hold it. Takes no memory.
    pub fn fits(self, value: i128) -> bool
        ensures { result ≡ sample_fits self value }
    {
        match self {
            ValueFormat::Integer(format) => format.fits(value),
            ValueFormat::Float(format) => format.fits(value),
        }
    }

    /// Writes the number over the bytes of one sample. Takes no memory.
    pub fn encode(self, order: Order, value: i128, bytes: &mut [u8])
        requires whole { length bytes.old ≡ value_width self }
        requires fits { IsTrue (sample_fits self value) }
        ensures { bytes.new ≡ sample_bytes order self value }
    {
        match self {
            ValueFormat::Integer(format) => format.encode(order, value, bytes),
            ValueFormat::Float(format) => {
                if let Ok(rank) = i64::try_from(value) {
                    format.encode(order, rank, bytes);
                }
            }
        }
    }
}
